//! What the table `[cluster]` states.

ghost use Rattle.std.specs.Prelude.{◌≡◌};
ghost use Rattle.toml.specs.View.{table_view};
ghost use Rattle.rates_text.specs.Stated.{cluster_of};

use crate::error::{RatesKey, RatesTable, RatesTextError};
use crate::{fields, keys};
use instance_text::Place;
use rates_model::RatesCluster;
use toml::Table;

/// The numbers of the cluster, in ticks of the text.
pub fn cluster(table: &Table) -> Result<RatesCluster, RatesTextError>
    ensures { result ≡ cluster_of (table_view table.now) }
{
    let place = RatesTable::Of(Place::Cluster);
    keys::judge(table, place)?;
    let precision = fields::number(table, place, RatesKey::Precision)?;
    let lead = fields::number(table, place, RatesKey::Lead)?;
    let trail = fields::number(table, place, RatesKey::Trail)?;
    let head = fields::number(table, place, RatesKey::Head)?;
    let per_byte = fields::number(table, place, RatesKey::PerByte)?;
    let copy_out = fields::number(table, place, RatesKey::CopyOut)?;
    let copy_in = fields::number(table, place, RatesKey::CopyIn)?;
    let channels = fields::number_or(table, place, RatesKey::Channels, 1)?;
    let store = fields::number_or(table, place, RatesKey::Store, 1)?;
    let round = fields::number_if_any(table, place, RatesKey::Round)?;
    Ok(RatesCluster {
        precision,
        lead,
        trail,
        head,
        per_byte,
        copy_out,
        copy_in,
        channels,
        store,
        round,
        finer: 1,
    })
}
