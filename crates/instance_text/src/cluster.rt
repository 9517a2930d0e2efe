//! What the table `[cluster]` states.

ghost use Rattle.std.specs.Prelude.{◌≡◌};
ghost use Rattle.toml.specs.View.{table_view};
ghost use Rattle.instance_text.specs.Stated.{cluster_of};

use crate::error::{Key, Place, TextError};
use crate::{fields, keys};
use toml::Table;
use ttp_model::Cluster;

/// The numbers of the cluster.
pub fn cluster(table: &Table) -> Result<Cluster, TextError>
    ensures { result ≡ cluster_of (table_view table.now) }
{
    let place = Place::Cluster;
    keys::judge(table, place)?;
    let precision = fields::number(table, place, Key::Precision)?;
    let lead = fields::number(table, place, Key::Lead)?;
    let trail = fields::number(table, place, Key::Trail)?;
    let head = fields::number(table, place, Key::Head)?;
    let per_byte = fields::number(table, place, Key::PerByte)?;
    let copy_out = fields::number(table, place, Key::CopyOut)?;
    let copy_in = fields::number(table, place, Key::CopyIn)?;
    let horizon = fields::number(table, place, Key::Horizon)?;
    let channels = fields::number_or(table, place, Key::Channels, 1)?;
    Ok(Cluster {
        precision,
        lead,
        trail,
        head,
        per_byte,
        copy_out,
        copy_in,
        horizon,
        channels,
    })
}
