//! What the tables `[[link]]` state.

ghost use Rattle.std.specs.Prelude.{◌≡◌, IfOk, IfErr};
ghost use Rattle.toml.specs.View.{table_view};
ghost use Rattle.rates_text.specs.Faults.{IsFaultOfPart};
ghost use Rattle.rates_text.specs.Index.{index_by};
ghost use Rattle.rates_text.specs.Stated.{link_of, links_of};
ghost use Rattle.rates_text.specs.Views.{table_views};

use crate::error::{RatesKey, RatesTable, RatesTextError};
use crate::names::RatesNames;
use crate::{fields, keys};
use instance_text::Place;
use rates_model::RatesLink;
use std::alloc::Global;
use toml::Table;

/// The link of a table.
fn link(table: &Table, index: usize, processes: &RatesNames) -> Result<RatesLink, RatesTextError>
    ensures { result ≡ link_of (index_by processes.now) index (table_view table.now) }
{
    let place = RatesTable::Of(Place::Link(index));
    keys::judge(table, place)?;
    let before = fields::index(table, place, RatesKey::From, processes)?;
    let after = fields::index(table, place, RatesKey::To, processes)?;
    let delay = fields::number_or(table, place, RatesKey::Delay, 0)?;
    Ok(RatesLink {
        before,
        after,
        delay,
    })
}

/// The links of these tables.
pub fn links(
    alloc: Global,
    tables: &[&Table],
    processes: &RatesNames,
) -> Result<Vec<RatesLink>, RatesTextError>
    ensures ok { IfOk result (λ ls. links_of (index_by processes.now) (table_views tables.now)
        ≡ Ok ls.items) }
    ensures err { IfErr result (IsFaultOfPart (links_of (index_by processes.now)
        (table_views tables.now))) }
{
    let mut links = Vec::new(alloc);
    for (index, table) in tables.iter().enumerate() {
        links.push(link(table, index, processes)?)?;
    }
    Ok(links)
}
