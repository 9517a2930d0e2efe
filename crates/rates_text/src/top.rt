//! Which tables a text has.

ghost use Rattle.std.specs.Prelude.{◌≡◌, IfOk, IfErr};
ghost use Rattle.toml.specs.View.{table_view};
ghost use Rattle.rates_text.specs.Faults.{IsFaultOfPart};
ghost use Rattle.rates_text.specs.Stated.{stated_tables};
ghost use Rattle.rates_text.specs.Views.{tables_view};

use crate::error::{RatesKey, RatesTable, RatesTextError};
use crate::{fields, keys};
use instance_text::Place;
use std::alloc::Global;
use toml::Table;

/// The tables of a text, those of each array in their order.
#[derive(Drop)]
pub struct Tables<'a> {
    pub cluster: &'a Table,
    pub nodes: Vec<&'a Table>,
    pub processes: Vec<&'a Table>,
    pub links: Vec<&'a Table>,
    pub messages: Vec<&'a Table>,
    pub chains: Vec<&'a Table>,
}

/// The tables in the top table.
pub fn tables_of(alloc: Global, table: &Table) -> Result<Tables<'_>, RatesTextError>
    ensures ok { IfOk result (λ ts. stated_tables (table_view table.now) ≡ Ok (tables_view ts)) }
    ensures err { IfErr result (IsFaultOfPart (stated_tables (table_view table.now))) }
{
    let place = RatesTable::Of(Place::Top);
    keys::judge(table, place)?;
    let cluster = fields::table(table, place, RatesKey::Cluster)?;
    let nodes = fields::tables(alloc, table, place, RatesKey::Node)?;
    let processes = fields::tables(alloc, table, place, RatesKey::Process)?;
    let links = fields::tables_if_any(alloc, table, place, RatesKey::Link)?;
    let messages = fields::tables_if_any(alloc, table, place, RatesKey::Message)?;
    let chains = fields::tables_if_any(alloc, table, place, RatesKey::Chain)?;
    Ok(Tables {
        cluster,
        nodes,
        processes,
        links,
        messages,
        chains,
    })
}
