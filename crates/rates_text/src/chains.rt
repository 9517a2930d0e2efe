//! What the tables `[[chain]]` state.

ghost use Rattle.std.specs.Prelude.{◌≡◌, IfOk, IfErr};
ghost use Rattle.toml.specs.View.{table_view};
ghost use Rattle.rates_text.specs.Faults.{IsFaultOfPart};
ghost use Rattle.rates_text.specs.Index.{index_by};
ghost use Rattle.rates_text.specs.Stated.{chain_of, chains_of};
ghost use Rattle.rates_text.specs.Views.{table_views};

use crate::error::{RatesKey, RatesTable, RatesTextError};
use crate::names::RatesNames;
use crate::{fields, keys};
use rates_model::Chain;
use std::alloc::Global;
use toml::Table;

/// The chain of a table.
fn chain(
    alloc: Global,
    table: &Table,
    index: usize,
    processes: &RatesNames,
) -> Result<Chain, RatesTextError>
    ensures ok { IfOk result (λ c. chain_of (index_by processes.now) index
        (table_view table.now) ≡ Ok c) }
    ensures err { IfErr result (IsFaultOfPart (chain_of (index_by processes.now) index
        (table_view table.now))) }
{
    let place = RatesTable::Chain(index);
    keys::judge(table, place)?;
    let name = fields::name(alloc, table, place, RatesKey::Name)?;
    let through = fields::indices(alloc, table, place, RatesKey::Through, processes)?;
    let age = fields::number(table, place, RatesKey::Age)?;
    Ok(Chain { name, through, age })
}

/// The chains of these tables.
pub fn chains(
    alloc: Global,
    tables: &[&Table],
    processes: &RatesNames,
) -> Result<Vec<Chain>, RatesTextError>
    ensures ok { IfOk result (λ cs. chains_of (index_by processes.now) (table_views tables.now)
        ≡ Ok cs.items) }
    ensures err { IfErr result (IsFaultOfPart (chains_of (index_by processes.now)
        (table_views tables.now))) }
{
    let mut chains = Vec::new(alloc);
    for (index, table) in tables.iter().enumerate() {
        chains.push(chain(alloc, table, index, processes)?)?;
    }
    Ok(chains)
}
