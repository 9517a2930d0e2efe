//! What the tables `[[process]]` state.

ghost use Rattle.std.specs.Prelude.{◌≡◌, IfOk, IfErr};
ghost use Rattle.toml.specs.View.{table_view};
ghost use Rattle.rates_text.specs.Faults.{IsFaultOfPart};
ghost use Rattle.rates_text.specs.Index.{index_by};
ghost use Rattle.rates_text.specs.Stated.{process_of, processes_of};
ghost use Rattle.rates_text.specs.Views.{table_views};

use crate::error::{RatesKey, RatesTable, RatesTextError};
use crate::names::RatesNames;
use crate::{fields, keys};
use instance_text::Place;
use rates_model::RatesProcess;
use std::alloc::Global;
use toml::Table;

/// The release of a process that states none, in ticks.
const FIRST_RELEASE: u32 = 0;

/// The process of a table.
fn process(
    alloc: Global,
    table: &Table,
    index: usize,
    nodes: &RatesNames,
) -> Result<RatesProcess, RatesTextError>
    ensures ok { IfOk result (λ p. process_of (index_by nodes.now) index (table_view table.now)
        ≡ Ok p) }
    ensures err { IfErr result (IsFaultOfPart (process_of (index_by nodes.now) index
        (table_view table.now))) }
{
    let place = RatesTable::Of(Place::Process(index));
    keys::judge(table, place)?;
    let name = fields::name(alloc, table, place, RatesKey::Name)?;
    let node = fields::index(table, place, RatesKey::Node, nodes)?;
    let wcet = fields::number(table, place, RatesKey::Wcet)?;
    let period = fields::number(table, place, RatesKey::Period)?;
    let release = fields::number_or(table, place, RatesKey::Release, FIRST_RELEASE)?;
    let deadline = fields::number_if_any(table, place, RatesKey::Deadline)?;
    Ok(RatesProcess {
        name,
        node,
        wcet,
        period,
        release,
        deadline: deadline.unwrap_or(period),
    })
}

/// The processes of these tables.
pub fn processes(
    alloc: Global,
    tables: &[&Table],
    nodes: &RatesNames,
) -> Result<Vec<RatesProcess>, RatesTextError>
    ensures ok { IfOk result (λ ps. processes_of (index_by nodes.now) (table_views tables.now)
        ≡ Ok ps.items) }
    ensures err { IfErr result (IsFaultOfPart (processes_of (index_by nodes.now)
        (table_views tables.now))) }
{
    let mut processes = Vec::new(alloc);
    for (index, table) in tables.iter().enumerate() {
        processes.push(process(alloc, table, index, nodes)?)?;
    }
    Ok(processes)
}
