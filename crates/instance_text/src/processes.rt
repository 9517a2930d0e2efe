//! What the tables `[[process]]` state.

ghost use Rattle.std.specs.Prelude.{◌≡◌, IfOk, IfErr};
ghost use Rattle.toml.specs.View.{table_view};
ghost use Rattle.instance_text.specs.Faults.{IsFaultOfPart};
ghost use Rattle.instance_text.specs.Index.{index_by};
ghost use Rattle.instance_text.specs.Stated.{process_of, processes_of};
ghost use Rattle.instance_text.specs.Views.{table_views};

use crate::error::{Key, Place, TextError};
use crate::names::Names;
use crate::{fields, keys};
use std::alloc::Global;
use toml::Table;
use ttp_model::{MOST_TICKS, Process};

/// The release of a process that states none, in ticks.
const FIRST_RELEASE: u32 = 0;

/// The deadline of a process that states none, in ticks: the latest that there is.
const LAST_DEADLINE: u32 = MOST_TICKS;

/// The process of a table.
fn process(alloc: Global, table: &Table, index: usize, nodes: &Names) -> Result<Process, TextError>
    ensures ok { IfOk result (λ p. process_of (index_by nodes.now) index (table_view table.now)
        ≡ Ok p) }
    ensures err { IfErr result (IsFaultOfPart (process_of (index_by nodes.now) index
        (table_view table.now))) }
{
    let place = Place::Process(index);
    keys::judge(table, place)?;
    let name = fields::name(alloc, table, place, Key::Name)?;
    let node = fields::index(table, place, Key::Node, nodes)?;
    let wcet = fields::number(table, place, Key::Wcet)?;
    let release = fields::number_or(table, place, Key::Release, FIRST_RELEASE)?;
    let deadline = fields::number_or(table, place, Key::Deadline, LAST_DEADLINE)?;
    Ok(Process {
        name,
        node,
        wcet,
        release,
        deadline,
    })
}

/// The processes of these tables.
pub fn processes(alloc: Global, tables: &[&Table], nodes: &Names) -> Result<Vec<Process>, TextError>
    ensures ok { IfOk result (λ ps. processes_of (index_by nodes.now) (table_views tables.now)
        ≡ Ok ps.items) }
    ensures err { IfErr result (IsFaultOfPart (processes_of (index_by nodes.now)
        (table_views tables.now))) }
{
    let mut processes = Vec::new(alloc);
    for (index, table) in tables.iter().enumerate() {
        processes.push(process(alloc, table, index, nodes)?)?;
    }
    Ok(processes)
}
