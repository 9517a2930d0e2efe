//! Which tables are there?

ghost use Rattle.std.specs.Prelude.{◌≡◌, IfOk};
ghost use Rattle.ttp_model.specs.Plans.{IsValid};
ghost use Rattle.plan_sheets.specs.Tables.{table_text};

use crate::deliveries::deliveries;
use crate::dispatch::dispatches;
use crate::slots::slots;
use std::alloc::Global;
use ttp_model::{Instance, MemoryFault, Plan};

/// A table of a plan.
#[derive(Clone, Copy, PartialEq, Eq)]
pub enum Table {
    /// Each process, node by node in the order of starts.
    Processes,
    /// Each slot of the cycle.
    Slots,
    /// Each message and receiver.
    Messages,
}

/// The text of a table of a valid plan: a line with the names of its columns, and a line for each row. Linear in the
/// text, but for a step for each two processes and for each process with each link and message, and, in each round in
/// which a message is sent, for each node and message.
pub fn print(
    alloc: Global,
    instance: &Instance,
    plan: &Plan,
    table: Table,
) -> Result<Vec<u8>, MemoryFault>
    requires { IsValid instance.now plan.now }
    ensures { IfOk result (λ text. text.items ≡ table_text instance.now plan.now table) }
{
    match table {
        Table::Processes => dispatches(alloc, instance, plan),
        Table::Slots => slots(alloc, instance, plan),
        Table::Messages => deliveries(alloc, instance, plan),
    }
}
