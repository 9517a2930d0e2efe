//! When is each process dispatched?

ghost use Rattle.std.specs.Prelude.{◌≡◌, ◌<◌, ◌++◌, [], IfOk, OnOk, codes, length};
ghost use Rattle.ttp_model.specs.Plans.{IsValid};
ghost use Rattle.plan_sheets.specs.Dispatch.{IsDispatchRow, dispatch_line, dispatch_of, dispatches_text, node_text};
ghost use Rattle.plan_sheets.specs.Lines.{IsLineStart, IsSheet, text_of};

use crate::order::order_of;
use crate::sheet::Sheet;
use instance_variants::slack_of;
use plan_facts::must_end_by;
use std::alloc::Global;
use ttp_model::{Instance, MemoryFault, Plan, end_of};

/// What a dispatcher is told of a process.
#[derive(Clone, Copy)]
pub struct Dispatch {
    /// The node that the process is on, by its index in the instance.
    pub node: u32,
    /// The process, by its index in the instance.
    pub process: u32,
    /// When it starts, in ticks.
    pub start: u32,
    /// When it ends: the first tick after it.
    pub end: u64,
    /// Its earliest start.
    pub release: u32,
    /// Its latest end: the lesser of deadline and horizon.
    pub deadline: u32,
    /// By how many ticks it may run longer while the plan stays valid.
    pub slack: u64,
}

/// The table of processes, node by node in the order of starts.
pub fn dispatches(alloc: Global, instance: &Instance, plan: &Plan) -> Result<Vec<u8>, MemoryFault>
    requires { IsValid instance.now plan.now }
    ensures { IfOk result (λ text. text.items ≡ dispatches_text instance.now plan.now) }
{
    let count = instance.nodes().len();
    let mut sheet = Sheet::new(alloc, b"node,process,start,end,release,deadline,slack\n")?;
    for node in 0..count {
        put_node(alloc, &mut sheet, instance, plan, node as u32)?;
    }
    sheet.into_text()
}

/// Adds the lines of a node's processes.
fn put_node(
    alloc: Global,
    sheet: &mut Sheet,
    instance: &Instance,
    plan: &Plan,
    node: u32,
) -> Result<(), MemoryFault>
    requires valid { IsValid instance.now plan.now }
    requires start { IsLineStart sheet.old }
    ensures { OnOk result (IsSheet sheet.new (text_of sheet.old ++ node_text instance.now plan.now node) []) }
{
    let order = order_of(alloc, instance, plan, node)?;
    let processes = order.as_slice();
    for p in processes {
        let row = dispatch_of(instance, plan, *p);
        put_dispatch(sheet, instance, &row)?;
    }
    Ok(())
}

/// What a dispatcher is told of process `p`.
fn dispatch_of(instance: &Instance, plan: &Plan, p: u32) -> Dispatch
    requires valid { IsValid instance.now plan.now }
    requires inside { p < length instance.now.processes }
    ensures row { result ≡ dispatch_of instance.now plan.now p }
    ensures there { IsDispatchRow instance.now result }
{
    let process = instance.process_at(p as usize);
    Dispatch {
        node: process.node,
        process: p,
        start: plan.starts.as_slice()[p as usize],
        end: end_of(instance, plan, p as usize),
        release: process.release,
        deadline: must_end_by(instance, p as usize),
        slack: slack_of(instance, plan, p as usize),
    }
}

/// Adds the line of a process.
fn put_dispatch(sheet: &mut Sheet, instance: &Instance, row: &Dispatch) -> Result<(), MemoryFault>
    requires there { IsDispatchRow instance.now row.now }
    requires start { IsLineStart sheet.old }
    ensures { OnOk result (IsSheet sheet.new (text_of sheet.old ++ dispatch_line instance.now row.now) []) }
{
    let node = instance.nodes()[row.node as usize].name.as_bytes();
    let process = instance.process_at(row.process as usize).name.as_bytes();
    sheet.put(node)?;
    sheet.put(process)?;
    sheet.put_numbers(&[
        row.start as u64,
        row.end,
        row.release as u64,
        row.deadline as u64,
        row.slack,
    ])?;
    sheet.end_line()?;
    Ok(())
}
