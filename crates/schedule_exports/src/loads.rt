//! What is each node loaded with: which processes start when, and which slots has the cycle for it?

ghost use Rattle.std.specs.Prelude.{◌≡◌, ◌<◌, ◌≤◌, All, IfOk, length};
ghost use Rattle.ttp_model.specs.Plans.{IsValid};
ghost use Rattle.sentences.specs.Lists.{AreTold};
ghost use Rattle.plan_sheets.specs.Order.{order_of};
ghost use Rattle.medl_tables.specs.Medl.{IsRowOf, medl_of};
ghost use Rattle.schedule_exports.specs.Loads.{IsNodeLoad, IsRun, IsTurn};

use medl_tables::{Medl, Row};
use plan_sheets::order_of;
use std::alloc::Global;
use tt_layout::Layout;
use ttp_model::{Instance, MemoryFault, Plan, end_of};

/// A process that runs.
#[derive(Clone, Copy)]
pub struct Run {
    /// The process, by its index in the instance.
    pub process: u32,
    /// When it starts, in ticks.
    pub start: u32,
    /// When it ends: the first tick after it.
    pub end: u64,
}

/// A slot of the cycle, with the row of a node's table for it.
#[derive(Clone, Copy)]
pub struct Turn<'a> {
    pub row: &'a Row,
    /// When it begins, in ticks.
    pub start: u64,
    /// When it ends: the first tick after it.
    pub end: u64,
}

/// What a node is loaded with.
#[derive(Drop)]
pub struct NodeLoad<'a> {
    /// The node, by its index in the instance.
    pub node: u32,
    /// Its processes in the order of their starts.
    pub runs: Vec<Run>,
    /// The slots of the cycle in order of time.
    pub turns: Vec<Turn<'a>>,
}

/// When a process runs.
pub fn run_of(instance: &Instance, plan: &Plan, p: u32) -> Run
    requires valid { IsValid instance.now plan.now }
    requires inside { p < length instance.now.processes }
    ensures { IsRun instance.now plan.now p result }
{
    Run {
        process: p,
        start: plan.starts.as_slice()[p as usize],
        end: end_of(instance, plan, p as usize),
    }
}

/// When these processes run.
fn runs_in(
    alloc: Global,
    instance: &Instance,
    plan: &Plan,
    processes: &[u32],
) -> Result<Vec<Run>, MemoryFault>
    requires valid { IsValid instance.now plan.now }
    requires there { All (λ p. p < length instance.now.processes) processes.now }
    ensures { IfOk result (λ runs. AreTold (IsRun instance.now plan.now) processes.now runs.items) }
{
    let mut runs = Vec::new(alloc);
    for p in processes {
        runs.push(run_of(instance, plan, *p))?;
    }
    Ok(runs)
}

/// When the processes of a node run.
fn runs_of(
    alloc: Global,
    instance: &Instance,
    plan: &Plan,
    node: u32,
) -> Result<Vec<Run>, MemoryFault>
    requires { IsValid instance.now plan.now }
    ensures { IfOk result (λ runs. AreTold (IsRun instance.now plan.now) (order_of instance.now plan.now node) runs.items) }
{
    let order = order_of(alloc, instance, plan, node)?;
    runs_in(alloc, instance, plan, order.as_slice())
}

/// When the slot of a row is.
fn turn_of<'a>(instance: &Instance, plan: &Plan, row: &'a Row) -> Turn<'a>
    requires valid { IsValid instance.now plan.now }
    requires row { IsRowOf instance.now row.now }
    ensures { IsTurn instance.now plan.now row.now result }
{
    let layout = Layout::of(instance, plan.order.as_slice(), plan.caps.as_slice());
    Turn {
        row,
        start: layout.slot_start(row.sender, row.round),
        end: layout.slot_end(row.sender, row.round),
    }
}

/// When the slots of rows are.
fn turns_of<'a>(
    alloc: Global,
    instance: &Instance,
    plan: &Plan,
    rows: &'a [Row],
) -> Result<Vec<Turn<'a>>, MemoryFault>
    requires valid { IsValid instance.now plan.now }
    requires rows { All (IsRowOf instance.now) rows.now }
    ensures { IfOk result (λ turns. AreTold (IsTurn instance.now plan.now) rows.now turns.items) }
{
    let mut turns = Vec::new(alloc);
    for row in rows {
        turns.push(turn_of(instance, plan, row))?;
    }
    Ok(turns)
}

/// What a node is loaded with.
fn load_of<'a>(
    alloc: Global,
    instance: &Instance,
    plan: &Plan,
    medl: &'a Medl,
    node: u32,
) -> Result<NodeLoad<'a>, MemoryFault>
    requires valid { IsValid instance.now plan.now }
    requires tables { medl.now ≡ medl_of instance.now plan.now }
    requires node { node < length instance.now.nodes }
    ensures { IfOk result (IsNodeLoad instance.now plan.now) }
{
    let turns = turns_of(alloc, instance, plan, medl.rows(node))?;
    let runs = runs_of(alloc, instance, plan, node)?;
    Ok(NodeLoad { node, runs, turns })
}

/// What the nodes from one to another, which isn't one of them, are loaded with.
pub fn loads<'a>(
    alloc: Global,
    instance: &Instance,
    plan: &Plan,
    medl: &'a Medl,
    first: u32,
    end: u32,
) -> Result<Vec<NodeLoad<'a>>, MemoryFault>
    requires valid { IsValid instance.now plan.now }
    requires tables { medl.now ≡ medl_of instance.now plan.now }
    requires nodes { end ≤ length instance.now.nodes }
    ensures { IfOk result (λ loads. All (IsNodeLoad instance.now plan.now) loads.items) }
{
    let mut loads = Vec::new(alloc);
    for node in first..end {
        loads.push(load_of(alloc, instance, plan, medl, node)?)?;
    }
    Ok(loads)
}
