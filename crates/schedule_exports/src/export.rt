//! Which texts are there, and when is there none?

ghost use Rattle.std.specs.Prelude.{◌≡◌, ◌≤◌, ◌<◌, IfErr, IfOk, length, string_bytes};
ghost use Rattle.ttp_model.specs.Plans.{IsValid};
ghost use Rattle.sentences.specs.Shown.{IsShown};
ghost use Rattle.schedule_exports.specs.declared.export.ExportFault.TheVariants.{Memory};
ghost use Rattle.schedule_exports.specs.Exports.{HasNodes, IsExportFault, IsExportText, IsLoadFault, IsThere};

use crate::c_text::CText;
use crate::counts::{MOST_SLOTS, slots_of};
use crate::flows::{flows, runs, slots};
use crate::json_text::JsonText;
use crate::loads::loads;
use crate::origin::Origin;
use crate::trace_text::TraceText;
use medl_tables::Medl;
use plan_reasons::cycle_of;
use sentences::put;
use std::alloc::{AllocError, Global};
use ttp_model::{Instance, MemoryFault, Part, Plan};

/// What is to be written.
#[derive(Clone, Copy, PartialEq, Eq)]
pub enum Export<'a> {
    /// Constant arrays in C, of the node of this name or of all.
    C(Option<&'a str>),
    /// The same as an object of JSON.
    Json(Option<&'a str>),
    /// The cycle as events of a trace.
    Trace,
}

/// Why there is no text.
#[derive(Clone, Copy, PartialEq, Eq)]
pub enum ExportFault {
    /// When no node has the name.
    NoSuchNode,
    /// When the text would tell this many slots, more than it may.
    TooManySlots(u64),
    /// When memory was wanted, and refused.
    Memory,
}

impl From<MemoryFault> for ExportFault {
    ghost from_gives = { λ _ e. e ≡ Memory };

    fn from(_fault: MemoryFault) -> Self {
        ExportFault::Memory
    }
}

impl From<AllocError> for ExportFault {
    ghost from_gives = { λ _ e. e ≡ Memory };

    fn from(_error: AllocError) -> Self {
        ExportFault::Memory
    }
}

/// Whether loads are written as C or as JSON.
#[derive(Clone, Copy)]
enum Form {
    C,
    Json,
}

/// The nodes that are loaded: from one to another, which isn't one of them.
#[derive(Clone, Copy)]
struct Chosen {
    first: u32,
    end: u32,
}

/// The node of this name, or all.
fn choose(instance: &Instance, node: Option<&str>) -> Option<Chosen>
    ensures { HasNodes instance.now node.entry result }
{
    let end = instance.name_count(Part::Nodes) as u32;
    let Some(name) = node else {
        return Some(Chosen { first: 0, end });
    };
    let first = instance.index_named(Part::Nodes, name.as_bytes())?;
    Some(Chosen {
        first,
        end: first + 1,
    })
}

/// The loads of these nodes in this form.
fn loads_text(
    alloc: Global,
    instance: &Instance,
    plan: &Plan,
    form: Form,
    nodes: Chosen,
    origin: &Origin,
) -> Result<String, MemoryFault>
    requires valid { IsValid instance.now plan.now }
    requires nodes { nodes.end ≤ length instance.now.nodes }
    ensures { IfOk result (λ text. IsShown (string_bytes text)) }
{
    let medl = Medl::of(alloc, instance, plan)?;
    let loads = loads(alloc, instance, plan, &medl, nodes.first, nodes.end)?;
    let cycle = cycle_of(instance, plan);
    let loads = loads.as_slice();
    let mut text = String::new(alloc);
    match form {
        Form::C => put(
            alloc,
            &mut text,
            &CText {
                origin,
                cycle,
                instance,
                loads,
            },
        )?,
        Form::Json => put(
            alloc,
            &mut text,
            &JsonText {
                origin,
                cycle,
                instance,
                loads,
            },
        )?,
    }
    Ok(text)
}

/// The cycle as events.
fn trace_text(
    alloc: Global,
    instance: &Instance,
    plan: &Plan,
    origin: &Origin,
) -> Result<String, MemoryFault>
    requires { IsValid instance.now plan.now }
    ensures { IfOk result (λ text. IsShown (string_bytes text)) }
{
    let runs = runs(alloc, instance, plan)?;
    let slots = slots(alloc, instance, plan)?;
    let flows = flows(alloc, instance, plan)?;
    let trace = TraceText {
        origin,
        instance,
        runs: runs.as_slice(),
        slots: slots.as_slice(),
        flows: flows.as_slice(),
    };
    let mut text = String::new(alloc);
    put(alloc, &mut text, &trace)?;
    Ok(text)
}

/// The loads of the node of this name, or of all.
fn named_text(
    alloc: Global,
    instance: &Instance,
    plan: &Plan,
    form: Form,
    node: Option<&str>,
    origin: &Origin,
) -> Result<String, ExportFault>
    requires { IsValid instance.now plan.now }
    ensures text { IfOk result (λ text. IsThere instance.now node.entry × IsShown (string_bytes text)) }
    ensures err { IfErr result (IsLoadFault instance.now node.entry) }
{
    let Some(nodes) = choose(instance, node) else {
        return Err(ExportFault::NoSuchNode);
    };
    Ok(loads_text(alloc, instance, plan, form, nodes, origin)?)
}

/// A text of a valid plan, made of these. Linear in the text, but for what its tables take; takes memory for it, twice.
pub fn print(
    alloc: Global,
    instance: &Instance,
    plan: &Plan,
    export: Export,
    origin: &Origin,
) -> Result<String, ExportFault>
    requires { IsValid instance.now plan.now }
    ensures text { IfOk result (λ text. IsExportText instance.now plan.now export.entry (string_bytes text)) }
    ensures err { IfErr result (IsExportFault instance.now plan.now export.entry) }
{
    let slots = slots_of(instance, plan, export);
    if MOST_SLOTS < slots {
        return Err(ExportFault::TooManySlots(slots));
    }
    match export {
        Export::C(node) => named_text(alloc, instance, plan, Form::C, node, origin),
        Export::Json(node) => named_text(alloc, instance, plan, Form::Json, node, origin),
        Export::Trace => Ok(trace_text(alloc, instance, plan, origin)?),
    }
}
