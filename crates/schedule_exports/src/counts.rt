//! How many slots does a text tell?

ghost use Rattle.std.specs.Prelude.{◌≡◌, ◌≤◌};
ghost use Rattle.ttp_model.specs.Plans.{IsValid};
ghost use Rattle.ttp_model.specs.declared.limits.TheConstants.{MOST_NODES};
ghost use Rattle.schedule_exports.specs.Exports.{slots_of, times_told};

use crate::export::Export;
use tt_layout::cycle_rounds;
use ttp_model::{Instance, Plan};

/// How many slots a text tells, at most.
pub const MOST_SLOTS: u64 = 100_000;

/// How many slots a text tells: those of the cycle once for each node that is loaded, and in a trace once for each channel.
pub fn slots_of(instance: &Instance, plan: &Plan, export: Export) -> u64
    requires { IsValid instance.now plan.now }
    ensures { result ≡ slots_of instance.now plan.now export.entry }
{
    let nodes = instance.nodes().len() as u64;
    let slots = u64::from(cycle_rounds(instance, plan)) * nodes;
    slots * u64::from(times_told(instance, export))
}

/// How often each slot of the cycle is told.
fn times_told(instance: &Instance, export: Export) -> u32
    ensures value { result ≡ times_told instance.now export.entry }
    ensures few { result ≤ MOST_NODES }
{
    let nodes = instance.nodes().len() as u32;
    match export {
        Export::C(None) | Export::Json(None) => nodes,
        Export::C(Some(_)) | Export::Json(Some(_)) => 1,
        Export::Trace => instance.cluster().channels,
    }
}
