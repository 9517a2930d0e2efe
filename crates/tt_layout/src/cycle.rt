//! How many rounds does the cycle of a plan have?

ghost use Rattle.std.specs.Prelude.{◌≡◌, ◌≤◌};
ghost use Rattle.ttp_model.specs.Plans.{IsValid};
ghost use Rattle.tt_layout.specs.Cycle.{cycle_rounds};

use crate::layout::Layout;
use ttp_model::{Instance, MOST_TICKS, Plan, delay};

/// How many rounds the cycle of a valid plan has, which then repeats: those that begin before its
/// delay. Takes no memory; a pass over the nodes and one over the processes.
pub fn cycle_rounds(instance: &Instance, plan: &Plan) -> u32
    requires { IsValid instance.now plan.now }
    ensures value { result ≡ cycle_rounds instance.now plan.now }
    ensures bound { result ≤ MOST_TICKS }
{
    let layout = Layout::of(instance, plan.order.as_slice(), plan.caps.as_slice());
    delay(instance, plan).div_ceil(layout.round_length()) as u32
}
