//! By how much longer may some processes run, all at once, and which plan allows it?

ghost use Rattle.std.specs.Prelude.{◌≤◌, IfOk, length};
ghost use Rattle.instance_variants.specs.Ends.{AreThere};
ghost use Rattle.plan_questions.specs.MarginAnswers.{IsMargin};

use super::answer::Margin;
use super::margin_cut::MarginCut;
use crate::asking::Asking;
use crate::cuts::{LeastNumber, least_number};
use instance_variants::{Scale, first_without_room, window_margin};
use planner::{Gate, SolveFault};
use std::alloc::Global;
use std::marker::Sync;
use std::sync::Wait;
use std::thread::Threads;
use ttp_model::Instance;

/// By how much longer these processes may run, all at once, and a plan that stays valid then. Searches first for any plan: what it has is its own
/// margin, and there is room for so much in the narrowest window. Then the search half way between tells whether some plan has more, and so on.
/// Each search ends at its first plan, and has the whole budget; where one is stopped before that, less is answered.
pub fn greatest_margin<R: Threads + Wait + Sync, G: Gate + Sync>(
    rt: &R,
    asking: &Asking<'_, G>,
    instance: &Instance,
    processes: &[u32],
    scale: Scale,
) -> Result<Margin, SolveFault>
    requires there { AreThere instance.now processes.now }
    requires some { 1 ≤ length processes.now }
    ensures { IfOk result (IsMargin instance.now processes.now scale asking.now.options) }
{
    let _nodes = instance.nodes();
    let most = window_margin(instance, processes, scale);
    let cut = MarginCut {
        instance,
        processes,
        scale,
        most,
    };
    let least = least_number(rt, asking, &cut)?;
    match least {
        LeastNumber::Exact {
            number,
            plan,
            below,
        } => match below {
            Some(cert) => Ok(Margin::Greatest {
                margin: most - number,
                plan,
                cert,
            }),
            None => Ok(Margin::Window {
                margin: most,
                process: first_without_room(instance, processes, scale, most + 1),
                plan,
            }),
        },
        LeastNumber::Apart {
            low,
            high,
            plan,
            ..
        } => Ok(Margin::Between {
            low: most - high,
            high: most - low,
            plan,
        }),
        LeastNumber::Open { .. } => Ok(Margin::Unknown { high: most }),
        LeastNumber::Never { .. } => Ok(Margin::Never),
    }
}
