//! How does a search go, and at which goals does it work that may end before it knows a shortest plan?

ghost use Rattle.std.specs.Prelude.{◌≡◌, IfOk};
ghost use Rattle.planner.specs.Searched.{AreAims, IsFloor};

use crate::closing::{close, lowered};
use search_workers::{Agenda, Aims, Course, Task, usual_manner};
use std::alloc::Global;
use ttp_model::{Instance, MemoryFault};

/// The greatest goal at which propagation closes the whole tree, in ticks, at most one past the horizon.
fn floor(alloc: Global, instance: &Instance) -> Result<u32, MemoryFault>
    ensures { IfOk result (IsFloor instance.now) }
{
    let _nodes = instance.nodes();
    let top = instance.past_horizon();
    let root = Task::root(alloc, instance)?;
    let mut agenda = Agenda::of(alloc, instance)?;
    let piece = close(alloc, &mut agenda, instance, root, top, &[]);
    drop(agenda);
    Ok(lowered(&piece?, top))
}

/// The aims of a search with this gap. Its floor is what propagation knows of the whole tree; without a gap nothing is asked for it.
fn aims_of(alloc: Global, instance: &Instance, gap: u32) -> Result<Aims, MemoryFault>
    ensures gap { IfOk result (λ aims. aims.gap ≡ gap) }
    ensures aims { IfOk result (AreAims instance.now) }
{
    if gap == 0 {
        return Ok(Aims::all());
    }
    let floor = floor(alloc, instance)?;
    Ok(Aims { gap, floor })
}

/// How a search with this gap goes: in the usual manner of its instance, with the aims of the gap.
pub fn course_of(alloc: Global, instance: &Instance, gap: u32) -> Result<Course, MemoryFault>
    ensures gap { IfOk result (λ course. course.aims.gap ≡ gap) }
    ensures aims { IfOk result (λ course. AreAims instance.now course.aims) }
{
    let manner = usual_manner(alloc, instance)?;
    let aims = aims_of(alloc, instance, gap)?;
    Ok(Course { manner, aims })
}
