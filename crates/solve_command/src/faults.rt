//! As what is it told that a search has no answer?

ghost use Rattle.std.specs.Prelude.{◌≡◌};
ghost use Rattle.solve_command.specs.Faults.{told_as};

use command_streams::SearchFault;
use planner::SolveFault;

/// The fault that a search's own is told as.
pub fn told_as(fault: SolveFault) -> SearchFault
    ensures { result ≡ told_as fault }
{
    match fault {
        SolveFault::Memory => SearchFault::Memory,
        SolveFault::Thread => SearchFault::Thread,
    }
}
