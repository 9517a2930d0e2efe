//! What a worker reports.

ghost use Rattle.std.specs.Prelude.{◌≡◌};
ghost use Rattle.incumbent.specs.Watch.{IsOther};
ghost use Rattle.search_workers.specs.Report.{HasAccount};
ghost use Rattle.search_workers.specs.declared.report.Ending.TheVariants as ending;

use incumbent::Incumbent;
use search_workers::{FreeGate, Job, Report, Site, run_worker};
use std::alloc::Global;
use steal_pool::Searched;
use ttp_model::Instance;

/// Each task that it took was worked, or is one of those that it says it spared or still holds; and each child that its branches
/// have was pushed or is held too.
pub fn no_task_is_dropped<J: Searched>(
    alloc: Global,
    instance: &Instance,
    word: &Incumbent,
    job: Job<J>,
) -> Report<J>
    requires of { instance.now ≡ J.instance }
    requires watch { IsOther word.now job.watch }
    ensures { HasAccount instance.now job.hand result.hand result.pieces.items result.spared.items result.rest }
{
    let site = Site {
        alloc,
        instance,
        gate: &FreeGate,
    };
    run_worker(&site, word, job)
}

/// Where it says that the budget is spent, it worked so many subtrees.
pub fn spent_budget_was_worked<J: Searched>(
    alloc: Global,
    instance: &Instance,
    word: &Incumbent,
    job: Job<J>,
) -> Report<J>
    requires of { instance.now ≡ J.instance }
    requires watch { IsOther word.now job.watch }
    ensures { result.ending ≡ ending.Budget → result.worked ≡ job.budget }
{
    let site = Site {
        alloc,
        instance,
        gate: &FreeGate,
    };
    run_worker(&site, word, job)
}
