//! What does a worker do until it ends?

ghost use Rattle.std.specs.Prelude.{◌≡◌, ◌≤◌, [], All, vec_len};
ghost use Rattle.incumbent.specs.Watch.{IsOther, IsSameWatch};
ghost use Rattle.steal_pool.specs.Hand.{IsSameHand};
ghost use Rattle.search_workers.specs.declared.report.Ending.TheVariants as ending;
ghost use Rattle.search_workers.specs.Goals.{goals_of, AreGoals};
ghost use Rattle.search_workers.specs.Best.{OffersBest};
ghost use Rattle.branch_tree.specs.Workbench.{IsWorkbenchOf};
ghost use Rattle.search_workers.specs.Report.{HasAccount, IsSpared, AreSpared};
ghost use Rattle.search_workers.specs.Run.{GoesOn};
ghost use Rattle.used_decisions.specs.Manners.{usual_manner};
ghost use Rattle.used_decisions.specs.declared.manner.Manner.TheVariants.{Plain};

use crate::aims::Aims;
use crate::gate::Gate;
use crate::job::Job;
use crate::report::{Ending, Report, Rest};
use crate::run::{Run, Sweep};
use crate::site::{Course, Site};
use branch_tree::Workbench;
use crossbeam_utils::Backoff;
use incumbent::Incumbent;
use steal_pool::Searched;
use used_decisions::{Manner, Needs, usual_manner};

/// How many sweeps one after another find no task before a worker ends.
const SWEEPS: u64 = 1000;

/// How many tasks a worker leaves at most since the last one that it worked: far more than stand side by side above one leaf.
const MOST_SPARED: u64 = 1_000_000;

/// How often a worker spins between two of them: in all some ten milliseconds, longer than the first subtree takes, so
/// that no worker ends before there are tasks for all. It doesn't give the processor up, since on a busy machine each
/// time would take longer than that.
const SPINS: u32 = 4;

/// Waits between two sweeps.
fn wait(backoff: &Backoff) {
    for _turn in 0..SPINS {
        backoff.spin();
    }
}

impl<J: Searched> Run<J> {
    /// What is reported of the run.
    fn report(self, rest: Rest, worked: u64, ending: Ending) -> Report<J>
        ensures hand { result.hand ≡ self.hand }
        ensures watch { result.watch ≡ self.watch }
        ensures pieces { result.pieces ≡ self.pieces }
        ensures best { result.best ≡ self.best }
        ensures rest { result.rest ≡ rest }
        ensures spared { result.spared ≡ self.spared }
        ensures worked { result.worked ≡ worked }
        ensures ending { result.ending ≡ ending }
    {
        Report {
            hand: self.hand,
            watch: self.watch,
            pieces: self.pieces,
            room: self.room,
            best: self.best,
            rest,
            spared: self.spared,
            worked,
            ending,
        }
    }

    /// Takes turns until `budget` tasks are worked, memory is refused, none was found for long, a million were left one after
    /// another, or the gate says so: what is in hand then, and why it ended.
    fn turns<'a, G: Gate>(
        &mut self,
        site: &Site<'a, G>,
        word: &Incumbent,
        bench: &mut Workbench<'a>,
        needs: &mut Needs<'a>,
        budget: u64,
        course: Course,
    ) -> (Rest, Ending)
        requires of { site.now.instance.now ≡ J.instance }
        requires watch { IsOther word.now self.old.watch }
        requires bench { IsWorkbenchOf site.now.instance.now bench.old }
        requires within { vec_len self.old.pieces ≤ budget }
        requires spared { AreSpared site.now.instance.now self.old.pieces.items self.old.spared.items needs.old }
        ensures spared { AreSpared site.now.instance.now self.new.pieces.items self.new.spared.items needs.new }
        ensures goes_on { GoesOn site.now.instance.now course.aims self.old self.new result.0 }
        ensures plain { course.manner ≡ Plain → self.new.spared.items ≡ self.old.spared.items }
        ensures within { vec_len self.new.pieces ≤ budget }
        ensures ending { result.1 ≡ ending.Budget → vec_len self.new.pieces ≡ budget }
        ensures called_off { result.1 ≡ ending.CalledOff → G.ends site.now.gate.now }
    {
        let (mut idle, mut spared) = (0, 0);
        let backoff = Backoff::new();
        while (self.pieces.len() as u64) < budget && idle < SWEEPS && spared < MOST_SPARED {
            if !site.gate.goes_on(self.hand.number()) {
                return (Rest::Nothing, Ending::CalledOff);
            }
            if site.gate.is_late() {
                return (Rest::Nothing, Ending::Late);
            }
            match self.turn(site, word, bench, needs, course) {
                Sweep::Idle => {
                    idle += 1;
                    wait(&backoff);
                }
                Sweep::Worked => {
                    idle = 0;
                    spared = 0;
                    backoff.reset();
                }
                Sweep::Spared => {
                    spared += 1;
                    idle = 0;
                }
                Sweep::Ended(rest) => return (rest, Ending::Memory),
            }
        }
        let ending = if (self.pieces.len() as u64) < budget {
            Ending::Idle
        } else {
            Ending::Budget
        };
        (Rest::Nothing, ending)
    }
}

/// Takes tasks of a pool and works them as `run_worker` does, in this manner and with these aims: each at the goal of the best delay that is known by
/// then.
pub fn run_worker_in<J: Searched, G: Gate>(
    site: &Site<'_, G>,
    word: &Incumbent,
    course: Course,
    job: Job<J>,
) -> Report<J>
    requires of { site.now.instance.now ≡ J.instance }
    requires watch { IsOther word.now job.watch }
    ensures hand { IsSameHand job.hand result.hand }
    ensures watch { IsSameWatch job.watch result.watch }
    ensures account { HasAccount site.now.instance.now job.hand result.hand result.pieces.items result.spared.items result.rest }
    ensures spared { All (IsSpared site.now.instance.now result.pieces.items) result.spared.items }
    ensures plain { course.manner ≡ Plain → result.spared.items ≡ [] }
    ensures goals { AreGoals site.now.instance.now course.aims job.watch result.watch (goals_of result.pieces.items) }
    ensures best { OffersBest site.now.instance.now job.watch result.watch result.best }
    ensures worked { result.worked ≡ vec_len result.pieces }
    ensures within { result.worked ≤ job.budget }
    ensures ending { result.ending ≡ ending.Budget → result.worked ≡ job.budget }
    ensures called_off { result.ending ≡ ending.CalledOff → G.ends site.now.gate.now }
{
    let Job {
        hand,
        watch,
        budget,
        workers,
    } = job;
    let alloc = site.alloc;
    site.gate.start(hand.number());
    let mut run = Run {
        hand,
        watch,
        pieces: Vec::new(alloc),
        spared: Vec::new(alloc),
        room: Vec::new(alloc),
        workers,
        best: None,
    };
    let mut bench = Workbench::new();
    let mut needs = Needs::new();
    let (rest, ending) = run.turns(site, word, &mut bench, &mut needs, budget, course);
    drop(bench);
    drop(needs);
    let worked = run.pieces.len() as u64;
    run.report(rest, worked, ending)
}

/// Takes tasks of a pool and works them, each at the best delay that is known by then, until `budget` of them are worked,
/// memory is refused, none was found for long, a million were left one after another, or the gate says that it doesn't go on or is late. A task that stands below a branch which another
/// child was seen to prove is left, unless the root leaves at most 32 to choose: then each is worked.
/// It never waits for another worker. Where memory is refused, the lists that
/// it reports have room for what so many workers come to that make no more than it did.
pub fn run_worker<J: Searched, G: Gate>(
    site: &Site<'_, G>,
    word: &Incumbent,
    job: Job<J>,
) -> Report<J>
    requires of { site.now.instance.now ≡ J.instance }
    requires watch { IsOther word.now job.watch }
    ensures hand { IsSameHand job.hand result.hand }
    ensures watch { IsSameWatch job.watch result.watch }
    ensures account { HasAccount site.now.instance.now job.hand result.hand result.pieces.items result.spared.items result.rest }
    ensures spared { All (IsSpared site.now.instance.now result.pieces.items) result.spared.items }
    ensures plain { usual_manner site.now.instance.now ≡ Plain → result.spared.items ≡ [] }
    ensures goals { AreGoals site.now.instance.now (record { gap = 0; floor = 0 }) job.watch result.watch (goals_of result.pieces.items) }
    ensures best { OffersBest site.now.instance.now job.watch result.watch result.best }
    ensures worked { result.worked ≡ vec_len result.pieces }
    ensures within { result.worked ≤ job.budget }
    ensures ending { result.ending ≡ ending.Budget → result.worked ≡ job.budget }
    ensures called_off { result.ending ≡ ending.CalledOff → G.ends site.now.gate.now }
{
    let course = Course {
        manner: usual_manner(site.alloc, site.instance).unwrap_or(Manner::Plain),
        aims: Aims::all(),
    };
    run_worker_in(site, word, course, job)
}
