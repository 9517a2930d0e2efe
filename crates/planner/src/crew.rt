//! Workers in threads of one scope, and what they come to together.

ghost use Rattle.std.specs.Prelude.{◌≡◌, ◌≤◌, ◌+◌, ℕ, List, [], ◌∷◌, ◌++◌, IfOk, OnOk, IfErr, length, vec_len, vec_capacity, All};
ghost use Rattle.ttp_model.specs.Instance.{Instance};
ghost use Rattle.ttp_model.specs.Rules.{IsInstance};
ghost use Rattle.incumbent.specs.Watch.{IsOpening, IsWatchOf};
ghost use Rattle.search_workers.specs.hand.Hand.{Hand};
ghost use Rattle.search_workers.specs.declared.aims.Aims.{Aims};
ghost use Rattle.search_workers.specs.declared.job.Job.{Job};
ghost use Rattle.search_workers.specs.declared.outcome.SolveFault.TheVariants as fault;
ghost use Rattle.search_workers.specs.Searching.{IsBetter, IsFound};
ghost use Rattle.planner.specs.Crew.{IsNoLater, IsReportOfJob, AreReportsOf, IsJob, hands_of, budget_of, tasks_in, Gathers};

use crate::joining::{keep_roomier, take_in};
use crate::muster::Muster;
use certificate::Node;
use incumbent::{Incumbent, Watch};
use search_workers::{
    Aims, Course, FoundPlan, Gate, Hand, Job, Piece, Report, Rest, Searched, Site, SolveFault,
    Task, better, run_worker_in,
};
use std::alloc::Global;
use std::marker::{Send, Sync};
use std::snapshot::Snapshot;
use std::sync::Wait;
use std::thread::{Promise, Scope, Threads};
use std::{mem, thread};
use ttp_model::MemoryFault;

/// The promise that the report is one of this job with these aims.
#[derive(Drop)]
struct ReportOf<J: Searched> {
    job: Snapshot<Job<J>>,
    aims: Aims,
}

impl<J: Searched> Promise<Report<J>> for ReportOf<J> {
    ghost kept_by = { λ p r. IsReportOfJob J.instance p.aims p.job.value r };
}

/// Works a job.
fn done<J: Searched, G: Gate>(
    site: &Site<'_, G>,
    word: &Incumbent,
    course: Course,
    job: Job<J>,
) -> Report<J>
    requires of { site.now.instance.now ≡ J.instance }
    requires job { IsJob word.now job }
    ensures { IsReportOfJob J.instance course.aims job result }
{
    run_worker_in(site, word, course, job)
}

/// Of two plans that may be known the better takes the place of the first.
fn keep_better(best: &mut Option<FoundPlan>, other: Option<FoundPlan>)
    ensures { (i : Instance) → IsInstance i → IsFound i best.old → IsFound i other → IsBetter i best.old other best.new }
{
    *best = better(mem::replace(best, None), other);
}

/// What some workers came to: their hands, the opening watch with theirs joined, what they worked, room for a certificate's
/// nodes, the tasks that they hold, and the best plan that they know.
#[derive(Drop)]
pub struct Crew<J: Searched> {
    pub hands: Vec<Hand<J>>,
    pub watch: Watch,
    pub pieces: Vec<Piece>,
    pub room: Vec<Node>,
    pub tasks: Vec<Task>,
    /// How many of them needn't be worked, as far as was seen.
    pub spared: usize,
    pub best: Option<FoundPlan>,
}

/// Adds what a worker that ended didn't work: what it left, and what it had in hand.
fn hold(tasks: &mut Vec<Task>, spared: Vec<Task>, rest: Rest) -> Result<(), MemoryFault>
    ensures { OnOk result (tasks.new.items ≡ tasks.old.items ++ tasks_in spared.items rest) }
{
    let mut spared = spared;
    tasks.append(&mut spared)?;
    match rest {
        Rest::Nothing => Ok(()),
        Rest::One(task) => {
            tasks.push(task)?;
            Ok(())
        }
        Rest::Children(children) => {
            let mut children = children;
            tasks.append(&mut children)?;
            Ok(())
        }
    }
}

/// One hand more.
fn push_hand<J: Searched>(hands: &mut Vec<Hand<J>>, hand: Hand<J>) -> Result<(), MemoryFault>
    ensures { OnOk result (hands.new.items ≡ hands.old.items ++ hand ∷ []) }
{
    hands.push(hand)?;
    Ok(())
}

impl<J: Searched> Crew<J> {
    /// Nobody yet, with room for so many hands.
    pub fn begin(
        alloc: Global,
        workers: usize,
        watch: Watch,
        best: Option<FoundPlan>,
    ) -> Result<Self, MemoryFault>
        ensures hands { IfOk result (λ crew. crew.hands.items ≡ []) }
        ensures watch { IfOk result (λ crew. crew.watch ≡ watch) }
        ensures pieces { IfOk result (λ crew. crew.pieces.items ≡ []) }
        ensures tasks { IfOk result (λ crew. crew.tasks.items ≡ []) }
        ensures best { IfOk result (λ crew. crew.best ≡ best) }
    {
        Ok(Crew {
            hands: Vec::with_capacity(alloc, workers)?,
            watch,
            pieces: Vec::new(alloc),
            room: Vec::new(alloc),
            tasks: Vec::new(alloc),
            spared: 0,
            best,
        })
    }

    /// Takes in what a worker reports. Of the two lists of pieces that with more room takes in the other.
    fn add(&mut self, word: &Incumbent, report: Report<J>) -> Result<(), MemoryFault>
        requires opening { IsOpening word.now self.old.watch }
        requires watch { IsWatchOf word.now report.watch }
        ensures gathers { OnOk result ((aims : Aims) (count : ℕ) (begun : List (Hand J)) (job : Job J) → IsInstance J.instance
            → Gathers J.instance aims word.now count begun self.old → IsJob word.now job → IsReportOfJob J.instance aims job report
            → Gathers J.instance aims word.now count (begun ++ job.hand ∷ []) self.new) }
        ensures opening { OnOk result (IsOpening word.now self.new.watch) }
        ensures more { OnOk result (length self.new.pieces.items ≡ length self.old.pieces.items + length report.pieces.items) }
        ensures no_later { OnOk result ((aims : Aims) (job : Job J) → IsInstance J.instance → IsFound J.instance self.old.best → IsReportOfJob J.instance aims job report
            → IsNoLater J.instance self.old.best self.new.best) }
    {
        let Report {
            hand,
            watch,
            pieces,
            room,
            best,
            rest,
            spared,
            ..
        } = report;
        word.join(&mut self.watch, watch);
        keep_roomier(&mut self.room, room);
        self.spared = self.spared.saturating_add(spared.len());
        keep_better(&mut self.best, best);
        let pushed = push_hand(&mut self.hands, hand);
        let joined = take_in(&mut self.pieces, pieces);
        let held = hold(&mut self.tasks, spared, rest);
        pushed?;
        joined?;
        held?;
        Ok(())
    }

    /// Takes in what workers report, in order.
    pub fn add_all(&mut self, word: &Incumbent, reports: Vec<Report<J>>) -> Result<(), MemoryFault>
        requires opening { IsOpening word.now self.old.watch }
        requires watches { All (λ report. IsWatchOf word.now report.watch) reports.items }
        ensures gathers { OnOk result ((aims : Aims) (count : ℕ) (jobs : List (Job J)) → IsInstance J.instance
            → All (IsJob word.now) jobs → AreReportsOf J.instance aims jobs reports.items
            → Gathers J.instance aims word.now count [] self.old → Gathers J.instance aims word.now count (hands_of jobs) self.new) }
        ensures within { OnOk result ((aims : Aims) (jobs : List (Job J)) → AreReportsOf J.instance aims jobs reports.items
            → length self.new.pieces.items ≤ length self.old.pieces.items + budget_of jobs) }
        ensures no_later { OnOk result ((aims : Aims) (jobs : List (Job J)) → IsInstance J.instance → IsFound J.instance self.old.best
            → AreReportsOf J.instance aims jobs reports.items → IsNoLater J.instance self.old.best self.new.best) }
    {
        for report in reports {
            self.add(word, report)?;
        }
        Ok(())
    }
}

/// Starts a thread for the last job, does the same for the others, and joins it: their reports, in the order of the jobs, come
/// into a list that has room for all. Where a thread can't be started, those that run are called off.
fn start_all<'s, E, J: Searched + Send + Sync + 's, G: Gate + Sync, R: Threads>(
    rt: &R,
    scope: &'s Scope<'s, E>,
    site: &'s Site<'s, Muster<'s, G>>,
    word: &'s Incumbent,
    course: Course,
    jobs: &mut Vec<Job<J>>,
    reports: &mut Vec<Report<J>>,
) -> Result<(), SolveFault>
    requires of { site.now.instance.now ≡ J.instance }
    requires jobs { All (IsJob word.now) jobs.old.items }
    requires none { reports.old.items ≡ [] }
    requires room { vec_len jobs.old ≤ vec_capacity reports.old }
    ensures reports { OnOk result (AreReportsOf J.instance course.aims jobs.old.items reports.new.items) }
    ensures many { vec_len reports.new ≤ vec_len jobs.old }
    ensures room { vec_capacity reports.new ≡ vec_capacity reports.old }
    ensures err { IfErr result (λ e. e ≡ fault.Thread) }
{
    let Some(job) = jobs.pop() else {
        return Ok(());
    };
    let promise = ReportOf {
        job: Snapshot::of(&job),
        aims: course.aims,
    };
    let Ok(child) = scope.spawn_with(
        promise,
        move || -> Report<J>
            requires { (site.now.instance.now ≡ J.instance) × IsJob word.now job }
            ensures { IsReportOfJob J.instance course.aims job result }
        { done(site, word, course, job) },
    ) else {
        site.gate.call_off();
        return Err(SolveFault::Thread);
    };
    let others = start_all(rt, scope, site, word, course, jobs, reports);
    let report = child.join(rt);
    reports.push_reserved(report);
    others
}

/// Starts a thread for each job and joins them: what they report, in order, in a list that has room for all.
fn run_in<'s, E, J: Searched + Send + Sync + 's, G: Gate + Sync, R: Threads>(
    rt: &R,
    scope: &'s Scope<'s, E>,
    site: &'s Site<'s, Muster<'s, G>>,
    word: &'s Incumbent,
    course: Course,
    mut jobs: Vec<Job<J>>,
    mut reports: Vec<Report<J>>,
) -> Result<Vec<Report<J>>, SolveFault>
    requires of { site.now.instance.now ≡ J.instance }
    requires jobs { All (IsJob word.now) jobs.items }
    requires none { reports.items ≡ [] }
    requires room { vec_len jobs ≤ vec_capacity reports }
    ensures reports { IfOk result (λ all. AreReportsOf J.instance course.aims jobs.items all.items) }
{
    let ended = start_all(rt, scope, site, word, course, &mut jobs, &mut reports);
    drop(jobs);
    ended?;
    Ok(reports)
}

/// A thread for each job, and what they report, in order; where one can't be started, nothing, once those that run have ended, each at
/// its next turn. The list of reports is made before a thread is started: as they end no memory is taken.
pub fn run_all<J: Searched + Send + Sync, G: Gate + Sync, R: Threads + Wait>(
    rt: &R,
    site: &Site<'_, G>,
    word: &Incumbent,
    course: Course,
    jobs: Vec<Job<J>>,
) -> Result<Vec<Report<J>>, SolveFault>
    requires of { site.now.instance.now ≡ J.instance }
    requires jobs { All (IsJob word.now) jobs.items }
    ensures reports { IfOk result (λ all. AreReportsOf J.instance course.aims jobs.items all.items) }
{
    let Ok(reports) = Vec::with_capacity(site.alloc, jobs.len()) else {
        return Err(SolveFault::Memory);
    };
    let muster = Muster::beside(site.gate);
    let mustered = Site {
        alloc: site.alloc,
        instance: site.instance,
        gate: &muster,
    };
    let site = &mustered;
    thread::scope(
        thread::scope_env(),
        rt,
        move |scope| -> Result<Vec<Report<J>>, SolveFault>
            requires { (site.now.instance.now ≡ J.instance) × All (IsJob word.now) jobs.items × (reports.items ≡ []) × (vec_len jobs ≤ vec_capacity reports) }
            ensures reports { IfOk result (λ all. AreReportsOf J.instance course.aims jobs.items all.items) }
        { run_in(rt, scope, site, word, course, jobs, reports) },
    )
}
