//! How do workers begin, and what is left of their tasks once all have ended?

ghost use Rattle.std.specs.Prelude.{◌≡◌, ◌≤◌, ◌+◌, [], ◌∷◌, ◌++◌, IfOk, OnOk, IsPermutation, List, length, vec_len, All};
ghost use Rattle.ttp_model.specs.Rules.{IsInstance};
ghost use Rattle.search_workers.specs.Task.{root_task, Task, IsTask};
ghost use Rattle.incumbent.specs.Watch.{offers, out_count, IsOpening};
ghost use Rattle.search_workers.specs.Hand.{all_pushed, all_taken, IsPool};
ghost use Rattle.search_workers.specs.Searching.{limit_of, IsFound, IsSearchingOf, IsSomeSearch, SearchGoesOn};
ghost use Rattle.search_workers.specs.declared.aims.Aims.{Aims};
ghost use Rattle.planner.specs.Crew.{budget_of, hands_of, told, AreDealt, AreReportsOf, HasLeft, HaveEnded, IsGiven, IsJob, IsNobody};

use crate::crew::{Crew, run_all};
use crate::joining::join;
use crate::reserve::Reserve;
use incumbent::{Incumbent, Watch};
use search_workers::{
    Course, FoundPlan, Gate, Hand, Job, Options, Piece, Report, Search, Searched, Site, SolveFault,
    Task, drain, pool,
};
use std::alloc::Global;
use std::marker::{Send, Sync};
use std::sync::Wait;
use std::thread::Threads;
use ttp_model::{Instance, MemoryFault};

/// The task of the whole tree.
pub fn whole_tree(alloc: Global, instance: &Instance) -> Result<Vec<Task>, MemoryFault>
    ensures root { IfOk result (λ tasks. tasks.items ≡ root_task ∷ []) }
    ensures tasks { IfOk result (λ tasks. All (IsTask instance.now) tasks.items) }
{
    let root = Task::root(alloc, instance)?;
    let tasks = vec![in alloc; root]?;
    Ok(tasks)
}

/// Gives tasks to a hand, the last first, so that the first is worked first.
fn give<J: Searched>(hand: &mut Hand<J>, tasks: Vec<Task>) -> Result<(), MemoryFault>
    requires { All (IsTask J.instance) tasks.items }
    ensures given { OnOk result (IsGiven tasks.items hand.old hand.new) }
{
    let mut left = tasks;
    while let Some(task) = left.pop() {
        if let Err((_, fault)) = hand.push(task) {
            return Err(fault);
        }
    }
    Ok(())
}

/// A pool whose first hand has these tasks.
fn planted<J: Searched>(
    alloc: Global,
    instance: &Instance,
    workers: usize,
    tasks: Vec<Task>,
) -> Result<Vec<Hand<J>>, MemoryFault>
    requires of { instance.now ≡ J.instance }
    requires some { 1 ≤ workers }
    requires tasks { All (IsTask J.instance) tasks.items }
    ensures pool { IfOk result (λ hands. IsPool hands.items) }
    ensures pushed { IfOk result (λ hands. IsPermutation (all_pushed hands.items) tasks.items) }
    ensures taken { IfOk result (λ hands. all_taken hands.items ≡ []) }
    ensures many { IfOk result (λ hands. vec_len hands ≡ workers) }
{
    let mut hands = pool::<J>(alloc, instance, workers)?;
    let hand = &mut hands[0];
    match give(hand, tasks) {
        Ok(()) => Ok(hands),
        Err(fault) => Err(fault),
    }
}

/// Offers the delay of the plan that is known, where there is one.
fn tell(word: &Incumbent, watch: &mut Watch, first: &Option<FoundPlan>, instance: &Instance)
    requires opening { IsOpening word.now watch.old }
    requires found { IsFound instance.now first.now }
    ensures opening { IsOpening word.now watch.new }
    ensures out { out_count watch.new ≡ out_count watch.old }
    ensures offers { offers watch.new ≡ told (offers watch.old) first.now }
{
    let _nodes = instance.nodes();
    if let Some(known) = first {
        word.offer(watch, known.delay as u32);
    }
}

/// An equal part of what is left, for one of so many workers; one more where it doesn't come out even.
fn share(left: u64, workers: usize) -> u64
    ensures { result ≤ left }
{
    if workers == 0 {
        return left;
    }
    left.div_ceil(workers as u64).min(left)
}

/// One job more.
fn deal_one<J: Searched>(
    alloc: Global,
    word: &Incumbent,
    opening: &mut Watch,
    jobs: &mut Vec<Job<J>>,
    hand: Hand<J>,
    budget: u64,
    workers: usize,
) -> Result<(), MemoryFault>
    requires { IsOpening word.now opening.old }
    ensures hands { OnOk result (hands_of jobs.new.items ≡ hands_of jobs.old.items ++ hand ∷ []) }
    ensures jobs { OnOk result (All (IsJob word.now) jobs.old.items → All (IsJob word.now) jobs.new.items) }
    ensures budget { OnOk result (budget_of jobs.new.items ≡ budget_of jobs.old.items + budget) }
    ensures many { OnOk result (length jobs.new.items ≡ length jobs.old.items + 1) }
    ensures out { OnOk result (out_count opening.new ≡ out_count opening.old + 1) }
    ensures opening { OnOk result (IsOpening word.now opening.new) }
    ensures offers { OnOk result (offers opening.new ≡ offers opening.old) }
{
    let watch = word.split(alloc, opening)?;
    jobs.push(Job {
        hand,
        watch,
        budget,
        workers,
    })?;
    Ok(())
}

/// A job for each hand, in order, in a list that is empty. The budget is dealt in equal parts, one more to the first.
fn deal_all<J: Searched>(
    alloc: Global,
    word: &Incumbent,
    opening: &mut Watch,
    jobs: &mut Vec<Job<J>>,
    hands: Vec<Hand<J>>,
    budget: u64,
) -> Result<(), MemoryFault>
    requires opening { IsOpening word.now opening.old }
    requires none { jobs.old.items ≡ [] }
    ensures { OnOk result (AreDealt word.now budget opening.old opening.new hands.items jobs.new.items) }
{
    let workers = hands.len();
    let mut ahead = workers;
    let mut left = budget;
    for hand in hands {
        let budget = share(left, ahead);
        left -= budget;
        ahead = ahead.saturating_sub(1);
        deal_one(alloc, word, opening, jobs, hand, budget, workers)?;
    }
    Ok(())
}

/// A job for each hand, in order.
fn deal<J: Searched>(
    alloc: Global,
    word: &Incumbent,
    opening: &mut Watch,
    hands: Vec<Hand<J>>,
    budget: u64,
) -> Result<Vec<Job<J>>, MemoryFault>
    requires { IsOpening word.now opening.old }
    ensures { IfOk result (λ jobs. AreDealt word.now budget opening.old opening.new hands.items jobs.items) }
{
    let mut jobs = Vec::with_capacity(alloc, hands.len())?;
    deal_all(alloc, word, opening, &mut jobs, hands, budget)?;
    Ok(jobs)
}

/// The tasks that are left in the deques of a pool come behind these.
fn drain_into<J: Searched>(hands: Vec<Hand<J>>, tasks: &mut Vec<Task>) -> Result<(), MemoryFault>
    requires pool { IsPool hands.items }
    requires tasks { All (IsTask J.instance) tasks.old.items }
    ensures left { OnOk result (HasLeft hands.items tasks.old.items tasks.new.items) }
    ensures tasks { OnOk result (All (IsTask J.instance) tasks.new.items) }
{
    let mut left = drain(hands);
    'left: loop {
        match left.next() {
            Some(task) => tasks.push(task)?,
            None => break 'left,
        }
    }
    Ok(())
}

/// What is left of some tasks once all workers have ended: those that they hold, and those in their deques.
fn collected<J: Searched>(word: Incumbent, crew: Crew<J>) -> Result<Search, MemoryFault>
    requires ended { (aims : Aims) × (given : List Task) × HaveEnded J.instance aims word given crew }
    requires instance { IsInstance J.instance }
    ensures searching { IfOk result (λ s. (aims : Aims) (given : List Task) → HaveEnded J.instance aims word given crew
        → IsSearchingOf J.instance aims given s.pieces.items s.tasks.items s.best) }
    ensures same { IfOk result (λ s. s.pieces ≡ crew.pieces) }
    ensures best { IfOk result (λ s. s.best ≡ crew.best) }
{
    let Crew {
        hands,
        watch,
        pieces,
        room,
        tasks,
        spared,
        best,
    } = crew;
    word.close(watch);
    let mut search = Search {
        pieces,
        room,
        tasks,
        spared,
        best,
    };
    drain_into(hands, &mut search.tasks)?;
    Ok(search)
}

/// Lets workers do jobs in threads of their own: what they report, in order. Memory that is kept meanwhile is given back once they have ended.
fn reported<J: Searched + Send + Sync, G: Gate + Sync, R: Threads + Wait>(
    rt: &R,
    site: &Site<'_, G>,
    word: &Incumbent,
    course: Course,
    jobs: Vec<Job<J>>,
) -> Result<Vec<Report<J>>, SolveFault>
    requires of { site.now.instance.now ≡ J.instance }
    requires jobs { All (IsJob word.now) jobs.items }
    ensures reports { IfOk result (λ all. AreReportsOf J.instance course.aims jobs.items all.items) }
{
    let reserve = Reserve::begin(site.alloc, site.instance)?;
    let reports = run_all(rt, site, word, course, jobs);
    reserve.give_back();
    reports
}

/// Lets workers work tasks, and adds what they come to to a crew of nobody.
fn crewed<J: Searched + Send + Sync, G: Gate + Sync, R: Threads + Wait>(
    rt: &R,
    site: &Site<'_, G>,
    word: &Incumbent,
    options: Options,
    course: Course,
    tasks: Vec<Task>,
    crew: &mut Crew<J>,
) -> Result<(), SolveFault>
    requires of { site.now.instance.now ≡ J.instance }
    requires instance { IsInstance J.instance }
    requires tasks { All (IsTask J.instance) tasks.items }
    requires nobody { IsNobody J.instance word.now crew.old }
    ensures ended { OnOk result (HaveEnded J.instance course.aims word.now tasks.items crew.new) }
    ensures within { OnOk result (length crew.new.pieces.items ≤ options.budget) }
    ensures no_later { OnOk result (limit_of J.instance crew.new.best ≤ limit_of J.instance crew.old.best) }
{
    let workers = options.crew() as usize;
    let hands = planted::<J>(site.alloc, site.instance, workers, tasks)?;
    let jobs = deal(site.alloc, word, &mut crew.watch, hands, options.budget)?;
    let reports = reported(rt, site, word, course, jobs)?;
    crew.add_all(word, reports)?;
    Ok(())
}

/// The word, and a crew of nobody. The plan that is known is told.
fn begun<J: Searched>(
    alloc: Global,
    instance: &Instance,
    workers: usize,
    first: Option<FoundPlan>,
) -> Result<(Incumbent, Crew<J>), MemoryFault>
    requires { IsFound instance.now first }
    ensures nobody { IfOk result (λ r. IsNobody instance.now r.0 r.1) }
    ensures best { IfOk result (λ r. r.1.best ≡ first) }
{
    let (word, opening) = Incumbent::begin(alloc, instance.past_horizon())?;
    let mut opening = opening;
    tell(&word, &mut opening, &first, instance);
    let crew = Crew::<J>::begin(alloc, workers, opening, first)?;
    Ok((word, crew))
}

/// What workers make of tasks in threads of their own, and what they leave of them.
pub fn searched<J: Searched + Send + Sync, G: Gate + Sync, R: Threads + Wait>(
    rt: &R,
    site: &Site<'_, G>,
    options: Options,
    course: Course,
    tasks: Vec<Task>,
    first: Option<FoundPlan>,
) -> Result<Search, SolveFault>
    requires of { site.now.instance.now ≡ J.instance }
    requires tasks { All (IsTask site.now.instance.now) tasks.items }
    requires found { IsFound site.now.instance.now first }
    ensures searching { IfOk result (λ s. IsSearchingOf site.now.instance.now course.aims tasks.items s.pieces.items s.tasks.items s.best) }
    ensures within { IfOk result (λ s. length s.pieces.items ≤ options.budget) }
    ensures no_later { IfOk result (λ s. limit_of site.now.instance.now s.best ≤ limit_of site.now.instance.now first) }
{
    let alloc = site.alloc;
    let instance = site.instance;
    let _nodes = instance.nodes();
    let (word, crew) = begun::<J>(alloc, instance, options.crew() as usize, first)?;
    let mut crew = crew;
    crewed(rt, site, &word, options, course, tasks, &mut crew)?;
    let search = collected(word, crew)?;
    Ok(search)
}

/// Room for as many pieces.
fn room_beside(alloc: Global, pieces: &[Piece]) -> Result<Vec<Piece>, MemoryFault> {
    let room = Vec::with_capacity(alloc, pieces.len())?;
    Ok(room)
}

/// What was made of a search's open tasks comes in front of what was worked before them.
fn worked_on(pieces: Vec<Piece>, made: Search) -> Result<Search, MemoryFault>
    ensures pieces { IfOk result (λ s. s.pieces.items ≡ made.pieces.items ++ pieces.items) }
    ensures tasks { IfOk result (λ s. s.tasks.items ≡ made.tasks.items) }
    ensures best { IfOk result (λ s. s.best ≡ made.best) }
{
    let mut search = made;
    join(&mut search.pieces, pieces)?;
    Ok(search)
}

/// Lets workers work what is open of a search, in threads of their own. Memory for what was worked before is kept meanwhile, so that it can be put
/// behind what they make also where theirs was refused.
pub fn pooled<J: Searched + Send + Sync, G: Gate + Sync, R: Threads + Wait>(
    rt: &R,
    site: &Site<'_, G>,
    options: Options,
    course: Course,
    search: Search,
) -> Result<Search, SolveFault>
    requires of { site.now.instance.now ≡ J.instance }
    requires searching { IsSomeSearch site.now.instance.now course.aims search }
    ensures searching { IfOk result (SearchGoesOn site.now.instance.now course.aims search) }
    ensures within { IfOk result (λ s. length s.pieces.items ≤ options.budget + length search.pieces.items) }
    ensures no_later { IfOk result (λ s. limit_of site.now.instance.now s.best ≤ limit_of site.now.instance.now search.best) }
{
    let Search {
        pieces,
        tasks,
        best,
        ..
    } = search;
    let kept = room_beside(site.alloc, pieces.as_slice())?;
    let made = searched::<J, G, R>(rt, site, options, course, tasks, best)?;
    drop(kept);
    let search = worked_on(pieces, made)?;
    Ok(search)
}
