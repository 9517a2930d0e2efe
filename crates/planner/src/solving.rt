//! The shortest plan of an instance, or how short it can be at best.

ghost use Rattle.std.specs.Prelude.{◌≡◌, ◌≤◌, ◌+◌, IfOk, IfErr, IfSome, All, length, []};
ghost use Rattle.ttp_model.specs.Delays.{delay};
ghost use Rattle.ttp_model.specs.Instance.{Instance};
ghost use Rattle.ttp_model.specs.Plans.{IsValid};
ghost use Rattle.search_workers.specs.Account.{IsWholeTree};
ghost use Rattle.search_workers.specs.Task.{IsTask};
ghost use Rattle.search_workers.specs.Gathering.{AreShallow, HaveGoals, IsGathered};
ghost use Rattle.search_workers.specs.declared.outcome.SolveFault.TheVariants as fault;
ghost use Rattle.search_workers.specs.declared.outcome.Why.TheVariants as causes;
ghost use Rattle.planner.specs.Answers.{best_of, IsCalledOff, IsOutcome, Shows};
ghost use Rattle.planner.specs.Closing.{AreClosedBehind, IsClosedTree};
ghost use Rattle.planner.specs.Crew.{workers_part};
ghost use Rattle.planner.specs.Searched.{AreAims};
ghost use Rattle.search_workers.specs.Searching.{aim_of, limit_of, IsFound, IsWorkedOut, IsSearching};

use crate::aiming::course_of;
use crate::closing::close_all;
use crate::collecting::{searched, whole_tree};
use crate::end_tree::ended;
use crate::joining::join;
use crate::leaner::{lean_proof, leaner};
use crate::reserve::Reserve;
use certificate::{Cert, Node, Version};
use good_plan::good_plan;
use search_workers::{
    Aims, Course, FoundPlan, FreeGate, Gate, Manner, Options, Outcome, Piece, Search, Site,
    SolveFault, Task, Team, Why, aim, better, gather_whole, root_bound,
};
use std::alloc::Global;
use std::marker::{Brand, Sync};
use std::sync::Wait;
use std::thread::Threads;
use tt_settle::settle;
use ttp_model::{Instance, MemoryFault, Plan, delay};

/// A plan to begin with, and no shorter one than propagation leaves of the whole tree, or than is enough to who follows the search. None is
/// looked for with a budget of 0, in a plain search, where propagation leaves none, or where who follows the search doesn't let it go on.
fn first_plan<R: Threads + Sync, G: Gate>(
    rt: &R,
    site: &Site<'_, G>,
    options: Options,
    manner: Manner,
) -> Result<Option<FoundPlan>, MemoryFault>
    ensures { IfOk result (IsFound site.now.instance.now) }
{
    if manner == Manner::Plain || options.budget == 0 || !site.gate.goes_on(0) {
        return Ok(None);
    }
    let top = site.instance.past_horizon();
    let low = root_bound(site.alloc, site.instance, top)?;
    if low == top {
        return Ok(None);
    }
    let enough = site.gate.enough().max(u64::from(low));
    match good_plan(rt, site.alloc, site.instance, options.crew(), enough)? {
        Some((plan, delay)) => Ok(Some(FoundPlan { plan, delay })),
        None => Ok(None),
    }
}

/// A settled plan to which moves lead from a plan that is known, where one is.
fn known_plan(
    alloc: Global,
    instance: &Instance,
    start: Option<Plan>,
) -> Result<Option<FoundPlan>, MemoryFault>
    requires { IfSome start (IsValid instance.now) }
    ensures found { IfOk result (IsFound instance.now) }
    ensures no_later { IfOk result (λ known. IfSome start (λ plan. limit_of instance.now known ≤ delay instance.now plan)) }
{
    let Some(plan) = start else {
        return Ok(None);
    };
    match settle(alloc, instance, plan) {
        Ok(plan) => {
            let delay = delay(instance, &plan);
            Ok(Some(FoundPlan { plan, delay }))
        }
        Err((_, fault)) => Err(fault),
    }
}

/// The better of a plan that is known and of one that is looked for at once, where there is one.
pub fn begun_with<R: Threads + Sync, G: Gate>(
    rt: &R,
    site: &Site<'_, G>,
    options: Options,
    manner: Manner,
    start: Option<Plan>,
) -> Result<Option<FoundPlan>, MemoryFault>
    requires { IfSome start (IsValid site.now.instance.now) }
    ensures found { IfOk result (IsFound site.now.instance.now) }
    ensures no_later { IfOk result (λ first. IfSome start (λ plan. limit_of site.now.instance.now first ≤ delay site.now.instance.now plan)) }
{
    let _nodes = site.instance.nodes();
    let known = known_plan(site.alloc, site.instance, start)?;
    let good = first_plan(rt, site, options, manner)?;
    Ok(better(known, good))
}

/// Tells a gate of a plan, where there is one.
pub fn tell<G: Gate>(site: &Site<'_, G>, best: &Option<FoundPlan>)
    requires { IsFound site.now.instance.now best.now }
    ensures { IfSome best.now (λ best. G.heard site.now.gate.now site.now.instance.now best) }
{
    if let Some(found) = best {
        site.gate.found(site.instance, found);
    }
}

/// Closes tasks at goals of at most `top` ticks, and puts what closes them behind pieces, in no more room than all take: what is left
/// of it is free. The least of `top` and the leaves' goals.
pub fn close_behind(
    alloc: Global,
    instance: &Instance,
    pieces: &mut Vec<Piece>,
    tasks: Vec<Task>,
    top: u32,
) -> Result<u32, MemoryFault>
    requires { All (IsTask instance.now) tasks.items }
    ensures { IfOk result (AreClosedBehind instance.now pieces.old.items tasks.items top pieces.new.items) }
{
    let (closed, low) = close_all(alloc, instance, tasks, top)?;
    join(pieces, closed)?;
    pieces.shrink_to_fit();
    Ok(low)
}

/// The certificate of a whole tree, in a list that may have room for its nodes.
pub fn certified(room: Vec<Node>, pieces: Vec<Piece>, low: u32) -> Result<Cert, SolveFault>
    requires shallow { AreShallow pieces.items }
    requires whole { IsWholeTree pieces.items [] }
    requires goals { HaveGoals low pieces.items }
    ensures ok { IfOk result (IsGathered low pieces.items) }
    ensures err { IfErr result (λ e. e ≡ fault.Memory) }
{
    match gather_whole(room, pieces, low) {
        Ok(cert) => Ok(cert),
        Err(_) => Err(SolveFault::Memory),
    }
}

/// Closes what a search left, at goals of at most the one at which it worked: the certificate of its tree.
fn closed_tree(
    alloc: Global,
    instance: &Instance,
    aims: Aims,
    room: Vec<Node>,
    pieces: Vec<Piece>,
    tasks: Vec<Task>,
    best: &Option<FoundPlan>,
) -> Result<Cert, SolveFault>
    requires { IsSearching instance.now aims pieces.items tasks.items best.now }
    ensures ok { IfOk result (IsClosedTree instance.now pieces.items tasks.items (aim_of instance.now aims best.now)) }
    ensures err { IfErr result (λ e. e ≡ fault.Memory) }
{
    let mut pieces = pieces;
    let top = aim(instance, aims, best);
    let low = close_behind(alloc, instance, &mut pieces, tasks, top)?;
    certified(room, pieces, low)
}

/// Closes what a search left, and tells what its tree shows.
fn concluded(
    alloc: Global,
    instance: &Instance,
    options: Options,
    aims: Aims,
    search: Search,
    why: Why,
) -> Result<Outcome, SolveFault>
    requires searching { IsSearching instance.now aims search.pieces.items search.tasks.items search.best }
    requires aims { AreAims instance.now aims }
    requires within { length search.pieces.items ≤ options.budget }
    requires cause { IsWorkedOut options.budget search.pieces.items why }
    ensures answer { IfOk result (IsOutcome instance.now options aims.gap) }
    ensures best { IfOk result (λ outcome. best_of outcome ≡ search.best) }
    ensures called_off { IfOk result (λ outcome. IsCalledOff outcome → why ≡ causes.CalledOff) }
    ensures err { IfErr result (λ e. e ≡ fault.Memory) }
{
    let _nodes = instance.nodes();
    let Search {
        pieces,
        room,
        tasks,
        best,
        ..
    } = search;
    let cert = closed_tree(alloc, instance, aims, room, pieces, tasks, &best)?;
    let cert = cert.with_version(Version::of_answers(instance));
    Ok(ended(instance, aims.gap, why, best, cert))
}

/// What of a budget the workers have: in a search that isn't plain the last quarter is for the bound. Another share
/// wasn't measured.
pub fn workers_part(budget: u64, manner: Manner) -> u64
    ensures part { result ≡ workers_part manner budget }
    ensures most { result ≤ budget }
{
    match manner {
        Manner::Plain => budget,
        Manner::Sparing => budget - budget / 4,
    }
}

/// Closes what a search left that ended for this reason, and tells what its tree shows, by a lean one where the search isn't plain. The gate is told of
/// the best plan first.
pub fn finished<G: Gate>(
    site: &Site<'_, G>,
    options: Options,
    course: Course,
    search: Search,
    why: Why,
) -> Result<Outcome, SolveFault>
    requires searching { IsSearching site.now.instance.now course.aims search.pieces.items search.tasks.items search.best }
    requires aims { AreAims site.now.instance.now course.aims }
    requires within { length search.pieces.items ≤ options.budget }
    requires cause { IsWorkedOut options.budget search.pieces.items why }
    ensures answer { IfOk result (IsOutcome site.now.instance.now options course.aims.gap) }
    ensures shows { IfOk result (Shows site.now.instance.now) }
    ensures called_off { IfOk result (λ outcome. IsCalledOff outcome → why ≡ causes.CalledOff) }
    ensures told { IfOk result (λ outcome. IfSome (best_of outcome) (λ best. G.heard site.now.gate.now site.now.instance.now best)) }
    ensures best { IfOk result (λ outcome. best_of outcome ≡ search.best) }
    ensures err { IfErr result (λ e. e ≡ fault.Memory) }
{
    let alloc = site.alloc;
    let instance = site.instance;
    let _nodes = instance.nodes();
    tell(site, &search.best);
    let outcome = concluded(alloc, instance, options, course.aims, search, why)?;
    match course.manner {
        Manner::Plain => Ok(outcome),
        Manner::Sparing => Ok(leaner(alloc, instance, outcome)),
    }
}

/// Works what workers left of a tree, the newest first until `part` pieces are made, and tells what it shows.
fn worked_out<R: Threads + Sync, G: Gate + Sync>(
    rt: &R,
    site: &Site<'_, G>,
    options: Options,
    part: u64,
    course: Course,
    search: Search,
    reserve: Reserve,
) -> Result<Outcome, SolveFault>
    requires searching { IsSearching site.now.instance.now course.aims search.pieces.items search.tasks.items search.best }
    requires aims { AreAims site.now.instance.now course.aims }
    requires within { length search.pieces.items ≤ part }
    requires part { part ≤ options.budget }
    ensures answer { IfOk result (IsOutcome site.now.instance.now options course.aims.gap) }
    ensures shows { IfOk result (Shows site.now.instance.now) }
    ensures called_off { IfOk result (λ outcome. IsCalledOff outcome → G.ends site.now.gate.now) }
    ensures told { IfOk result (λ outcome. IfSome (best_of outcome) (λ best. G.heard site.now.gate.now site.now.instance.now best)) }
    ensures no_later { IfOk result (λ outcome. limit_of site.now.instance.now (best_of outcome) ≤ limit_of site.now.instance.now search.best) }
    ensures err { IfErr result (λ e. e ≡ fault.Memory) }
{
    let mut search = search;
    let team = Team {
        rt,
        threads: options.crew(),
    };
    let why = search.go(&team, site, part, options.budget, course.aims);
    reserve.give_back();
    finished(site, options, course, search, why)
}

/// What a search shows by a lean certificate, where what it left needn't be worked; else the search.
pub fn by_lean_proof<G: Gate>(
    site: &Site<'_, G>,
    options: Options,
    course: Course,
    search: Search,
) -> Result<Outcome, Search>
    requires searching { IsSearching site.now.instance.now course.aims search.pieces.items search.tasks.items search.best }
    requires aims { AreAims site.now.instance.now course.aims }
    requires within { length search.pieces.items ≤ options.budget }
    ensures answer { IfOk result (IsOutcome site.now.instance.now options course.aims.gap) }
    ensures shows { IfOk result (Shows site.now.instance.now) }
    ensures called_off { IfOk result (λ outcome. ¬ IsCalledOff outcome) }
    ensures told { IfOk result (λ outcome. IfSome (best_of outcome) (λ best. G.heard site.now.gate.now site.now.instance.now best)) }
    ensures best { IfOk result (λ outcome. best_of outcome ≡ search.best) }
    ensures err { IfErr result (λ back. back ≡ search) }
{
    let _nodes = site.instance.nodes();
    match lean_proof(site.alloc, site.instance, options, course, &search) {
        Some(cert) => {
            tell(site, &search.best);
            let gap = course.aims.gap;
            Ok(ended(site.instance, gap, Why::Gap, search.best, cert))
        }
        None => Err(search),
    }
}

/// What a search shows that workers have ended: by a lean certificate, where what they left needn't be worked, else once that is worked.
pub(crate) fn brought_out<R: Threads + Sync, G: Gate + Sync>(
    rt: &R,
    site: &Site<'_, G>,
    options: Options,
    part: u64,
    course: Course,
    search: Search,
    reserve: Reserve,
) -> Result<Outcome, SolveFault>
    requires searching { IsSearching site.now.instance.now course.aims search.pieces.items search.tasks.items search.best }
    requires aims { AreAims site.now.instance.now course.aims }
    requires within { length search.pieces.items ≤ part }
    requires part { part ≤ options.budget }
    ensures answer { IfOk result (IsOutcome site.now.instance.now options course.aims.gap) }
    ensures shows { IfOk result (Shows site.now.instance.now) }
    ensures called_off { IfOk result (λ outcome. IsCalledOff outcome → G.ends site.now.gate.now) }
    ensures told { IfOk result (λ outcome. IfSome (best_of outcome) (λ best. G.heard site.now.gate.now site.now.instance.now best)) }
    ensures no_later { IfOk result (λ outcome. limit_of site.now.instance.now (best_of outcome) ≤ limit_of site.now.instance.now search.best) }
{
    match by_lean_proof(site, options, course, search) {
        Ok(outcome) => Ok(outcome),
        Err(search) => worked_out(rt, site, options, part, course, search, reserve),
    }
}

/// Searches for the shortest plan of an instance, as `solve_with` does, and begins with a plan that is known, where one is: the plan that is
/// answered takes no longer. None is looked for with a budget of 0 all the same. A subtree is left as soon as no plan in it is better than the
/// best one by more than `gap` ticks; with 0 all are sought.
pub fn solve_towards<R: Threads + Wait + Sync, G: Gate + Sync>(
    rt: &R,
    site: &Site<'_, G>,
    options: Options,
    gap: u32,
    start: Option<Plan>,
) -> Result<Outcome, SolveFault>
    requires { IfSome start (IsValid site.now.instance.now) }
    ensures answer { IfOk result (IsOutcome site.now.instance.now options gap) }
    ensures shows { IfOk result (Shows site.now.instance.now) }
    ensures called_off { IfOk result (λ outcome. IsCalledOff outcome → G.ends site.now.gate.now) }
    ensures told { IfOk result (λ outcome. IfSome (best_of outcome) (λ best. G.heard site.now.gate.now site.now.instance.now best)) }
    ensures start { IfOk result (λ outcome. IfSome start (λ plan. limit_of site.now.instance.now (best_of outcome) ≤ delay site.now.instance.now plan)) }
{
    let alloc = site.alloc;
    let instance = site.instance;
    let _nodes = instance.nodes();
    let course = course_of(alloc, instance, gap)?;
    let reserve = Reserve::begin(alloc, instance)?;
    let first = begun_with(rt, site, options, course.manner, start)?;
    tell(site, &first);
    let part = workers_part(options.budget, course.manner);
    let theirs = Options {
        budget: part,
        ..options
    };
    let tasks = whole_tree(alloc, instance)?;
    let search = searched::<Brand, G, R>(rt, site, theirs, course, tasks, first)?;
    brought_out(rt, site, options, part, course, search, reserve)
}

/// Searches for the shortest plan of an instance, as `solve` does, and calls a gate as workers go on: `start` once for each,
/// first, and `enter` and `leave` for each task that they work. Who works what they leave calls none of these. Both tell the gate of each task that is
/// worked by `worked`, and of each plan that they find by `found`, and ask it by `goes_on` before they take a task. The plan that is answered is told last. Where it says no to all, no
/// further subtree is worked, and what is left is closed as with a spent budget. Whatever it says, the answer's bounds hold.
pub fn solve_with<R: Threads + Wait + Sync, G: Gate + Sync>(
    rt: &R,
    alloc: Global,
    instance: &Instance,
    options: Options,
    gate: &G,
) -> Result<Outcome, SolveFault>
    ensures answer { IfOk result (IsOutcome instance.now options 0) }
    ensures shows { IfOk result (Shows instance.now) }
    ensures called_off { IfOk result (λ outcome. IsCalledOff outcome → G.ends gate.now) }
    ensures told { IfOk result (λ outcome. IfSome (best_of outcome) (λ best. G.heard gate.now instance.now best)) }
{
    let site = Site {
        alloc,
        instance,
        gate,
    };
    solve_towards(rt, &site, options, 0, None)
}

/// Searches for the shortest plan of an instance, by workers in threads of their own: works at most `budget` subtrees, what the
/// workers leave on the caller's thread, the last quarter by as many threads, and closes those that are left then as well as propagation can. With a budget of 0
/// nothing is worked and no plan is looked for. Where the root leaves at most 32 to choose the search is plain: no plan is looked for before it
/// either, every subtree is worked, and the certificate is the tree that was worked.
///
/// It waits for its workers. Where a thread can't be started, those that run end at their next subtree and are joined, and nothing is
/// answered.
pub fn solve<R: Threads + Wait + Sync>(
    rt: &R,
    alloc: Global,
    instance: &Instance,
    options: Options,
) -> Result<Outcome, SolveFault>
    ensures answer { IfOk result (IsOutcome instance.now options 0) }
    ensures shows { IfOk result (Shows instance.now) }
    ensures called_off { IfOk result (λ outcome. ¬ IsCalledOff outcome) }
{
    solve_with(rt, alloc, instance, options, &FreeGate)
}
