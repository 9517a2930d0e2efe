//! How does a search go on from a certificate, and how is one done wide?

ghost use Rattle.std.specs.Prelude.{◌≡◌, ◌≤◌, ◌++◌, ◌∷◌, [], ℕ, List, Option, IfErr, IfOk, IfSome, length};
ghost use Rattle.ttp_model.specs.Delays.{delay};
ghost use Rattle.ttp_model.specs.Plans.{IsValid};
ghost use Rattle.certificate.specs.Cert.{Cert};
ghost use Rattle.planner.specs.Begun.{nodes_of, IsBegun};
ghost use Rattle.tree_check.specs.Proofs.{Proves};
ghost use Rattle.planner.specs.Parts.{IsPortion};
ghost use Rattle.search_workers.specs.Searching.{limit_of, IsFound, IsSearching, IsSomeSearch, SearchGoesOn};
ghost use Rattle.search_workers.specs.declared.aims.Aims.{Aims};
ghost use Rattle.search_workers.specs.declared.found.FoundPlan.{FoundPlan};
ghost use Rattle.search_workers.specs.declared.outcome.SolveFault.TheVariants as fault;
ghost use Rattle.planner.specs.Answers.{best_of, cert_of, IsCalledOff, IsOutcome, Shows};
ghost use Rattle.planner.specs.Onward.{further, on_fault, IsOnFault, IsOnward, IsOwn, IsProved, IsSomePart};
ghost use Rattle.planner.specs.PartAnswers.{IsPartOutcome, IsPartSearch, IsPartWorked};
ghost use Rattle.planner.specs.Searched.{AreAims};
ghost use Rattle.planner.specs.declared.onward.OnFault.TheVariants.{Search as OfSearch};

use crate::aiming::course_of;
use crate::begun::{Begun, begin};
use crate::collecting::{pooled, whole_tree};
use crate::fault::BeginFault;
use crate::parting::{part_cause, part_concluded};
use crate::parts::{Dealt, Portion, part_of};
use crate::raised::raised;
use crate::reserve::Reserve;
use crate::solving::{begun_with, brought_out, by_lean_proof, finished, tell, workers_part};
use crate::spared::spared_leaves;
use certificate::Cert;
use search_workers::{
    Course, FoundPlan, Gate, Manner, Options, Outcome, Search, Site, SolveFault, Task, Team, Why,
    aim,
};
use std::alloc::Global;
use std::marker::{Brand, Sync};
use std::sync::Wait;
use std::thread::Threads;
use thiserror::Error;
use ttp_model::{Instance, MemoryFault, Plan};

/// From what a search goes on, and how.
#[derive(Clone, Copy)]
pub struct Onward<'a> {
    pub cert: &'a Cert,
    /// Which of its open leaves are worked; all, where none is said.
    pub part: Option<Portion>,
    /// Whether one thread works the task with the fewest branches above it, so that many are left that take about as long.
    pub is_wide: bool,
}

/// Why a search that goes on from a certificate has no answer.
#[derive(Clone, Copy, Debug, PartialEq, Eq, Error)]
pub enum OnFault {
    /// Below the branch on this line of the certificate's text, counted from 1, it could come too deep.
    #[error("line {line}: a search below this branch could come too deep")]
    TooDeep { line: u64 },
    /// Memory was refused, or a thread.
    #[error("no search")]
    Search(SolveFault),
}

impl From<MemoryFault> for OnFault {
    ghost from_gives = { λ _ e. e ≡ OfSearch fault.Memory };

    fn from(_: MemoryFault) -> Self {
        OnFault::Search(SolveFault::Memory)
    }
}

impl From<SolveFault> for OnFault {
    ghost from_gives = { λ f e. e ≡ OfSearch f };

    fn from(fault: SolveFault) -> Self {
        OnFault::Search(fault)
    }
}

impl From<BeginFault> for OnFault {
    ghost from_gives = { λ f e. e ≡ on_fault f };

    fn from(fault: BeginFault) -> Self {
        match fault {
            BeginFault::TooDeep { line } => OnFault::TooDeep { line },
            BeginFault::OutOfMemory => OnFault::Search(SolveFault::Memory),
        }
    }
}

/// The same with a budget of so many subtrees more.
fn further(options: Options, made: usize) -> Options
    ensures { result ≡ further options made }
{
    Options {
        budget: options.budget.saturating_add(made as u64),
        ..options
    }
}

/// How many pieces a search may have before the rest of its budget is for the bound.
fn part_of_budget(budget: u64, made: usize, manner: Manner) -> u64
    requires { made ≤ budget }
    ensures least { made ≤ result }
    ensures most { result ≤ budget }
{
    let made = made as u64;
    made + workers_part(budget - made, manner)
}

/// Lets workers of a pool work what is open of a search, until `part` pieces are made.
fn worked_by_pool<R: Threads + Wait + Sync, G: Gate + Sync>(
    rt: &R,
    site: &Site<'_, G>,
    options: Options,
    part: u64,
    course: Course,
    search: Search,
) -> Result<Search, SolveFault>
    requires searching { IsSomeSearch site.now.instance.now course.aims search }
    requires within { length search.pieces.items ≤ part }
    ensures searching { IfOk result (SearchGoesOn site.now.instance.now course.aims search) }
    ensures within { IfOk result (λ s. length s.pieces.items ≤ part) }
    ensures no_later { IfOk result (λ s. limit_of site.now.instance.now s.best ≤ limit_of site.now.instance.now search.best) }
{
    let theirs = Options {
        budget: part - search.pieces.len() as u64,
        ..options
    };
    pooled::<Brand, G, R>(rt, site, theirs, course, search)
}

/// What was set aside is open again, in front of what is.
fn put_back(search: Search, aside: Vec<Task>) -> Result<Search, MemoryFault>
    ensures tasks { IfOk result (λ s. s.tasks.items ≡ aside.items ++ search.tasks.items) }
    ensures pieces { IfOk result (λ s. s.pieces ≡ search.pieces) }
    ensures best { IfOk result (λ s. s.best ≡ search.best) }
{
    let (mut search, mut all) = (search, aside);
    search.spared = search.spared.saturating_add(all.len());
    all.append(&mut search.tasks)?;
    search.tasks = all;
    Ok(search)
}

/// What a search shows that was worked wide: by a lean certificate, where what is left needn't be worked, else once that is worked.
fn wide_end<G: Gate>(
    site: &Site<'_, G>,
    options: Options,
    course: Course,
    search: Search,
    reserve: Reserve,
) -> Result<Outcome, SolveFault>
    requires searching { IsSearching site.now.instance.now course.aims search.pieces.items search.tasks.items search.best }
    requires aims { AreAims site.now.instance.now course.aims }
    requires within { length search.pieces.items ≤ options.budget }
    ensures answer { IfOk result (IsOutcome site.now.instance.now options course.aims.gap) }
    ensures shows { IfOk result (Shows site.now.instance.now) }
    ensures called_off { IfOk result (λ outcome. IsCalledOff outcome → G.ends site.now.gate.now) }
    ensures told { IfOk result (λ outcome. IfSome (best_of outcome) (λ best. G.heard site.now.gate.now site.now.instance.now best)) }
    ensures no_later { IfOk result (λ outcome. limit_of site.now.instance.now (best_of outcome) ≤ limit_of site.now.instance.now search.best) }
{
    match by_lean_proof(site, options, course, search) {
        Ok(outcome) => Ok(outcome),
        Err(search) => {
            let mut left = search;
            let why = left.widen(site, options.budget, course.aims);
            reserve.give_back();
            finished(site, options, course, left, why)
        }
    }
}

/// Works what is open of a whole search wide on this thread, what is aside last, and tells what it shows.
fn whole_wide<G: Gate>(
    site: &Site<'_, G>,
    options: Options,
    course: Course,
    search: Search,
    aside: Vec<Task>,
    reserve: Reserve,
) -> Result<Outcome, SolveFault>
    requires searching { IsSearching site.now.instance.now course.aims search.pieces.items (aside.items ++ search.tasks.items) search.best }
    requires aims { AreAims site.now.instance.now course.aims }
    requires within { length search.pieces.items ≤ options.budget }
    ensures answer { IfOk result (IsOutcome site.now.instance.now options course.aims.gap) }
    ensures shows { IfOk result (Shows site.now.instance.now) }
    ensures called_off { IfOk result (λ outcome. IsCalledOff outcome → G.ends site.now.gate.now) }
    ensures told { IfOk result (λ outcome. IfSome (best_of outcome) (λ best. G.heard site.now.gate.now site.now.instance.now best)) }
    ensures no_later { IfOk result (λ outcome. limit_of site.now.instance.now (best_of outcome) ≤ limit_of site.now.instance.now search.best) }
{
    let mut search = search;
    // Why that ended is asked anew once what is aside is open too.
    let _why = search.widen(site, options.budget, course.aims);
    let whole = put_back(search, aside)?;
    wide_end(site, options, course, whole, reserve)
}

/// Works what is open of a whole search by workers, and what these leave by all threads so that the bound rises, and tells what it shows.
fn whole<R: Threads + Wait + Sync, G: Gate + Sync>(
    rt: &R,
    site: &Site<'_, G>,
    options: Options,
    course: Course,
    search: Search,
    aside: Vec<Task>,
    reserve: Reserve,
) -> Result<Outcome, SolveFault>
    requires searching { IsSearching site.now.instance.now course.aims search.pieces.items (aside.items ++ search.tasks.items) search.best }
    requires aims { AreAims site.now.instance.now course.aims }
    requires within { length search.pieces.items ≤ options.budget }
    ensures answer { IfOk result (IsOutcome site.now.instance.now options course.aims.gap) }
    ensures called_off { IfOk result (λ outcome. IsCalledOff outcome → G.ends site.now.gate.now) }
    ensures told { IfOk result (λ outcome. IfSome (best_of outcome) (λ best. G.heard site.now.gate.now site.now.instance.now best)) }
    ensures no_later { IfOk result (λ outcome. limit_of site.now.instance.now (best_of outcome) ≤ limit_of site.now.instance.now search.best) }
{
    let part = part_of_budget(options.budget, search.pieces.len(), course.manner);
    let worked = worked_by_pool(rt, site, options, part, course, search)?;
    let whole = put_back(worked, aside)?;
    brought_out(rt, site, options, part, course, whole, reserve)
}

/// Works a part's own tasks on this thread, each time one with the fewest branches above it, and why that ended.
fn part_wide<G: Gate>(
    site: &Site<'_, G>,
    options: Options,
    course: Course,
    search: Search,
) -> (Search, Why)
    requires searching { IsSomeSearch site.now.instance.now course.aims search }
    requires within { length search.pieces.items ≤ options.budget }
    ensures { IsPartWorked site.now.instance.now course.aims options.budget (G.ends site.now.gate.now) search result }
{
    let mut search = search;
    let why = search.widen(site, options.budget, course.aims);
    let cause = part_cause(why, &search);
    (search, cause)
}

/// Works a part's own tasks by workers, and what these leave by all threads so that the bound rises, and why that ended: as a part once nothing is left
/// that has to be worked.
fn part_pooled<R: Threads + Wait + Sync, G: Gate + Sync>(
    rt: &R,
    site: &Site<'_, G>,
    options: Options,
    course: Course,
    search: Search,
) -> Result<(Search, Why), SolveFault>
    requires searching { IsSomeSearch site.now.instance.now course.aims search }
    requires within { length search.pieces.items ≤ options.budget }
    ensures { IfOk result (IsPartWorked site.now.instance.now course.aims options.budget (G.ends site.now.gate.now) search) }
{
    let part = part_of_budget(options.budget, search.pieces.len(), course.manner);
    let worked = worked_by_pool(rt, site, options, part, course, search)?;
    let mut search = worked;
    if search.tasks.len() <= search.spared {
        return Ok((search, Why::Part));
    }
    let team = Team {
        rt,
        threads: options.crew(),
    };
    let why = search.go(&team, site, part, options.budget, course.aims);
    let cause = part_cause(why, &search);
    Ok((search, cause))
}

/// Works a part's own tasks, wide or by workers, and why that ended.
fn part_worked<R: Threads + Wait + Sync, G: Gate + Sync>(
    rt: &R,
    site: &Site<'_, G>,
    options: Options,
    course: Course,
    is_wide: bool,
    search: Search,
) -> Result<(Search, Why), SolveFault>
    requires searching { IsSomeSearch site.now.instance.now course.aims search }
    requires within { length search.pieces.items ≤ options.budget }
    ensures { IfOk result (IsPartWorked site.now.instance.now course.aims options.budget (G.ends site.now.gate.now) search) }
{
    if is_wide {
        return Ok(part_wide(site, options, course, search));
    }
    part_pooled(rt, site, options, course, search)
}

/// Works what is a part's own, and tells what its tree shows, in which the leaves of all others stay.
fn of_part<R: Threads + Wait + Sync, G: Gate + Sync>(
    rt: &R,
    site: &Site<'_, G>,
    options: Options,
    course: Course,
    is_wide: bool,
    dealt: Dealt,
    reserve: Reserve,
) -> Result<Outcome, SolveFault>
    requires part { IsPartSearch site.now.instance.now course.aims dealt.search dealt.others.items }
    requires within { length dealt.search.pieces.items ≤ options.budget }
    ensures answer { IfOk result (IsPartOutcome site.now.instance.now options course.aims.gap (nodes_of dealt.others.items)) }
    ensures called_off { IfOk result (λ outcome. IsCalledOff outcome → G.ends site.now.gate.now) }
    ensures told { IfOk result (λ outcome. IfSome (best_of outcome) (λ best. G.heard site.now.gate.now site.now.instance.now best)) }
    ensures no_later { IfOk result (λ outcome. limit_of site.now.instance.now (best_of outcome) ≤ limit_of site.now.instance.now dealt.search.best) }
{
    let Dealt {
        search,
        aside,
        others,
    } = dealt;
    let (worked, why) = part_worked(rt, site, options, course, is_wide, search)?;
    reserve.give_back();
    tell(site, &worked.best);
    let ended = Dealt {
        search: worked,
        aside,
        others,
    };
    let aims = course.aims;
    let outcome = part_concluded(site.alloc, site.instance, options, aims, ended, why)?;
    Ok(outcome)
}

/// A flag for each open leaf of a certificate that needn't be worked; none in a plain search.
fn spared_of(
    alloc: Global,
    instance: &Instance,
    course: Course,
    cert: &Cert,
    best: &Option<FoundPlan>,
) -> Result<Vec<bool>, MemoryFault>
    requires { IsFound instance.now best.now }
{
    if course.manner == Manner::Plain {
        return Ok(Vec::new(alloc));
    }
    let aim = aim(instance, course.aims, best);
    spared_leaves(alloc, instance, cert, aim)
}

/// The part that is asked for, or the only one.
fn portion(part: Option<Portion>) -> Portion
    requires { IsSomePart part }
    ensures portion { IsPortion result }
    ensures same { IfSome part (λ some. result ≡ some) }
{
    match part {
        Some(part) => part,
        None => Portion {
            number: 0,
            count: 1,
        },
    }
}

/// Works what is open of a search that a certificate began, or of a part of it, but for what needn't be worked.
fn gone_on<R: Threads + Wait + Sync, G: Gate + Sync>(
    rt: &R,
    site: &Site<'_, G>,
    options: Options,
    course: Course,
    onward: Onward<'_>,
    begun: Begun,
    reserve: Reserve,
) -> Result<Outcome, SolveFault>
    requires begun { (best : Option FoundPlan) × (cert : Cert) × IsBegun site.now.instance.now course.aims best cert begun }
    requires aims { AreAims site.now.instance.now course.aims }
    requires part { IsSomePart onward.part }
    requires within { length begun.search.pieces.items ≤ options.budget }
    ensures answer { IfOk result (IsOwn site.now.instance.now options course.aims.gap (nodes_of begun.leaves.items) onward.entry.part) }
    ensures proved { IfOk result (IsProved site.now.instance.now) }
    ensures called_off { IfOk result (λ outcome. IsCalledOff outcome → G.ends site.now.gate.now) }
    ensures told { IfOk result (λ outcome. IfSome (best_of outcome) (λ best. G.heard site.now.gate.now site.now.instance.now best)) }
    ensures no_later { IfOk result (λ outcome. limit_of site.now.instance.now (best_of outcome) ≤ limit_of site.now.instance.now begun.search.best) }
{
    let alloc = site.alloc;
    let best = &begun.search.best;
    let spared = spared_of(alloc, site.instance, course, onward.cert, best)?;
    let share = portion(onward.part);
    let dealt = part_of(alloc, begun, share, spared.as_slice())?;
    match onward.part {
        Some(_) => of_part(rt, site, options, course, onward.is_wide, dealt, reserve),
        None => {
            let Dealt { search, aside, .. } = dealt;
            if onward.is_wide {
                whole_wide(site, options, course, search, aside, reserve)
            } else {
                whole(rt, site, options, course, search, aside, reserve)
            }
        }
    }
}

/// Goes on from a certificate that proves its bound, for at most `budget` subtrees more than nodes stay of it: its leaves whose goals are below the delay to
/// beat, less the gap, are open again, or of these a part's own. Workers work them, and towards the end of the budget all threads, so that the bound rises;
/// or one thread works them wide. Begins with a plan that is known, where one is, and looks for none then: the plan that is answered takes no longer. Where
/// none is, one is looked for as `solve_towards` does.
///
/// Where a part has worked its own leaves and others are open, it stops with `Why::Part`; the leaves of the others stay as they are. The bound that is
/// answered is never below the certificate's.
pub fn solve_on<R: Threads + Wait + Sync, G: Gate + Sync>(
    rt: &R,
    site: &Site<'_, G>,
    options: Options,
    gap: u32,
    start: Option<Plan>,
    onward: Onward<'_>,
) -> Result<Outcome, OnFault>
    requires start { IfSome start (IsValid site.now.instance.now) }
    requires proves { Proves site.now.instance.now onward.cert.now }
    requires part { IsSomePart onward.part }
    ensures answer { IfOk result (IsOnward site.now.instance.now options gap start onward.entry.cert.now onward.entry.part) }
    ensures shows { IfOk result (Shows site.now.instance.now) }
    ensures called_off { IfOk result (λ outcome. IsCalledOff outcome → G.ends site.now.gate.now) }
    ensures told { IfOk result (λ outcome. IfSome (best_of outcome) (λ best. G.heard site.now.gate.now site.now.instance.now best)) }
    ensures start { IfOk result (λ outcome. IfSome start (λ plan. limit_of site.now.instance.now (best_of outcome) ≤ delay site.now.instance.now plan)) }
    ensures no_lower { IfOk result (λ outcome. onward.entry.cert.now.low ≤ (cert_of outcome).low) }
    ensures err { IfErr result (IsOnFault site.now.instance.now onward.entry.cert.now) }
{
    let alloc = site.alloc;
    let instance = site.instance;
    let _nodes = instance.nodes();
    let course = course_of(alloc, instance, gap)?;
    let reserve = Reserve::begin(alloc, instance)?;
    let manner = if start.is_some() {
        Manner::Plain
    } else {
        course.manner
    };
    let first = begun_with(rt, site, options, manner, start)?;
    tell(site, &first);
    let begun = begin(alloc, instance, onward.cert, course.aims, first)?;
    let all = further(options, begun.search.pieces.len());
    let own = gone_on(rt, site, all, course, onward, begun, reserve)?;
    let outcome = raised(alloc, instance, gap, onward.cert, own)?;
    Ok(outcome)
}

/// A search of the whole tree, of which nothing is worked yet.
fn search_of(
    alloc: Global,
    instance: &Instance,
    best: Option<FoundPlan>,
) -> Result<Search, MemoryFault>
    requires { IsFound instance.now best }
    ensures begins { IfOk result (λ search. (aims : Aims) → IsSearching instance.now aims search.pieces.items search.tasks.items search.best) }
    ensures none { IfOk result (λ search. search.pieces.items ≡ []) }
    ensures best { IfOk result (λ search. search.best ≡ best) }
{
    let tasks = whole_tree(alloc, instance)?;
    Ok(Search {
        pieces: Vec::new(alloc),
        room: Vec::new(alloc),
        tasks,
        spared: 0,
        best,
    })
}

/// Searches as `solve_towards` does, but wide: without workers, on this thread, each time the task with the fewest branches above it. What is left at the end
/// are many subtrees that take about as long, for a certificate whose open leaves are to be dealt.
pub fn solve_wide<R: Threads + Sync, G: Gate + Sync>(
    rt: &R,
    site: &Site<'_, G>,
    options: Options,
    gap: u32,
    start: Option<Plan>,
) -> Result<Outcome, SolveFault>
    requires { IfSome start (IsValid site.now.instance.now) }
    ensures answer { IfOk result (IsOutcome site.now.instance.now options gap) }
    ensures shows { IfOk result (Shows site.now.instance.now) }
    ensures called_off { IfOk result (λ outcome. IsCalledOff outcome → G.ends site.now.gate.now) }
    ensures told { IfOk result (λ outcome. IfSome (best_of outcome) (λ best. G.heard site.now.gate.now site.now.instance.now best)) }
    ensures start { IfOk result (λ outcome. IfSome start (λ plan. limit_of site.now.instance.now (best_of outcome) ≤ delay site.now.instance.now plan)) }
{
    let alloc = site.alloc;
    let instance = site.instance;
    let course = course_of(alloc, instance, gap)?;
    let reserve = Reserve::begin(alloc, instance)?;
    let first = begun_with(rt, site, options, course.manner, start)?;
    tell(site, &first);
    let search = search_of(alloc, instance, first)?;
    let aside = Vec::new(alloc);
    whole_wide(site, options, course, search, aside, reserve)
}
