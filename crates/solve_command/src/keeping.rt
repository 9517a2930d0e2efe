//! Which plan is kept while a search goes on?

ghost use Rattle.std.specs.Prelude.{◌≡◌, ◌<◌, ◌⊎◌, ℕ, List, IfOk, IfSome, Some, cond, min, true};
ghost use Rattle.ttp_model.specs.Delays.{delay};
ghost use Rattle.ttp_model.specs.Plans.{IsValid};
ghost use Rattle.solve_command.specs.Kept.{kept_end, HoldsNoBetter, IsPlanText};

use crate::folder::{Folder, replaced};
use crate::progress::Follower;
use command_streams::{End, Fault, Sink};
use plan_format::PlanTextError;
use planner::{FoundPlan, Gate, Name};
use std::alloc::{AllocError, Global};
use std::sync::atomic::{AtomicBool, Ordering};
use std::sync::{Mutex, Wait};
use ttp_model::Instance;

/// The file of the best plan so far.
#[derive(Drop)]
pub struct Shelf<'a, D: Folder> {
    alloc: Global,
    folder: D,
    name: &'a str,
    /// What the file held before the search.
    before: Vec<u8>,
    /// The delay of the plan that stands there, in ticks; the greatest number where none is known to, and 0 where it can't be told.
    ticks: u64,
}

/// The delay of the valid plan of the instance whose text this is, which it states, in ticks.
fn delay_told(alloc: Global, instance: &Instance, text: &[u8]) -> Result<Option<u64>, AllocError>
    ensures found { IfOk result (λ found. IfSome found (IsPlanText instance.now text.now)) }
    ensures only { IfOk result (λ found. (ticks : ℕ) → IsPlanText instance.now text.now ticks → found ≡ Some ticks) }
{
    let (plan, stated) = match plan_format::read(alloc, instance, text) {
        Ok(read) => read,
        Err(PlanTextError::OutOfMemory) => return Err(AllocError),
        Err(PlanTextError::At { .. }) => return Ok(None),
    };
    match plan_check::check(instance, &plan) {
        Ok(delay) if delay == u64::from(stated) => Ok(Some(delay)),
        Ok(_) => Ok(None),
        Err(_) => Ok(None),
    }
}

impl<'a, D: Folder> Shelf<'a, D> {
    /// A file of this name, and what it holds.
    pub fn at(alloc: Global, folder: D, name: &'a str, before: Vec<u8>) -> Self {
        Shelf {
            alloc,
            folder,
            name,
            before,
            ticks: u64::MAX,
        }
    }

    /// Takes note of a plan of the instance that stands there before the search, so that none that isn't better takes its place. Where
    /// memory is refused nothing will, and it says so.
    pub fn begin(&mut self, instance: &Instance) -> bool
        ensures { HoldsNoBetter instance.now self.old.before.items self.new.ticks }
    {
        match delay_told(self.alloc, instance, self.before.as_slice()) {
            Ok(Some(ticks)) => {
                self.ticks = ticks;
                true
            }
            Ok(None) => true,
            Err(_) => {
                self.ticks = 0;
                false
            }
        }
    }

    /// Puts the text of a better plan, which takes so many ticks, in place of what stands there, and says whether it could. At each moment
    /// the file holds what it held before, or the new text as a whole.
    fn put(&mut self, instance: &Instance, text: &[u8], ticks: u64) -> bool
        requires text { IsPlanText instance.now text.now ticks }
        requires better { ticks < self.old.ticks }
        ensures ticks { self.new.ticks ≡ cond result ticks self.old.ticks }
        ensures any_moment { (bytes : List ℕ) → D.has_held self.new.folder self.new.name.now bytes
            → D.has_held self.old.folder self.old.name.now bytes ⊎ (bytes ≡ text.now) }
        ensures stands { result ≡ true → D.holds self.new.folder self.new.name.now text.now }
    {
        let is_put = replaced(self.alloc, &mut self.folder, self.name, text);
        if is_put {
            self.ticks = ticks;
        }
        is_put
    }
}

/// Puts the text of a plan in place of the one before it, where it is better: whether the better of both stands there now.
fn put_better<'a, D: Folder>(
    shelf: &mut Shelf<'a, D>,
    instance: &Instance,
    found: &FoundPlan,
) -> bool
    requires valid { IsValid instance.now found.now.plan }
    requires takes { found.now.delay ≡ delay instance.now found.now.plan }
    ensures { shelf.new.ticks ≡ cond result (min shelf.old.ticks found.now.delay) shelf.old.ticks }
{
    if shelf.ticks <= found.delay {
        return true;
    }
    match plan_format::print(shelf.alloc, instance, &found.plan) {
        Ok(text) => shelf.put(instance, text.as_slice(), found.delay),
        Err(_) => false,
    }
}

/// The end of a search whose best plan was to be kept: that it couldn't be is told once the answer is written, where nothing else is.
pub fn kept_end(end: End, has_failed: bool) -> End
    ensures { result ≡ kept_end has_failed end }
{
    match end {
        End::Refused(fault) => End::Refused(fault),
        End::RefusedOf(release, fault) => End::RefusedOf(release, fault),
        _ if has_failed => End::Refused(Fault::Unwritten(Sink::Plan)),
        end => end,
    }
}

/// Follows a search, as another follower does who is told of all, and keeps the best plan found. Who finds a plan while another one is put
/// waits for that.
#[derive(Drop)]
pub struct Keeper<'a, R: Wait, D: Folder, F: Follower> {
    rt: &'a R,
    follower: &'a F,
    shelf: Mutex<Shelf<'a, D>>,
    failed: AtomicBool,
}

impl<'a, R: Wait, D: Folder, F: Follower> Keeper<'a, R, D, F> {
    /// No plan is found yet.
    pub fn beside(follower: &'a F, rt: &'a R, shelf: Shelf<'a, D>) -> Self {
        Keeper {
            rt,
            follower,
            shelf: Mutex::new(shelf),
            failed: AtomicBool::new(false),
        }
    }

    /// Whether a plan couldn't be kept.
    pub fn has_failed(&self) -> bool {
        self.failed.load(Ordering::SeqCst)
    }
}

impl<'a, R: Wait, D: Folder, F: Follower> Gate for Keeper<'a, R, D, F> {
    ghost ends = { λ x. F.ends x.follower.now };

    ghost heard = { λ x. F.heard x.follower.now };

    fn start(&self, worker: usize) {
        self.follower.start(worker);
    }

    fn enter(&self, worker: usize, name: &Name) {
        self.follower.enter(worker, name);
    }

    fn leave(&self, worker: usize, name: &Name) {
        self.follower.leave(worker, name);
    }

    fn worked(&self, worker: usize, children: u32) {
        self.follower.worked(worker, children);
    }

    fn goes_on(&self, worker: usize) -> bool {
        self.follower.goes_on(worker)
    }

    fn is_late(&self) -> bool {
        self.follower.is_late()
    }

    fn enough(&self) -> u64 {
        self.follower.enough()
    }

    fn found(&self, instance: &Instance, found: &FoundPlan) {
        self.follower.found(instance, found);
        let mut shelf = self.shelf.lock(self.rt);
        if !put_better(&mut *shelf, instance, found) {
            self.failed.store(true, Ordering::SeqCst);
        }
    }
}

impl<'a, R: Wait, D: Folder, F: Follower> Follower for Keeper<'a, R, D, F> {
    fn begin(&self, alloc: Global, instance: &Instance) {
        let mut shelf = self.shelf.lock(self.rt);
        if !shelf.begin(instance) {
            self.failed.store(true, Ordering::SeqCst);
        }
        drop(shelf);
        self.follower.begin(alloc, instance);
    }

    fn end(&self) {
        self.follower.end();
    }
}
