//! How do threads share the leaves that wait?

ghost use Rattle.std.specs.Prelude.{◌≡◌, ◌++◌, ◌*◌, ◌≤◌, ◌⊎◌, All, IfSome, IsTrue, length};
ghost use Rattle.cert_check.specs.Waiting.{Judges, MarksOnly, RunCloses, Waits, run_at};

use crate::fault::StreamFault;
use crate::judge::{Judge, LeafRoom};
use crate::leaves::HeldLeaf;
use certificate::CertTextError;
use std::alloc::Global;
use std::sync::atomic::{AtomicUsize, Ordering};

/// How many leaves a thread takes at a time. Eight are 1 to 3 % faster, but leaves of more than a megabyte would then be one
/// thread's alone: 1.7 times as long.
const RUN: usize = 4;

/// So few leaves are worth no thread of their own: a guess.
const FEW: usize = 16;

/// How many bytes of steps are worth threads, however few leaves have them: a guess.
const MANY_BYTES: usize = 65_536;

/// Whether these leaves have many bytes of steps, however few they are.
fn have_many_bytes(leaves: &[HeldLeaf]) -> bool {
    let mut bytes = 0usize;
    for k in 0..leaves.len() {
        bytes = bytes.saturating_add(leaves[k].steps.as_slice().len());
    }
    bytes >= MANY_BYTES
}

/// Whether these leaves are worth threads of their own.
pub fn are_many(leaves: &[HeldLeaf]) -> bool {
    leaves.len() > FEW || have_many_bytes(leaves)
}

/// The run of leaves at a place.
fn run_at(leaves: &[HeldLeaf], place: usize) -> &[HeldLeaf]
    requires { place * RUN ≤ length leaves.now }
    ensures { result.now ≡ run_at place leaves.now }
{
    let (_, behind) = leaves.split_at(place * RUN);
    let (run, _) = behind.split_at(RUN.min(behind.len()));
    run
}

/// The places of the runs that two threads closed. Some may be left out where memory is refused.
pub fn places_of_both(places: Vec<usize>, others: Vec<usize>) -> Vec<usize>
    ensures { (result.items ≡ places.items ++ others.items) ⊎ (result.items ≡ places.items) }
{
    let mut both = places;
    let mut others = others;
    match both.append(&mut others) {
        Ok(()) => both,
        Err(_) => both,
    }
}

/// Which runs are at these places.
fn marked(alloc: Global, count: usize, places: &[usize]) -> Option<Vec<bool>>
    ensures count { IfSome result (λ marks. length marks.items ≡ count) }
    ensures only { IfSome result (λ marks. MarksOnly places.now count marks.items) }
{
    let mut marks = vec![in alloc; false; count].ok()?;
    for k in 0..places.len() {
        let place = places[k];
        if place < marks.len() {
            marks[place] = true;
        }
    }
    Some(marks)
}

impl<'a, T> Judge<'a, T> {
    /// Judges runs of leaves as long as there are any that no thread has taken. The places of those that close, until one doesn't.
    pub fn closed_runs(&self, leaves: &[HeldLeaf], next: &AtomicUsize) -> Vec<usize>
        requires { All (Waits self.now.instance.now) leaves.now }
        ensures { All (RunCloses self.now.instance.now self.now.low leaves.now) result.items }
    {
        let Some(first) = leaves.first() else {
            return Vec::new(self.alloc);
        };
        match self.room(first) {
            Ok(room) => self.closed_runs_in(room, leaves, next),
            Err(_) => Vec::new(self.alloc),
        }
    }

    /// Judges them in this room.
    fn closed_runs_in(
        &self,
        room: LeafRoom<'a>,
        leaves: &[HeldLeaf],
        next: &AtomicUsize,
    ) -> Vec<usize>
        requires of { room.facts.instance ≡ self.now.instance.now }
        requires waits { All (Waits self.now.instance.now) leaves.now }
        ensures { All (RunCloses self.now.instance.now self.now.low leaves.now) result.items }
    {
        let mut room = room;
        let mut closed = Vec::new(self.alloc);
        for _ in 0..leaves.len() {
            let place = next.fetch_add(1, Ordering::SeqCst);
            if place > leaves.len() / RUN {
                drop(room);
                return closed;
            }
            if closed.reserve(1).is_err() {
                drop(room);
                return closed;
            }
            match self.run(room, run_at(leaves, place)) {
                Ok(same) => room = same,
                Err(_) => return closed,
            }
            closed.push_reserved(place);
        }
        drop(room);
        closed
    }

    /// Judges the run at a place, unless it is known to close.
    fn run_there(&self, leaves: &[HeldLeaf], place: usize, closes: bool) -> Result<(), StreamFault>
        requires waits { All (Waits self.now.instance.now) leaves.now }
        requires inside { place * RUN ≤ length leaves.now }
        requires closes { IsTrue closes → RunCloses self.now.instance.now self.now.low leaves.now place }
        ensures { Judges self.now.instance.now self.now.low (run_at place leaves.now) result }
    {
        if closes {
            return Ok(());
        }
        self.alone(run_at(leaves, place))
    }

    /// Judges leaves of which the runs at these places close.
    pub fn rest(&self, leaves: &[HeldLeaf], closed: &[usize]) -> Result<(), StreamFault>
        requires waits { All (Waits self.now.instance.now) leaves.now }
        requires closed { All (RunCloses self.now.instance.now self.now.low leaves.now) closed.now }
        ensures { Judges self.now.instance.now self.now.low leaves.now result }
    {
        let Some(marks) = marked(self.alloc, leaves.len() / RUN + 1, closed) else {
            return Err(StreamFault::Text(CertTextError::OutOfMemory));
        };
        for place in 0..leaves.len() / RUN + 1 {
            match self.run_there(leaves, place, marks[place]) {
                Ok(()) => {}
                Err(fault) => return Err(fault),
            }
        }
        Ok(())
    }
}
