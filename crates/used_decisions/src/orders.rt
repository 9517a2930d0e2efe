//! What is used of a path where processes wait for others?

ghost use Rattle.std.specs.Prelude.{◌≡◌, ℕ, ◌+◌, ◌-◌, ◌<◌, ◌≤◌, length, slice_index};
ghost use Rattle.ttp_model.specs.Instance.{node_of};
ghost use Rattle.ttp_model.specs.Network.{processes_on, received_by};
ghost use Rattle.tt_infer.specs.Sources.{Waits};
ghost use Rattle.used_decisions.specs.Uses.{IsMore};
ghost use Rattle.used_decisions.specs.Steps.{IsReadOf, IsSourceRead, TellsArrival, TellsEach, TellsPair, TellsRing, TellsRival};

use crate::given::Given;
use crate::parts::{greatest, greatest_slot, order};
use crate::path::Path;
use crate::uses::Uses;
use sought_plans::leads;
use ttp_model::{Instance, has_link};

/// That a process goes before another, where no link says so.
fn unlinked(given: &Given, path: &Path, p: u32, x: u32, uses: &mut Uses)
    ensures more { IsMore uses.old uses.new }
    ensures told { IsReadOf path.now uses.old → TellsRival path.now given.now uses.new p x }
{
    if has_link(path.instance(), p, x) {
        return;
    }
    order(given, path, p, x, uses);
}

/// The same, if a branch says it.
fn rival(given: &Given, path: &Path, p: u32, x: u32, uses: &mut Uses)
    ensures more { IsMore uses.old uses.new }
    ensures told { IsReadOf path.now uses.old → TellsRival path.now given.now uses.new p x }
{
    match path.before(p, x) {
        Some(_) => unlinked(given, path, p, x, uses),
        None => {}
    }
}

/// Which processes of node `n` go behind one that no link leads to.
fn rivals(given: &Given, path: &Path, p: u32, n: u32, uses: &mut Uses)
    ensures more { IsMore uses.old uses.new }
    ensures told { IsReadOf path.now uses.old
        → TellsEach (λ uses x. TellsRival path.now given.now uses p x) (processes_on path.now.instance n) uses.new }
{
    for x in path.instance().processes_on(n) {
        rival(given, path, p, *x, uses);
    }
}

/// The node that a process is on: 0 where it isn't there.
fn node(instance: &Instance, p: u32) -> u32
    ensures { p < length instance.now.processes → result ≡ node_of instance.now p }
{
    if (p as usize) < instance.processes().len() {
        instance.node_of(p as usize)
    } else {
        0
    }
}

/// When a message has arrived at most.
fn arrival(given: &Given, path: &Path, m: u32, uses: &mut Uses)
    ensures more { IsMore uses.old uses.new }
    ensures told { IsReadOf path.now uses.old → m < length path.now.instance.messages
        → TellsArrival path.now given.now uses.new m }
{
    greatest_slot(path, m, uses);
    greatest(given, path, m, uses);
}

/// The same of each message to a process.
fn arrivals(given: &Given, path: &Path, p: u32, uses: &mut Uses)
    ensures more { IsMore uses.old uses.new }
    ensures told { IsReadOf path.now uses.old
        → TellsEach (λ uses m. TellsArrival path.now given.now uses m) (received_by path.now.instance p) uses.new }
{
    for m in path.instance().received_by(p) {
        arrival(given, path, *m, uses);
    }
}

/// What a process may have to wait for.
pub fn settled(given: &Given, path: &Path, p: u32, uses: &mut Uses)
    ensures more { IsMore uses.old uses.new }
    ensures told { IsReadOf path.now uses.old → IsSourceRead path.now given.now uses.new (Waits p) }
{
    let n = node(path.instance(), p);
    rivals(given, path, p, n, uses);
    arrivals(given, path, p, uses);
}

/// That a process goes before another, where neither a link nor a message says so.
fn unled(given: &Given, path: &Path, p: u32, q: u32, uses: &mut Uses)
    ensures more { IsMore uses.old uses.new }
    ensures told { IsReadOf path.now uses.old → TellsPair path.now given.now uses.new p q }
{
    if leads(path.instance(), p, q) {
        return;
    }
    order(given, path, p, q, uses);
}

/// The same, if a branch says it.
fn ahead(given: &Given, path: &Path, p: u32, q: u32, uses: &mut Uses)
    ensures more { IsMore uses.old uses.new }
    ensures told { IsReadOf path.now uses.old → TellsPair path.now given.now uses.new p q }
{
    match path.before(p, q) {
        Some(_) => unled(given, path, p, q, uses),
        None => {}
    }
}

/// That each process of a ring goes before the next.
fn neighbours(given: &Given, path: &Path, ring: &[u32], uses: &mut Uses)
    requires { 2 ≤ length ring.now }
    ensures more { IsMore uses.old uses.new }
    ensures told { IsReadOf path.now uses.old → (k : ℕ) → k + 1 < length ring.now
        → TellsPair path.now given.now uses.new (slice_index ring.now k) (slice_index ring.now (k + 1)) }
{
    let last = ring.len() - 1;
    for k in 0..last {
        ahead(given, path, ring[k], ring[k + 1], uses);
    }
}

/// The same, and that the last goes before the first.
pub fn ring(given: &Given, path: &Path, ring: &[u32], uses: &mut Uses)
    requires { 2 ≤ length ring.now }
    ensures more { IsMore uses.old uses.new }
    ensures told { IsReadOf path.now uses.old → TellsRing path.now given.now uses.new ring.now }
{
    ahead(given, path, ring[ring.len() - 1], ring[0], uses);
    neighbours(given, path, ring, uses);
}
