//! Do two numbers show that a step says nothing new?

ghost use Rattle.std.specs.Prelude.{◌<◌, ◌^◌, IsTrue, length};

use tt_infer::Facts;
use ttp_model::Instance;

/// Whether two processes are there.
fn are_there(instance: &Instance, p: u32, q: u32) -> bool
    ensures { IsTrue result → (p < length instance.now.processes) × (q < length instance.now.processes) }
{
    let count = instance.processes().len();
    (p as usize) < count && (q as usize) < count
}

/// How long process `p` runs, in ticks.
fn wcet(instance: &Instance, p: u32) -> u64
    requires { p < length instance.now.processes }
    ensures { result < 2 ^ 32 }
{
    u64::from(instance.process_at(p as usize).wcet)
}

/// When process `p` ends at least, in ticks.
fn least_end(facts: &Facts, p: u32) -> u64
    requires { p < length facts.now.instance.processes }
    ensures { result < 2 ^ 33 }
{
    u64::from(facts.es(p)) + wcet(facts.instance(), p)
}

/// Whether process `q` isn't known to start as late as `p` ends at least.
pub fn pushes(facts: &Facts, p: u32, q: u32) -> bool {
    are_there(facts.instance(), p, q) && u64::from(facts.es(q)) < least_end(facts, p)
}

/// Whether process `p` isn't known to end as early as `q` starts at most.
pub fn pulls(facts: &Facts, p: u32, q: u32) -> bool {
    let instance = facts.instance();
    are_there(instance, p, q) && u64::from(facts.le(p)) + wcet(instance, q) > u64::from(facts.le(q))
}

/// Whether process `q` can't run after `p` has, where it isn't known which of them goes before the other.
pub fn is_too_late(facts: &Facts, p: u32, q: u32) -> bool {
    let instance = facts.instance();
    are_there(instance, p, q)
        && u64::from(facts.le(q)) < least_end(facts, p) + wcet(instance, q)
        && !facts.bef(p, q)
        && !facts.bef(q, p)
}

/// Whether process `p` has no time.
pub fn has_no_time(facts: &Facts, p: u32) -> bool {
    are_there(facts.instance(), p, p) && least_end(facts, p) > u64::from(facts.le(p))
}

/// Whether message `m` has no round.
pub fn has_no_round(facts: &Facts, m: u32) -> bool {
    (m as usize) < facts.instance().messages().len() && facts.lo(m) >= facts.top(m)
}
