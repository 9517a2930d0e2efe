//! Which processes or nodes can be exchanged without a difference to any plan's delay?

ghost use Rattle.std.specs.Prelude.{◌≢◌, ◌<◌, ◌↔◌, IsTrue, ℕ, length};
ghost use Rattle.ttp_model.specs.Instance.{source_of};
ghost use Rattle.ttp_model.specs.Twins.{AreTwins, AreSilentTwins};
ghost use Rattle.tt_moves.specs.Alike.{Agree, AreLike, AreUnlinked, HasNoMessages, HaveSameLinks, Involves, SharesPredecessors, SharesSuccessors};

use ttp_model::{Instance, has_link};

/// Whether two processes are twins, by their indices: not so where one isn't there. Costs at most
/// a step for each two links and one for each message and receiver.
pub fn twins(instance: &Instance, p: u32, q: u32) -> bool
    ensures { IsTrue result ↔ AreTwins instance.now p q }
{
    let count = instance.processes().len();
    if p as usize >= count || q as usize >= count {
        return false;
    }
    agree(instance, p, q)
}

/// Whether two processes agree as twins do.
fn agree(instance: &Instance, p: u32, q: u32) -> bool
    requires first { p < length instance.now.processes }
    requires second { q < length instance.now.processes }
    ensures { IsTrue result ↔ Agree instance.now p q }
{
    are_like(instance, p, q)
        && are_unlinked(instance, p, q)
        && have_same_links(instance, p, q)
        && has_no_messages(instance, p)
        && has_no_messages(instance, q)
}

/// Whether two processes are on one node and have the same times.
fn are_like(instance: &Instance, p: u32, q: u32) -> bool
    requires first { p < length instance.now.processes }
    requires second { q < length instance.now.processes }
    ensures { IsTrue result ↔ AreLike instance.now p q }
{
    let one = instance.process_at(p as usize);
    let other = instance.process_at(q as usize);
    p != q
        && one.node == other.node
        && one.wcet == other.wcet
        && one.release == other.release
        && one.deadline == other.deadline
}

/// Whether each process that links to `p` links to `q` too.
fn shares_predecessors(instance: &Instance, p: u32, q: u32) -> bool
    ensures { IsTrue result ↔ SharesPredecessors instance.now p q }
{
    for l in 0..instance.links().len() {
        let link = instance.link_at(l);
        if link.after == p && !has_link(instance, link.before, q) {
            return false;
        }
    }
    true
}

/// Whether `q` links to each process that `p` links to.
fn shares_successors(instance: &Instance, p: u32, q: u32) -> bool
    ensures { IsTrue result ↔ SharesSuccessors instance.now p q }
{
    for l in 0..instance.links().len() {
        let link = instance.link_at(l);
        if link.before == p && !has_link(instance, q, link.after) {
            return false;
        }
    }
    true
}

/// Whether the links of two processes are the same.
fn have_same_links(instance: &Instance, p: u32, q: u32) -> bool
    ensures { IsTrue result ↔ HaveSameLinks instance.now p q }
{
    shares_predecessors(instance, p, q)
        && shares_predecessors(instance, q, p)
        && shares_successors(instance, p, q)
        && shares_successors(instance, q, p)
}

/// Whether no link leads from one of two processes to the other.
fn are_unlinked(instance: &Instance, p: u32, q: u32) -> bool
    ensures { IsTrue result ↔ AreUnlinked instance.now p q }
{
    !has_link(instance, p, q) && !has_link(instance, q, p)
}

/// Whether a process neither sends nor receives.
fn has_no_messages(instance: &Instance, p: u32) -> bool
    ensures { IsTrue result ↔ HasNoMessages instance.now p }
{
    for m in 0..instance.messages().len() {
        if involves(instance, m, p) {
            return false;
        }
    }
    true
}

/// Whether a process sends or receives a message.
fn involves(instance: &Instance, m: usize, p: u32) -> bool
    requires { m < length instance.now.messages }
    ensures { IsTrue result ↔ Involves instance.now m p }
{
    let message = instance.message_at(m);
    message.sender == p || message.receivers.contains(p)
}

/// Whether two nodes are silent twins, by their indices: not so where one isn't there. Costs a
/// step for each message.
pub fn silent_twins(instance: &Instance, u: u32, v: u32) -> bool
    ensures { IsTrue result ↔ AreSilentTwins instance.now u v }
{
    let nodes = instance.nodes();
    if u as usize >= nodes.len() || v as usize >= nodes.len() {
        return false;
    }
    u != v
        && is_silent(instance, u)
        && is_silent(instance, v)
        && nodes[u as usize].capacities == nodes[v as usize].capacities
}

/// Whether no process of a node sends.
fn is_silent(instance: &Instance, u: u32) -> bool
    ensures { IsTrue result ↔ ((m : ℕ) → m < length instance.now.messages → source_of instance.now m ≢ u) }
{
    for m in 0..instance.messages().len() {
        if instance.source_of(m) == u {
            return false;
        }
    }
    true
}
