//! Is what a step names there?

ghost use Rattle.std.specs.Prelude.{ℕ, ◌<◌, ◌↔◌, length, IsTrue};
ghost use Rattle.tt_choice.specs.Choice.{ArePair};
ghost use Rattle.sought_plans.specs.Premises.{GoesTo};

use ttp_model::Instance;

/// Whether `p` and `q` are two processes of one node.
pub fn are_pair(instance: &Instance, p: u32, q: u32) -> bool
    ensures { IsTrue result ↔ ArePair instance.now p q }
{
    let count = instance.processes().len();
    if p as usize >= count || q as usize >= count || p == q {
        return false;
    }
    instance.node_of(p as usize) == instance.node_of(q as usize)
}

/// Whether message `m` is there, and process `q` receives it. One pass over its receivers.
pub fn receives(instance: &Instance, m: u32, q: u32) -> bool
    ensures is { IsTrue result ↔ GoesTo instance.now m q }
    ensures inside { IsTrue result → q < length instance.now.processes }
{
    if m as usize >= instance.messages().len() {
        return false;
    }
    instance.message_at(m as usize).receivers.contains(q)
}
