//! What is used of a path where a fact or a limit is read?

ghost use Rattle.std.specs.Prelude.{◌≡◌, ◌<◌, length};
ghost use Rattle.ttp_model.specs.Instance.{source_of};
ghost use Rattle.tt_infer.specs.declared.fact.Fact.TheVariants.{FirstRound, LateRound, Order};
ghost use Rattle.tt_infer.specs.declared.limit.Limit.TheVariants.{LeastSlot, GreatestSlot, LeastFrame};
ghost use Rattle.used_decisions.specs.Turns.{last_of, fixes_any};
ghost use Rattle.used_decisions.specs.Marks.{IsTold};
ghost use Rattle.used_decisions.specs.Uses.{IsMore};
ghost use Rattle.used_decisions.specs.Steps.{IsReadOf, TellsFact, TellsLimit};

use crate::given::Given;
use crate::path::Path;
use crate::uses::Uses;
use ttp_model::Instance;

/// The node that a message is sent from: 0 where the message isn't there.
pub fn source(instance: &Instance, m: u32) -> u32
    ensures value { m < length instance.now.messages → result ≡ source_of instance.now m }
    ensures inside { m < length instance.now.messages → result < length instance.now.nodes }
{
    if (m as usize) < instance.messages().len() {
        instance.source_of(m as usize)
    } else {
        0
    }
}

/// That a process goes before another.
pub fn order(given: &Given, path: &Path, p: u32, q: u32, uses: &mut Uses)
    ensures more { IsMore uses.old uses.new }
    ensures told { IsReadOf path.now uses.old → p < length path.now.instance.processes → q < length path.now.instance.processes
        → TellsFact path.now given.now uses.new (Order p q) }
{
    if given.has_before(p, q) {
        return;
    }
    uses.branch(path.before(p, q));
}

/// The least round of a message.
pub fn least(given: &Given, path: &Path, m: u32, uses: &mut Uses)
    ensures more { IsMore uses.old uses.new }
    ensures told { IsReadOf path.now uses.old → m < length path.now.instance.messages
        → TellsFact path.now given.now uses.new (FirstRound m) }
{
    if given.has_least(m) {
        return;
    }
    uses.cut(path.least(m));
}

/// The greatest round of a message.
pub fn greatest(given: &Given, path: &Path, m: u32, uses: &mut Uses)
    ensures more { IsMore uses.old uses.new }
    ensures told { IsReadOf path.now uses.old → m < length path.now.instance.messages
        → TellsFact path.now given.now uses.new (LateRound m) }
{
    if given.has_greatest(m) {
        return;
    }
    uses.cut(path.greatest(m));
}

/// Both.
pub fn rounds(given: &Given, path: &Path, m: u32, uses: &mut Uses)
    ensures more { IsMore uses.old uses.new }
    ensures first { IsReadOf path.now uses.old → m < length path.now.instance.messages
        → TellsFact path.now given.now uses.new (FirstRound m) }
    ensures late { IsReadOf path.now uses.old → m < length path.now.instance.messages
        → TellsFact path.now given.now uses.new (LateRound m) }
{
    least(given, path, m, uses);
    greatest(given, path, m, uses);
}

/// When the slot of a message's node begins or ends at least.
pub fn least_slot(path: &Path, m: u32, uses: &mut Uses)
    ensures more { IsMore uses.old uses.new }
    ensures told { m < length path.now.instance.messages
        → TellsLimit path.now uses.new (LeastSlot (source_of path.now.instance m)) }
{
    let n = source(path.instance(), m);
    uses.least_slot(path, n);
}

/// When it begins or ends at most.
pub fn greatest_slot(path: &Path, m: u32, uses: &mut Uses)
    ensures more { IsMore uses.old uses.new }
    ensures told { m < length path.now.instance.messages
        → TellsLimit path.now uses.new (GreatestSlot (source_of path.now.instance m)) }
{
    let n = source(path.instance(), m);
    uses.greatest_slot(path, n);
}

/// The least capacity of a message's node.
pub fn least_frame(path: &Path, m: u32, uses: &mut Uses)
    ensures more { IsMore uses.old uses.new }
    ensures told { IsReadOf path.now uses.old → m < length path.now.instance.messages
        → TellsLimit path.now uses.new (LeastFrame (source_of path.now.instance m)) }
{
    let n = source(path.instance(), m);
    uses.branch(path.above_least(n));
}

/// The channel of a message.
pub fn channel(path: &Path, m: u32, uses: &mut Uses)
    ensures more { IsMore uses.old uses.new }
    ensures told { IsReadOf path.now uses.old → m < length path.now.instance.messages
        → IsTold uses.new.levels (last_of (fixes_any m) path.now.turns) }
{
    uses.channel(path.channel(m));
}
