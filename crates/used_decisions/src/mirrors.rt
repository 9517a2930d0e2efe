//! What is used of a path where a message leads turned frames alone?

ghost use Rattle.std.specs.Prelude.{◌≡◌, ◌<◌, ◌≤◌, ◌⊎◌, length, IsTrue};
ghost use Rattle.ttp_model.specs.Network.{messages_of};
ghost use Rattle.tt_infer.specs.Sources.{Lower};
ghost use Rattle.tt_choice.specs.Kept.{sets_least};
ghost use Rattle.sought_plans.specs.Known.{Known, lo_of, top_of};
ghost use Rattle.used_decisions.specs.Turns.{last_of};
ghost use Rattle.used_decisions.specs.Uses.{IsMore};
ghost use Rattle.used_decisions.specs.Steps.{IsReadOf, IsSourceRead, AreRoundsKnown, TellsAside, TellsEach, TellsRoundsApart, round_said};

use crate::given::Given;
use crate::parts::{channel, rounds, source};
use crate::path::Path;
use crate::spans::{is_put_on_both, may_end, needs_both, twice};
use crate::uses::Uses;

/// The least round of a message, as far as a branch decided it.
fn first_round(path: &Path, m: u32) -> u32
    ensures { m < length path.now.instance.messages
        → result ≡ round_said 0 (last_of (sets_least m) path.now.turns) }
{
    match path.least(m) {
        Some(cut) => cut.round,
        None => 0,
    }
}

/// Whether message `k` may be known to be sent before message `m`.
fn may_go_first(given: &Given, path: &Path, k: u32, m: u32) -> bool
    ensures { (f : Known) → AreRoundsKnown path.now given.now f
        → k < length path.now.instance.messages → m < length path.now.instance.messages
        → top_of f k ≤ lo_of f m → IsTrue result }
{
    if given.has_least(m) {
        return true;
    }
    may_end(given, path, k, first_round(path, m))
}

/// Whether two messages may be known to be in no round together.
fn may_be_apart(given: &Given, path: &Path, m: u32, k: u32) -> bool
    ensures { (f : Known) → AreRoundsKnown path.now given.now f
        → k < length path.now.instance.messages → m < length path.now.instance.messages
        → (top_of f k ≤ lo_of f m) ⊎ (top_of f m ≤ lo_of f k) → IsTrue result }
{
    if may_go_first(given, path, k, m) {
        return true;
    }
    may_go_first(given, path, m, k)
}

/// Whether a message is known to be on both channels: a branch put it there, or it is to be.
fn is_on_both(path: &Path, m: u32) -> bool {
    is_put_on_both(path, m) || needs_both(path.instance(), m)
}

/// Whether it is for their rounds that two messages keep aside, or may be.
fn rounds_count(given: &Given, path: &Path, m: u32, k: u32) -> bool
    ensures { (f : Known) → AreRoundsKnown path.now given.now f
        → k < length path.now.instance.messages → m < length path.now.instance.messages
        → (top_of f k ≤ lo_of f m) ⊎ (top_of f m ≤ lo_of f k) → IsTrue result }
{
    if may_be_apart(given, path, m, k) {
        return true;
    }
    !is_on_both(path, k)
}

/// The rounds of two messages, where these count.
fn apart(given: &Given, path: &Path, m: u32, k: u32, uses: &mut Uses)
    ensures more { IsMore uses.old uses.new }
    ensures told { IsReadOf path.now uses.old
        → k < length path.now.instance.messages → m < length path.now.instance.messages
        → TellsRoundsApart path.now given.now uses.new m k }
{
    if rounds_count(given, path, m, k) {
        rounds(given, path, k, uses);
        rounds(given, path, m, uses);
    }
}

/// That a message is on both channels, or else in no round together with another.
fn aside(given: &Given, path: &Path, m: u32, k: u32, uses: &mut Uses)
    ensures more { IsMore uses.old uses.new }
    ensures told { IsReadOf path.now uses.old
        → k < length path.now.instance.messages → m < length path.now.instance.messages
        → TellsAside path.now given.now uses.new m k }
{
    twice(path, k, uses);
    apart(given, path, m, k, uses);
}

/// The same of a lower message.
fn lower(given: &Given, path: &Path, m: u32, k: u32, uses: &mut Uses)
    ensures more { IsMore uses.old uses.new }
    ensures told { IsReadOf path.now uses.old → m < length path.now.instance.messages → k < m
        → TellsAside path.now given.now uses.new m k }
{
    if k < m {
        aside(given, path, m, k, uses);
    }
}

/// The same of each lower message of node `n`.
fn each_lower(given: &Given, path: &Path, m: u32, n: u32, uses: &mut Uses)
    ensures more { IsMore uses.old uses.new }
    ensures told { IsReadOf path.now uses.old → m < length path.now.instance.messages
        → TellsEach (λ uses k. k < m → TellsAside path.now given.now uses m k) (messages_of path.now.instance n) uses.new }
{
    for k in path.instance().messages_of(n) {
        lower(given, path, m, *k, uses);
    }
}

/// That a message is on channel 1, and that no lower one of its node may lead its frame.
pub fn mirror(given: &Given, path: &Path, m: u32, uses: &mut Uses)
    ensures more { IsMore uses.old uses.new }
    ensures told { IsReadOf path.now uses.old → IsSourceRead path.now given.now uses.new (Lower m) }
{
    let n = source(path.instance(), m);
    channel(path, m, uses);
    each_lower(given, path, m, n, uses);
}
