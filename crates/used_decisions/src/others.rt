//! What is used of a path where a message could be sent earlier?

ghost use Rattle.std.specs.Prelude.{◌≡◌, ◌≢◌, ◌<◌, ◌⊎◌, length, IsTrue, IsFalse};
ghost use Rattle.ttp_model.specs.Network.{messages_of};
ghost use Rattle.tt_infer.specs.Sources.{Earlier};
ghost use Rattle.tt_choice.specs.Kept.{sets_least};
ghost use Rattle.used_decisions.specs.Turns.{last_of};
ghost use Rattle.used_decisions.specs.Given.{gives_least};
ghost use Rattle.used_decisions.specs.Uses.{IsMore};
ghost use Rattle.used_decisions.specs.Steps.{IsReadOf, IsSourceRead, TellsKeptOut, TellsEach, is_behind};

use crate::given::Given;
use crate::parts::{greatest, least, least_frame, least_slot, source};
use crate::path::Path;
use crate::spans::ends_before;
use crate::uses::Uses;

/// Whether a branch says that a message is sent after round `r`.
fn begins_behind(path: &Path, m: u32, r: u32) -> bool
    ensures { m < length path.now.instance.messages
        → result ≡ is_behind r (last_of (sets_least m) path.now.turns) }
{
    match path.least(m) {
        Some(cut) => r < cut.round,
        None => false,
    }
}

/// The same, where no step gave the message's least round.
fn is_later(given: &Given, path: &Path, m: u32, r: u32) -> bool
    ensures given { IsTrue result → IsFalse (gives_least given.now m) }
    ensures behind { IsTrue result → m < length path.now.instance.messages
        → IsTrue (is_behind r (last_of (sets_least m) path.now.turns)) }
    ensures no { IsFalse result → m < length path.now.instance.messages
        → IsTrue (gives_least given.now m) ⊎ IsFalse (is_behind r (last_of (sets_least m) path.now.turns)) }
{
    if given.has_least(m) {
        return false;
    }
    begins_behind(path, m, r)
}

/// That a message can't be sent in round `r`, where a branch says so.
fn not_in_round(given: &Given, path: &Path, m: u32, r: u32, uses: &mut Uses)
    ensures more { IsMore uses.old uses.new }
    ensures told { IsReadOf path.now uses.old → m < length path.now.instance.messages
        → TellsKeptOut path.now given.now uses.new r m }
{
    if is_later(given, path, m, r) {
        least(given, path, m, uses);
        return;
    }
    if ends_before(path, m, r) {
        greatest(given, path, m, uses);
    }
}

/// The same of a message that is another one.
fn other(given: &Given, path: &Path, m: u32, k: u32, r: u32, uses: &mut Uses)
    ensures more { IsMore uses.old uses.new }
    ensures told { IsReadOf path.now uses.old → k < length path.now.instance.messages → k ≢ m
        → TellsKeptOut path.now given.now uses.new r k }
{
    if k == m {
        return;
    }
    not_in_round(given, path, k, r, uses);
}

/// That other messages of node `n` than one can't be sent in round `r`.
fn others(given: &Given, path: &Path, m: u32, n: u32, r: u32, uses: &mut Uses)
    ensures more { IsMore uses.old uses.new }
    ensures told { IsReadOf path.now uses.old
        → TellsEach (λ uses k. k ≢ m → TellsKeptOut path.now given.now uses r k) (messages_of path.now.instance n) uses.new }
{
    for k in path.instance().messages_of(n) {
        other(given, path, m, *k, r, uses);
    }
}

/// What shows that a message could be sent in round `r`, which is an earlier one.
pub fn late(given: &Given, path: &Path, m: u32, r: u32, uses: &mut Uses)
    ensures more { IsMore uses.old uses.new }
    ensures told { IsReadOf path.now uses.old → IsSourceRead path.now given.now uses.new (Earlier m r) }
{
    let n = source(path.instance(), m);
    least_slot(path, m, uses);
    least_frame(path, m, uses);
    least(given, path, m, uses);
    others(given, path, m, n, r, uses);
}
