//! What is used of a path where messages of some rounds are too many for frames?

ghost use Rattle.std.specs.Prelude.{◌≡◌, ℕ, ◌<◌, ◌≤◌, ◌==◌, length, IsTrue};
ghost use Rattle.ttp_model.specs.Instance.{message_at};
ghost use Rattle.ttp_model.specs.Limits.{both_channels};
ghost use Rattle.ttp_model.specs.Network.{messages_of};
ghost use Rattle.tt_infer.specs.Sources.{Frames, Halves};
ghost use Rattle.tt_choice.specs.Kept.{sets_least, sets_greatest};
ghost use Rattle.sought_plans.specs.Known.{Known, lo_of, top_of};
ghost use Rattle.sought_plans.specs.Premises.{counts_on};
ghost use Rattle.tt_infer.specs.declared.fact.Fact.TheVariants.{FirstRound};
ghost use Rattle.tt_infer.specs.declared.limit.Limit.TheVariants.{Copies};
ghost use Rattle.used_decisions.specs.Turns.{last_of, fixes_any};
ghost use Rattle.used_decisions.specs.Uses.{IsMore};
ghost use Rattle.used_decisions.specs.Steps.{IsReadOf, IsSourceRead, IsSentWithin, AreRoundsKnown, TellsFact, TellsSending, TellsFrame, TellsHalf, TellsEach, TellsLimit, choice_of, is_below, is_from, fixes_so};

use crate::given::Given;
use crate::parts::{channel, greatest, least};
use crate::path::Path;
use crate::uses::Uses;
use ttp_model::{BOTH_CHANNELS, Instance, is_on};

/// Whether a branch says that a message is sent before round `r`.
pub fn ends_before(path: &Path, m: u32, r: u32) -> bool
    ensures { m < length path.now.instance.messages
        → result ≡ is_below r (last_of (sets_greatest m) path.now.turns) }
{
    match path.greatest(m) {
        Some(cut) => cut.round < r,
        None => false,
    }
}

/// Whether a branch says that it is sent from round `r` on.
fn begins_from(path: &Path, m: u32, r: u32) -> bool
    ensures { m < length path.now.instance.messages
        → result ≡ is_from r (last_of (sets_least m) path.now.turns) }
{
    match path.least(m) {
        Some(cut) => r <= cut.round,
        None => false,
    }
}

/// Whether a branch says that a message is on both channels.
pub fn is_put_on_both(path: &Path, m: u32) -> bool
    ensures { m < length path.now.instance.messages
        → result ≡ fixes_so (λ k. k == both_channels) (last_of (fixes_any m) path.now.turns) }
{
    match path.channel(m) {
        Some(on) => on.channel == BOTH_CHANNELS,
        None => false,
    }
}

/// Whether a message is there and is to be on both channels.
pub fn needs_both(instance: &Instance, m: u32) -> bool
    ensures { m < length instance.now.messages → result ≡ (message_at instance.now m).both }
{
    if (m as usize) < instance.messages().len() {
        instance.message_at(m as usize).both
    } else {
        false
    }
}

/// Whether a message may be known to be sent before round `b`.
pub fn may_end(given: &Given, path: &Path, m: u32, b: u32) -> bool
    ensures { (f : Known) → AreRoundsKnown path.now given.now f → m < length path.now.instance.messages
        → top_of f m ≤ b → IsTrue result }
{
    if ends_before(path, m, b) {
        return true;
    }
    if given.has_greatest(m) {
        return true;
    }
    path.instance().cluster().horizon <= b
}

/// Whether a message may be known to be sent from round `a` on.
fn may_begin(given: &Given, path: &Path, m: u32, a: u32) -> bool
    ensures { (f : Known) → AreRoundsKnown path.now given.now f → m < length path.now.instance.messages
        → a ≤ lo_of f m → IsTrue result }
{
    if a == 0 {
        return true;
    }
    if given.has_least(m) {
        return true;
    }
    begins_from(path, m, a)
}

/// Whether a message may be known to be sent from round `a` on and before `b`.
fn may_count(given: &Given, path: &Path, m: u32, a: u32, b: u32) -> bool
    ensures { (f : Known) → AreRoundsKnown path.now given.now f → m < length path.now.instance.messages
        → IsSentWithin f a b m → IsTrue result }
{
    if may_end(given, path, m, b) {
        return may_begin(given, path, m, a);
    }
    false
}

/// The least round of a message that counts from round `a` on.
fn first_of(given: &Given, path: &Path, m: u32, a: u32, uses: &mut Uses)
    ensures more { IsMore uses.old uses.new }
    ensures told { IsReadOf path.now uses.old → m < length path.now.instance.messages → 1 ≤ a
        → TellsFact path.now given.now uses.new (FirstRound m) }
{
    if a == 0 {
        return;
    }
    least(given, path, m, uses);
}

/// The rounds of a message that counts from round `a` on.
fn sending(given: &Given, path: &Path, m: u32, a: u32, uses: &mut Uses)
    ensures more { IsMore uses.old uses.new }
    ensures told { IsReadOf path.now uses.old → m < length path.now.instance.messages
        → TellsSending path.now given.now uses.new a m }
{
    greatest(given, path, m, uses);
    first_of(given, path, m, a, uses);
}

/// The branch that put a message on both channels, if one did.
pub fn twice(path: &Path, m: u32, uses: &mut Uses)
    ensures more { IsMore uses.old uses.new }
    ensures told { IsReadOf path.now uses.old → m < length path.now.instance.messages
        → TellsLimit path.now uses.new (Copies m) }
{
    if is_put_on_both(path, m) {
        channel(path, m, uses);
    }
}

/// What is used of one message where it counts from round `a` on and before `b`.
fn frame(given: &Given, path: &Path, m: u32, a: u32, b: u32, uses: &mut Uses)
    ensures more { IsMore uses.old uses.new }
    ensures told { IsReadOf path.now uses.old → m < length path.now.instance.messages
        → TellsFrame path.now given.now uses.new a b m }
{
    if may_count(given, path, m, a, b) {
        sending(given, path, m, a, uses);
        twice(path, m, uses);
    }
}

/// What is used of the messages of node `n`.
fn each_frame(given: &Given, path: &Path, n: u32, a: u32, b: u32, uses: &mut Uses)
    ensures more { IsMore uses.old uses.new }
    ensures told { IsReadOf path.now uses.old
        → TellsEach (λ uses m. TellsFrame path.now given.now uses a b m) (messages_of path.now.instance n) uses.new }
{
    for m in path.instance().messages_of(n) {
        frame(given, path, *m, a, b, uses);
    }
}

/// That a node's messages of some rounds are too many for its frames.
pub fn frames(given: &Given, path: &Path, n: u32, a: u32, b: u32, uses: &mut Uses)
    ensures more { IsMore uses.old uses.new }
    ensures told { IsReadOf path.now uses.old → IsSourceRead path.now given.now uses.new (Frames n a b) }
{
    uses.branch(path.below_most(n));
    each_frame(given, path, n, a, b, uses);
}

/// Whether a message may be known to be on channel `k`: a branch fixed it, or it is to be on both.
fn may_count_on(path: &Path, k: u32, m: u32) -> bool
    ensures { m < length path.now.instance.messages → 2 ≤ path.now.instance.cluster.channels
        → IsTrue (counts_on (choice_of path.now) k m) → IsTrue result }
{
    match path.channel(m) {
        Some(on) => is_on(k, on.channel),
        None => needs_both(path.instance(), m),
    }
}

/// Whether a message may be known to be sent from round `a` on and before `b`, on channel `k`.
fn may_count_half(given: &Given, path: &Path, k: u32, m: u32, a: u32, b: u32) -> bool
    ensures { (f : Known) → AreRoundsKnown path.now given.now f → m < length path.now.instance.messages
        → 2 ≤ path.now.instance.cluster.channels → IsTrue (counts_on (choice_of path.now) k m) → IsSentWithin f a b m → IsTrue result }
{
    if may_count(given, path, m, a, b) {
        return may_count_on(path, k, m);
    }
    false
}

/// What is used of one message where it counts so on channel `k`.
fn half(given: &Given, path: &Path, k: u32, m: u32, a: u32, b: u32, uses: &mut Uses)
    ensures more { IsMore uses.old uses.new }
    ensures told { IsReadOf path.now uses.old → 2 ≤ path.now.instance.cluster.channels → m < length path.now.instance.messages
        → TellsHalf path.now given.now uses.new k a b m }
{
    if may_count_half(given, path, k, m, a, b) {
        sending(given, path, m, a, uses);
        channel(path, m, uses);
    }
}

/// What is used of the messages of node `n` that are on channel `k`.
fn each_half(given: &Given, path: &Path, k: u32, n: u32, a: u32, b: u32, uses: &mut Uses)
    ensures more { IsMore uses.old uses.new }
    ensures told { IsReadOf path.now uses.old → 2 ≤ path.now.instance.cluster.channels
        → TellsEach (λ uses m. TellsHalf path.now given.now uses k a b m) (messages_of path.now.instance n) uses.new }
{
    for m in path.instance().messages_of(n) {
        half(given, path, k, *m, a, b, uses);
    }
}

/// That those of them that are on channel `k` are too many for it.
pub fn halves(given: &Given, path: &Path, k: u32, n: u32, a: u32, b: u32, uses: &mut Uses)
    ensures more { IsMore uses.old uses.new }
    ensures told { IsReadOf path.now uses.old → IsSourceRead path.now given.now uses.new (Halves k n a b) }
{
    uses.branch(path.below_most(n));
    each_half(given, path, k, n, a, b, uses);
}
