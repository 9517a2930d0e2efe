//! Which losses do words name?

ghost use Rattle.std.specs.Prelude.{◌≡◌, ◌<◌, ◌++◌, ◌^◌, ℕ, List, IfOk, IfSome, IfNone, IsSome, MatchResult, OnOk, decimal, length, map};
ghost use Rattle.membership_replay.specs.Trace.{row_at};
ghost use Rattle.plan_commands.specs.LossWords.{AllSpell, AreInRange, HasNodes, IsLossWord, IsWordFault, IsWordOfLoss, Spells, bytes_of, is_in_cycle, loss_at, losses_everywhere, losses_of_word, losses_of_words, receivers_of, receivers_text};
ghost use Rattle.plan_commands.specs.declared.losses.LossWord.{LossWord};
ghost use Rattle.plan_commands.specs.declared.losses.Receivers.{Receivers};

use command_streams::Fault;
use line_text::{NumberWord, cut, number_word};
use medl_tables::Medl;
use membership_replay::Loss;
use std::alloc::{AllocError, Global};

/// Where a frame is lost.
#[derive(Clone, Copy, PartialEq, Eq)]
pub enum Receivers {
    /// At one node, by its index.
    One(u32),
    /// At all nodes but its sender.
    Every,
}

/// A loss as a word names it.
#[derive(Clone, Copy, PartialEq, Eq)]
pub struct LossWord {
    /// The round of the frame's slot, from 0.
    pub round: u32,
    /// The position of the slot in the order, from 0.
    pub slot: u32,
    pub receivers: Receivers,
}

/// The number that a word spells, if it spells one that fits.
fn number_in(word: &[u8]) -> Option<u32>
    ensures some { IfSome result (λ n. (word.now ≡ decimal n) × (n < 2 ^ 32)) }
    ensures only { (n : ℕ) → word.now ≡ decimal n → n < 2 ^ 32 → IsSome result }
{
    match number_word(word) {
        NumberWord::Number(n) => Some(n),
        NumberWord::Malformed => None,
        NumberWord::TooLarge => None,
    }
}

/// The receivers that a word names: a node's index, or `*` for all.
fn receivers_in(word: &[u8]) -> Option<Receivers>
    ensures some { IfSome result (λ at. (word.now ≡ receivers_text at) × AreInRange at) }
    ensures only { (at : Receivers) → word.now ≡ receivers_text at → AreInRange at → IsSome result }
{
    if word == b"*".as_slice() {
        return Some(Receivers::Every);
    }
    match number_in(word) {
        Some(n) => Some(Receivers::One(n)),
        None => None,
    }
}

/// What a word `ROUND/SLOT/NODE` says, or nothing where it is malformed.
pub fn loss_in(word: &[u8]) -> Option<LossWord>
    ensures some { IfSome result (Spells word.now) }
    ensures none { IfNone result (¬ IsLossWord word.now) }
{
    let (round, rest) = cut(b'/', word)?;
    let (slot, receivers) = cut(b'/', rest)?;
    Some(LossWord {
        round: number_in(round)?,
        slot: number_in(slot)?,
        receivers: receivers_in(receivers)?,
    })
}

/// A word says one thing at most. This function does nothing: its contract is the law.
pub fn words_spell_one_loss()
    ensures { (word : List ℕ) (a b : LossWord) → Spells word a → Spells word b → a ≡ b }
{}

/// What the words say, or the first that is malformed.
pub fn losses_in(alloc: Global, words: &[&str]) -> Result<Vec<LossWord>, Fault>
    ensures { MatchResult result
        (λ losses. AllSpell (bytes_of words.now) losses.items)
        (IsWordFault (bytes_of words.now)) }
{
    let mut losses = Vec::with_capacity(alloc, words.len())?;
    for (k, word) in words.iter().enumerate() {
        let Some(loss) = loss_in(word.as_bytes()) else {
            return Err(Fault::LossForm(k));
        };
        losses.push(loss)?;
    }
    Ok(losses)
}

/// The loss of a word's frame at a node.
fn loss_at(word: LossWord, n: u32) -> Loss
    ensures { result ≡ loss_at word n }
{
    Loss {
        round: word.round,
        slot: word.slot,
        receiver: n,
    }
}

/// Whether the word's slot is one of the cycle.
fn is_in_cycle(medl: &Medl, word: LossWord) -> bool
    ensures { result ≡ is_in_cycle medl.now word }
{
    word.round < medl.rounds() && (word.slot as usize) < medl.nodes()
}

/// The sender of the slot at a position of the order.
fn sender_at(medl: &Medl, slot: u32) -> u32
    requires { HasNodes medl.now }
    ensures { result ≡ (row_at medl.now 0 slot).sender }
{
    let rows = medl.rows(0);
    if (slot as usize) < rows.len() {
        rows[slot as usize].sender
    } else {
        0
    }
}

/// Adds a loss at each receiver of a word's frame.
fn push_receivers(losses: &mut Vec<Loss>, medl: &Medl, word: LossWord) -> Result<(), AllocError>
    requires { HasNodes medl.now }
    ensures { OnOk result (losses.new.items ≡ losses.old.items
        ++ map (loss_at word) (receivers_of medl.now word.slot)) }
{
    let sender = sender_at(medl, word.slot);
    for n in 0..medl.nodes() {
        if n != sender as usize {
            losses.push(loss_at(word, n as u32))?;
        }
    }
    Ok(())
}

/// Adds what `*` stands for.
fn push_everywhere(losses: &mut Vec<Loss>, medl: &Medl, word: LossWord) -> Result<(), AllocError>
    requires { HasNodes medl.now }
    ensures { OnOk result (losses.new.items ≡ losses.old.items ++ losses_everywhere medl.now word) }
{
    if is_in_cycle(medl, word) {
        return push_receivers(losses, medl, word);
    }
    losses.push(loss_at(word, 0))?;
    Ok(())
}

/// Adds the losses that a word stands for.
#[tactic(auto, unfolding(crate::specs::LossWords::losses_of_word))]
fn push_losses(losses: &mut Vec<Loss>, medl: &Medl, word: LossWord) -> Result<(), AllocError>
    requires { HasNodes medl.now }
    ensures { OnOk result (losses.new.items ≡ losses.old.items ++ losses_of_word medl.now word) }
{
    match word.receivers {
        Receivers::One(n) => Ok(losses.push(loss_at(word, n))?),
        Receivers::Every => push_everywhere(losses, medl, word),
    }
}

/// The losses that words stand for, one word after another: of `*` at most one for each node.
pub fn losses_of_words(
    alloc: Global,
    medl: &Medl,
    words: &[LossWord],
) -> Result<Vec<Loss>, AllocError>
    requires { HasNodes medl.now }
    ensures { IfOk result (λ losses. losses.items ≡ losses_of_words medl.now words.now) }
{
    let mut losses = Vec::new(alloc);
    for word in words {
        push_losses(&mut losses, medl, *word)?;
    }
    Ok(losses)
}

/// How many losses a word stands for.
#[tactic(auto, unfolding(crate::specs::LossWords::losses_of_word))]
fn loss_count(medl: &Medl, word: LossWord) -> usize
    requires { HasNodes medl.now }
    ensures { result ≡ length (losses_of_word medl.now word) }
{
    match word.receivers {
        Receivers::One(_) => 1,
        Receivers::Every => everywhere_count(medl, word),
    }
}

/// How many losses `*` stands for.
fn everywhere_count(medl: &Medl, word: LossWord) -> usize
    requires { HasNodes medl.now }
    ensures { result ≡ length (losses_everywhere medl.now word) }
{
    if !is_in_cycle(medl, word) {
        return 1;
    }
    receiver_count(medl, word.slot)
}

/// How many nodes don't send in the slot at a position of the order.
fn receiver_count(medl: &Medl, slot: u32) -> usize
    requires { HasNodes medl.now }
    ensures { result ≡ length (receivers_of medl.now slot) }
{
    let sender = sender_at(medl, slot);
    (0..medl.nodes()).filter(|n| *n != sender as usize).count()
}

/// The word that stands for the loss of this index.
pub fn word_of_loss(medl: &Medl, words: &[LossWord], loss: usize) -> usize
    requires nodes { HasNodes medl.now }
    requires inside { loss < length (losses_of_words medl.now words.now) }
    ensures { IsWordOfLoss medl.now words.now loss result }
{
    let mut left = loss;
    for k in 0..words.len() {
        let count = loss_count(medl, words[k]);
        if left < count {
            return k;
        }
        left -= count;
    }
    unreachable!()
}
