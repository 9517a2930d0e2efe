//! What is told of a certificate, and of lost frames?

ghost use Rattle.std.specs.Prelude.{◌≡◌, ℕ};
ghost use Rattle.command_streams.specs.Outcomes.{IsWritten};
ghost use Rattle.plan_commands.specs.LossWords.{bytes_of};
ghost use Rattle.evidence.specs.Tellings.{HasWrongLoss, TellsItsBound, TracesLosses};

use command_streams::{End, Fault};
use plan_commands::{check_run, replay_run};
use std::alloc::Global;
use std::io::Write;
use std::thread::Threads;

/// The bound that is told is the certificate's.
pub fn bound_told_is_the_certificates<W: Write>(
    rt: &(impl Threads + Sync),
    alloc: Global,
    is_long: bool,
    instance: &[u8],
    certificate: &[u8],
    out: &mut W,
) -> End
    ensures { result ≡ End.Done → IsWritten
        (TellsItsBound instance.now certificate.now) (W.contents out.old) (W.contents out.new) }
{
    let (mut instance, mut certificate) = (instance, certificate);
    check_run(rt, alloc, is_long, &mut instance, &mut certificate, out)
}

/// The cycle that is told is the one in which the frames that words name are lost.
pub fn named_frames_are_lost<W: Write>(
    alloc: Global,
    instance: &[u8],
    plan: &[u8],
    words: &[&str],
    out: &mut W,
) -> End
    ensures { result ≡ End.Done → IsWritten
        (TracesLosses (bytes_of words.now) instance.now plan.now) (W.contents out.old) (W.contents out.new) }
{
    let (mut instance, mut plan) = (instance, plan);
    replay_run(alloc, &mut instance, &mut plan, words, out)
}

/// Of the word whose loss can't be some loss can't be.
pub fn wrong_loss_is_of_the_word_told<W: Write>(
    alloc: Global,
    instance: &[u8],
    plan: &[u8],
    words: &[&str],
    out: &mut W,
) -> End
    ensures { (k : ℕ) → result ≡ End.Refused (Fault.WrongLoss k)
        → HasWrongLoss (bytes_of words.now) instance.now plan.now k }
{
    let (mut instance, mut plan) = (instance, plan);
    replay_run(alloc, &mut instance, &mut plan, words, out)
}
