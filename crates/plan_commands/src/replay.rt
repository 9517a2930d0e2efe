//! What `replay` says of an instance, a plan and lost frames.

ghost use Rattle.std.specs.Prelude.{◌≡◌, ◌+◌, IfErr, IfSome, MatchResult};
ghost use Rattle.ttp_model.specs.declared.plan.Plan.{Plan as Table};
ghost use Rattle.ttp_model.specs.Plans.{IsValid};
ghost use Rattle.medl_tables.specs.Medl.{AreTables, medl_of};
ghost use Rattle.membership_replay.specs.Losses.{CanBeReplayed, IsFault};
ghost use Rattle.membership_replay.specs.Trace.{replay_of};
ghost use Rattle.std.specs.Io.KnownBytes.{Keeps};
ghost use Rattle.command_streams.specs.declared.limits.TheConstants.{INSTANCE_LIMIT, PLAN_LIMIT};
ghost use Rattle.command_streams.specs.Streams.{TakesAtMost};
ghost use Rattle.command_streams.specs.Instances.{IsOfInstance};
ghost use Rattle.command_streams.specs.Outcomes.{IfRefused};
ghost use Rattle.plan_commands.specs.LossWords.{bytes_of, losses_of_words};
ghost use Rattle.plan_commands.specs.Traces.{IsReplayAnswer, IsTraceFault, IsTraceOf};

use crate::losses::{LossWord, losses_in, losses_of_words, word_of_loss};
use crate::verdict::verified_of_readers;
use command_streams::{End, Fault, end_with};
use medl_tables::Medl;
use membership_replay::{Loss, ReplayFault, Trace, print, replay};
use std::alloc::Global;
use std::io::{Read, Write};
use ttp_model::{Instance, Plan};

/// The replay of tables in which frames are lost, or why there is none.
fn replayed(
    alloc: Global,
    instance: &Instance,
    medl: &Medl,
    losses: &[Loss],
) -> Result<Trace, ReplayFault>
    requires { AreTables instance.now medl.now }
    ensures { MatchResult result
        (λ trace. CanBeReplayed medl.now losses.now × (trace ≡ replay_of medl.now losses.now))
        (IsFault medl.now losses.now) }
{
    replay(alloc, instance, medl, losses)
}

/// The text of the replay of a valid plan's tables, in which the words' frames are lost.
fn text_of_losses(
    alloc: Global,
    instance: &Instance,
    medl: &Medl,
    words: &[LossWord],
    losses: &[Loss],
) -> Result<Vec<u8>, Fault>
    requires tables { AreTables instance.now medl.now }
    requires losses { losses.now ≡ losses_of_words medl.now words.now }
    ensures judged { (plan : Table) → medl.now ≡ medl_of instance.now plan → MatchResult result
        (λ text. IsTraceOf words.now instance.now plan text.items)
        (IsTraceFault words.now instance.now plan) }
    ensures later { IfErr result (λ fault. ¬ IsOfInstance fault) }
{
    let _nodes = instance.nodes();
    match replayed(alloc, instance, medl, losses) {
        Ok(trace) => {
            let text = print(alloc, instance, &trace);
            drop(trace);
            Ok(text?)
        }
        Err(ReplayFault::TooFewNodes) => Err(Fault::TooFewNodes),
        Err(ReplayFault::WrongLoss(k)) => Err(Fault::WrongLoss(word_of_loss(medl, words, k))),
        Err(ReplayFault::OutOfMemory) => Err(Fault::Memory),
    }
}

/// The text of the replay of a valid plan's cycle, in which the words' frames are lost.
fn trace_text(
    alloc: Global,
    instance: &Instance,
    plan: &Plan,
    words: &[LossWord],
) -> Result<Vec<u8>, Fault>
    requires { IsValid instance.now plan.now }
    ensures judged { MatchResult result
        (λ text. IsTraceOf words.now instance.now plan.now text.items)
        (IsTraceFault words.now instance.now plan.now) }
    ensures later { IfErr result (λ fault. ¬ IsOfInstance fault) }
{
    let _nodes = instance.nodes();
    let medl = Medl::of(alloc, instance, plan)?;
    let losses = losses_of_words(alloc, &medl, words)?;
    text_of_losses(alloc, instance, &medl, words, losses.as_slice())
}

/// Reads the words of lost frames, each `ROUND/SLOT/NODE`, or `ROUND/SLOT/*` for all receivers of that slot; then
/// verifies a plan as `verify` does; and then writes what membership does in one cycle of it. The first malformed
/// word goes first, then all that `verify` tells, then that there are fewer than three nodes, and then the first word
/// whose frame isn't one of the cycle, or whose node isn't there or is the sender. Where anything else ends the
/// command nothing is written, and after a failed write a prefix of the text stands. A step for each slot, node and
/// loss.
pub fn replay_run<I: Read, P: Read, W: Write>(
    alloc: Global,
    instance: &mut I,
    plan: &mut P,
    words: &[&str],
    out: &mut W,
) -> End
    ensures answer { IfSome (I.remaining instance.old) (λ i. IfSome (P.remaining plan.old) (λ p.
        IsReplayAnswer (bytes_of words.now) i p (W.contents out.old) (W.contents out.new) result)) }
    // Of a reader no more is taken than its limit and one byte, and of the plan's nothing at a fault of the instance.
    ensures instance { TakesAtMost (INSTANCE_LIMIT + 1) (I.remaining instance.old) (I.remaining instance.new) }
    ensures plan { TakesAtMost (PLAN_LIMIT + 1) (P.remaining plan.old) (P.remaining plan.new) }
    ensures order { IfRefused result (λ fault. IsOfInstance fault → Keeps (P.remaining plan.old) (P.remaining plan.new)) }
{
    let losses = match losses_in(alloc, words) {
        Ok(losses) => losses,
        Err(fault) => return End::Refused(fault),
    };
    let verified = match verified_of_readers(alloc, instance, plan) {
        Ok(verified) => verified,
        Err(fault) => return End::Refused(fault),
    };
    match trace_text(alloc, &verified.instance, &verified.plan, losses.as_slice()) {
        Ok(text) => {
            drop(verified);
            end_with(out, text.as_slice())
        }
        Err(fault) => {
            drop(verified);
            End::Refused(fault)
        }
    }
}
