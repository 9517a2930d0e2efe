//! What `verify` says of an instance and a plan in one stream.

ghost use Rattle.std.specs.Prelude.{◌≡◌, ◌+◌, ◌⊎◌, ◌≤◌, ◌<◌, ◌↔◌, ℕ, List, IsTrue, IfErr, IfSome, MatchResult, length};
ghost use Rattle.command_streams.specs.Streams.{IsOfReadBytes, IsTaken, TakesAtMost};
ghost use Rattle.command_streams.specs.Outcomes.{IfRefused};
ghost use Rattle.plan_commands.specs.Bundles.{bundle_limit, IsMark, FindsMark, IsTakenWhole, LacksMark, IsUnreadInstance, IsVerifiedBundle, IsRefusedBundle, IsBundleVerdict};

use crate::verdict::{Verified, verified_of_text, write_verdict};
use command_streams::{
    End, Fault, INSTANCE_LIMIT, PLAN_LIMIT, Source, Stop, Taken, instance_of_text, take_input,
};
use std::alloc::Global;
use std::io::{Read, Write};

/// The bytes of the line that parts an instance from a plan.
const MARK_LENGTH: usize = 3;

/// That line, with its end.
const MARK: &[u8; MARK_LENGTH] = b"%%\n";

/// Whether such a line begins at this byte: it stands at the front or behind the end of a line.
fn is_mark(bytes: &[u8], at: usize) -> bool
    requires { at < length bytes.now }
    ensures { IsTrue result ↔ IsMark bytes.now at }
{
    (at == 0 || bytes[at - 1] == b'\n') && bytes[at..].starts_with(MARK)
}

/// The first byte at which such a line begins.
pub fn mark_at(bytes: &[u8]) -> Option<usize>
    ensures { FindsMark bytes.now result }
{
    for at in 0..bytes.len() {
        if is_mark(bytes, at) {
            return Some(at);
        }
    }
    None
}

/// The bytes of a bundle, at most: an instance, the line between, and a plan.
const BUNDLE_LIMIT: usize = INSTANCE_LIMIT + MARK_LENGTH + PLAN_LIMIT;

/// Why a bundle without the line is refused.
fn unsplit(taken: &Taken) -> Fault
    ensures why { ((result ≡ Fault.NoMark) × (taken.now.stop ≡ Stop.AtEnd) × (length taken.now.bytes.items ≤ INSTANCE_LIMIT))
        ⊎ (result ≡ Fault.Unread Source.Instance) }
    ensures whole { taken.now.stop ≡ Stop.AtEnd → length taken.now.bytes.items ≤ INSTANCE_LIMIT
        → result ≡ Fault.NoMark }
{
    if taken.stop == Stop::AtEnd && taken.bytes.len() <= INSTANCE_LIMIT {
        Fault::NoMark
    } else {
        Fault::Unread(Source::Instance)
    }
}

/// The instance before the line with the plan behind it. The instance is judged before the plan's part, its length
/// included.
fn verified_of_taken(alloc: Global, taken: &Taken) -> Result<Verified, Fault>
    ensures judged { (bundle : List ℕ) → IsTaken BUNDLE_LIMIT taken.now bundle → MatchResult result
        (IsVerifiedBundle bundle)
        (IsRefusedBundle bundle) }
    ensures whole { IsTakenWhole taken.now → IfErr result IsOfReadBytes }
    ensures unread { IfErr result (λ fault. fault ≡ Fault.Unread Source.Instance → LacksMark taken.now.bytes.items) }
{
    let bytes = taken.bytes.as_slice();
    let Some(at) = mark_at(bytes) else {
        return Err(unsplit(taken));
    };
    if at > INSTANCE_LIMIT {
        return Err(Fault::Unread(Source::Instance));
    }
    let (front, rest) = bytes.split_at(at);
    let instance = match instance_of_text(alloc, front) {
        Ok(instance) => instance,
        Err(fault) => return Err(fault),
    };
    let (_, plan) = rest.split_at(MARK_LENGTH);
    if taken.stop != Stop::AtEnd || plan.len() > PLAN_LIMIT {
        return Err(Fault::Unread(Source::Plan));
    }
    verified_of_text(alloc, instance, plan)
}

/// The same of what a reader gives.
fn verified_of_bundle<R: Read>(alloc: Global, input: &mut R) -> Result<Verified, Fault>
    ensures judged { IfSome (R.remaining input.old) (λ bundle. MatchResult result
        (IsVerifiedBundle bundle)
        (IsRefusedBundle bundle)) }
    ensures most { TakesAtMost (bundle_limit + 1) (R.remaining input.old) (R.remaining input.new) }
    ensures unread { IfErr result (λ fault. fault ≡ Fault.Unread Source.Instance
        → IsUnreadInstance (R.remaining input.old) (R.remaining input.new)) }
{
    match take_input(alloc, input, BUNDLE_LIMIT) {
        Ok(taken) => verified_of_taken(alloc, &taken),
        Err(_) => Err(Fault::Memory),
    }
}

/// As `verify`, of one reader that gives the instance, a line `%%` and the plan. Each part has its own limit. A read
/// that fails is the instance's up to the end of that line, and then the plan's.
pub fn verify_bundle<R: Read, W: Write>(alloc: Global, input: &mut R, out: &mut W) -> End
    ensures verdict { IfSome (R.remaining input.old) (λ bundle.
        IsBundleVerdict bundle (W.contents out.old) (W.contents out.new) result) }
    // No more is taken than the limit and one byte, and the instance is unread only where the line wasn't taken.
    ensures most { TakesAtMost (bundle_limit + 1) (R.remaining input.old) (R.remaining input.new) }
    ensures unread { IfRefused result (λ fault. fault ≡ Fault.Unread Source.Instance
        → IsUnreadInstance (R.remaining input.old) (R.remaining input.new)) }
{
    match verified_of_bundle(alloc, input) {
        Ok(verified) => {
            let end = write_verdict(alloc, verified.delay, out);
            drop(verified);
            end
        }
        Err(fault) => End::Refused(fault),
    }
}
