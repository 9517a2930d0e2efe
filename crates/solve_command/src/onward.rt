//! How does a search go on from a certificate, and what does `solve` say of it?

ghost use Rattle.std.specs.Prelude.{◌≡◌, ◌≤◌, ◌+◌, ℕ, List, Option, is_some, IfErr, IfOk, IfSome, MatchResult};
ghost use Rattle.std.specs.Io.KnownBytes.{Keeps};
ghost use Rattle.ttp_model.specs.Delays.{delay};
ghost use Rattle.ttp_model.specs.Plans.{IsValid};
ghost use Rattle.certificate.specs.Versions.{Allows};
ghost use Rattle.command_streams.specs.Instances.{IsOfInstance};
ghost use Rattle.command_streams.specs.declared.limits.TheConstants.{INSTANCE_LIMIT, LONG_CERTIFICATE_LIMIT};
ghost use Rattle.command_streams.specs.Outcomes.{IfRefused};
ghost use Rattle.command_streams.specs.Streams.{TakesAtMost};
ghost use Rattle.plan_commands.specs.Judged.{IsBeforeCertificate};
ghost use Rattle.plan_commands.specs.Printed.{printed_limit};
ghost use Rattle.planner.specs.Answers.{best_of, cert_of, IsCalledOff, Shows};
ghost use Rattle.planner.specs.Onward.{told_low, IsOnFault, IsOnward, IsSomePart};
ghost use Rattle.planner.specs.Proofs.{Proves};
ghost use Rattle.planner.specs.Searching.{limit_of};
ghost use Rattle.solve_command.specs.Continued.{fault_of, Gives, HasNoStart, IsBegun, IsNoOnward, IsOnwardAnswer, IsOnwardOf, IsSolvedOn, IsUnsolvedOn, rest_of};
ghost use Rattle.solve_command.specs.Telling.{held, left};

use crate::faults::told_as;
use crate::progress::Follower;
use crate::solve::{Asked, Solved, answer_text, tell, tell_certified};
use certificate::Cert;
use command_streams::{End, Fault, read_instance};
use plan_commands::{Verified, printed_of_readers, read_proof};
use planner::{OnFault, Onward, Outcome, Portion, Site, solve_on};
use std::alloc::Global;
use std::io::{Read, Write};
use std::marker::Sync;
use std::sync::Wait;
use std::thread::Threads;
use ttp_model::{Instance, Plan};

/// How a search goes on from a certificate.
#[derive(Clone, Copy)]
pub struct Continuation {
    pub asked: Asked,
    /// Which of the leaves that are open are worked; all where there is none.
    pub part: Option<Portion>,
}

/// An instance, and the valid plan with which a search of it begins, where there is one.
#[derive(Drop)]
pub struct Outset {
    pub instance: Instance,
    pub start: Option<Plan>,
}

/// The instance of a reader's bytes, and the valid plan that another's have printed, where there is one to read.
fn begun_of_readers<I: Read, P: Read>(
    alloc: Global,
    instance: &mut I,
    start: &mut Option<P>,
) -> Result<Outset, Fault>
    ensures judged { IfSome (I.remaining instance.old) (λ i. (plan : Option (List ℕ)) → Gives P.remaining start.old plan → MatchResult result
        (IsBegun i plan)
        (HasNoStart i plan)) }
    ensures valid { IfOk result (λ begun. IfSome begun.start (IsValid begun.instance)) }
    ensures instance { TakesAtMost (INSTANCE_LIMIT + 1) (I.remaining instance.old) (I.remaining instance.new) }
    ensures plan { TakesAtMost (printed_limit + 1) (rest_of P.remaining start.old) (rest_of P.remaining start.new) }
    ensures order { IfErr result (λ fault. IsOfInstance fault → Keeps (rest_of P.remaining start.old) (rest_of P.remaining start.new)) }
{
    match start {
        None => {
            let instance = read_instance(alloc, instance)?;
            Ok(Outset {
                instance,
                start: None,
            })
        }
        Some(plan) => {
            let Verified { instance, plan, .. } = printed_of_readers(alloc, instance, plan)?;
            Ok(Outset {
                instance,
                start: Some(plan),
            })
        }
    }
}

/// Searches an instance on from a certificate, and tells a follower of it.
fn searched_on<R: Threads + Wait + Sync, G: Follower + Sync>(
    rt: &R,
    alloc: Global,
    instance: &Instance,
    start: Option<Plan>,
    cert: &Cert,
    on: Continuation,
    follower: &G,
) -> Result<Outcome, OnFault>
    requires start { IfSome start (IsValid instance.now) }
    requires proves { Proves instance.now cert.now }
    requires part { IsSomePart on.part }
    ensures answer { IfOk result (IsOnward instance.now on.asked.options on.asked.enough.gap start cert.now on.part) }
    ensures shows { IfOk result (Shows instance.now) }
    ensures called_off { IfOk result (λ outcome. IsCalledOff outcome → G.ends follower.now) }
    ensures start { IfOk result (λ outcome. IfSome start (λ plan. limit_of instance.now (best_of outcome) ≤ delay instance.now plan)) }
    ensures no_lower { IfOk result (λ outcome. cert.now.low ≤ told_low instance.now outcome) }
    ensures err { IfErr result (IsOnFault instance.now cert.now) }
{
    let site = Site {
        alloc,
        instance,
        gate: follower,
    };
    let onward = Onward {
        cert,
        part: on.part,
        is_wide: on.asked.is_wide,
    };
    follower.begin(alloc, instance);
    let searched = solve_on(
        rt,
        &site,
        on.asked.options,
        on.asked.enough.gap,
        start,
        onward,
    );
    follower.end();
    searched
}

/// As what it is told that a search doesn't go on.
fn fault_of(fault: OnFault) -> Fault
    ensures { result ≡ fault_of fault }
{
    match fault {
        OnFault::TooDeep { line } => Fault::DeepCertificate(line),
        OnFault::Search(fault) => Fault::Search(told_as(fault)),
    }
}

/// Searches an instance on from a certificate that proves its bound, and makes the answer's text.
fn solved_on<R: Threads + Wait + Sync, G: Follower + Sync>(
    rt: &R,
    alloc: Global,
    begun: Outset,
    cert: &Cert,
    on: Continuation,
    follower: &G,
) -> Result<Solved, Fault>
    requires start { IfSome begun.start (IsValid begun.instance) }
    requires proves { Proves begun.instance cert.now }
    requires part { IsSomePart on.part }
    ensures found { MatchResult result
        (IsOnwardOf begun.instance begun.start cert.now on (G.ends follower.now))
        (IsNoOnward begun.instance cert.now) }
    ensures printable { IfOk result (λ solved.
        Allows (cert_of solved.outcome).version (cert_of solved.outcome).tree) }
{
    let Outset { instance, start } = begun;
    let _nodes = instance.nodes();
    let outcome = match searched_on(rt, alloc, &instance, start, cert, on, follower) {
        Ok(outcome) => outcome,
        Err(fault) => {
            drop(instance);
            return Err(fault_of(fault));
        }
    };
    match answer_text(alloc, on.asked.enough.until, &instance, &outcome) {
        Ok(text) => Ok(Solved {
            instance,
            outcome,
            text,
        }),
        Err(_) => {
            drop(instance);
            drop(outcome);
            Err(Fault::Memory)
        }
    }
}

/// Searches the instance that a reader's bytes state, on from the certificate that another's spell, and from the valid plan that a third's have
/// printed, where there is one.
fn solved_on_of_readers<R: Threads + Wait + Sync, G: Follower + Sync, I: Read, P: Read, X: Read>(
    rt: &R,
    alloc: Global,
    instance: &mut I,
    start: &mut Option<P>,
    cert: &mut X,
    on: Continuation,
    follower: &G,
) -> Result<Solved, Fault>
    requires part { IsSomePart on.part }
    ensures judged { IfSome (I.remaining instance.old) (λ i. (plan : Option (List ℕ)) → Gives P.remaining start.old plan
        → IfSome (X.remaining cert.old) (λ c. MatchResult result
        (IsSolvedOn i plan c on (G.ends follower.now))
        (IsUnsolvedOn i plan c))) }
    ensures printable { IfOk result (λ solved.
        Allows (cert_of solved.outcome).version (cert_of solved.outcome).tree) }
    ensures instance { TakesAtMost (INSTANCE_LIMIT + 1) (I.remaining instance.old) (I.remaining instance.new) }
    ensures plan { TakesAtMost (printed_limit + 1) (rest_of P.remaining start.old) (rest_of P.remaining start.new) }
    ensures certificate { TakesAtMost (LONG_CERTIFICATE_LIMIT + 1) (X.remaining cert.old) (X.remaining cert.new) }
    ensures order { IfErr result (λ fault. IsOfInstance fault → Keeps (rest_of P.remaining start.old) (rest_of P.remaining start.new)) }
    ensures last { IfErr result (λ fault. IsBeforeCertificate fault → Keeps (X.remaining cert.old) (X.remaining cert.new)) }
{
    let begun = begun_of_readers(alloc, instance, start)?;
    match read_proof(alloc, &begun.instance, cert) {
        Ok(proof) => solved_on(rt, alloc, begun, &proof, on, follower),
        Err(fault) => {
            drop(begun);
            Err(fault)
        }
    }
}

/// Searches and writes as `solve_run_from` does, and goes on from a certificate: that is read behind the instance and the plan, where there is one
/// to begin with, and refused as by `check`, or where a search could come too deep below one of its branches. Without a plan one is looked for,
/// as ever. The bound that is told is no lower than that certificate's. Where a part alone was to be worked, and is, the word in the line `stopped` is
/// `part`.
pub fn solve_run_on<
    R: Threads + Wait + Sync,
    G: Follower + Sync,
    I: Read,
    P: Read,
    X: Read,
    C: Write,
    W: Write,
>(
    rt: &R,
    alloc: Global,
    instance: &mut I,
    start: &mut Option<P>,
    cert: &mut X,
    on: Continuation,
    follower: &G,
    certificate: Option<&mut C>,
    out: &mut W,
) -> End
    requires part { IsSomePart on.part }
    ensures answer { IfSome (I.remaining instance.old) (λ i. (plan : Option (List ℕ)) → Gives P.remaining start.old plan
        → IfSome (X.remaining cert.old) (λ c. IsOnwardAnswer i plan c on (G.ends follower.now) (is_some certificate.entry)
        (held C.contents certificate.entry) (left C.contents certificate.exit)
        (W.contents out.old) (W.contents out.new) result)) }
    ensures instance { TakesAtMost (INSTANCE_LIMIT + 1) (I.remaining instance.old) (I.remaining instance.new) }
    ensures plan { TakesAtMost (printed_limit + 1) (rest_of P.remaining start.old) (rest_of P.remaining start.new) }
    ensures certificate { TakesAtMost (LONG_CERTIFICATE_LIMIT + 1) (X.remaining cert.old) (X.remaining cert.new) }
    // Where the instance is refused, the plan is left unread, and where either is, the certificate.
    ensures order { IfRefused result (λ fault. IsOfInstance fault → Keeps (rest_of P.remaining start.old) (rest_of P.remaining start.new)) }
    ensures last { IfRefused result (λ fault. IsBeforeCertificate fault → Keeps (X.remaining cert.old) (X.remaining cert.new)) }
{
    let found = solved_on_of_readers(rt, alloc, instance, start, cert, on, follower);
    match certificate {
        None => tell(found, out),
        Some(writer) => tell_certified(alloc, found, writer, out),
    }
}
