//! What does `join` say of an instance and certificates of it?

ghost use Rattle.std.specs.Prelude.{◌≡◌, ◌+◌, ◌<◌, ℕ, IfOk, IfSome, List, MatchResult, Some, length, map};
ghost use Rattle.certificate.specs.Versions.{Allows};
ghost use Rattle.command_streams.specs.declared.limits.TheConstants.{INSTANCE_LIMIT};
ghost use Rattle.command_streams.specs.Streams.{TakesAtMost};
ghost use Rattle.plan_commands.specs.Joins.{HasJoin, HasNoJoin, IsJoinAnswer, end_of};

use super::ending::JoinEnd;
use super::reading::read_certs;
use super::writing::tell;
use certificate::Cert;
use command_streams::{End, Fault, read_instance};
use side_by_side::{JoinFault, join_all};
use std::alloc::Global;
use std::io::{Read, Write};
use tree_check::CertFault;
use ttp_model::Instance;

/// How a join ends where certificates aren't joined.
fn end_of(fault: JoinFault) -> JoinEnd
    ensures { result ≡ end_of fault }
{
    match fault {
        JoinFault::At {
            certificate,
            line,
            fault,
        } => {
            let fault = Fault::Certificate(CertFault::At { line, fault });
            JoinEnd::RefusedAt(certificate, fault)
        }
        JoinFault::OutOfMemory => JoinEnd::Ended(End::Refused(Fault::Memory)),
    }
}

/// The certificate that the certificates of readers make together.
fn read_join<C: Read>(
    alloc: Global,
    instance: &Instance,
    certificates: &mut [C],
) -> Result<Cert, JoinEnd>
    requires { 0 < length certificates.old }
    ensures joined { (texts : List (List ℕ)) → map C.remaining certificates.old ≡ map Some texts
        → MatchResult result (HasJoin instance.now texts) (HasNoJoin instance.now texts) }
    ensures allowed { IfOk result (λ cert. Allows cert.version cert.tree) }
{
    let certs = read_certs(alloc, certificates)?;
    match join_all(alloc, instance, certs.as_slice()) {
        Ok(cert) => Ok(cert),
        Err(fault) => Err(end_of(fault)),
    }
}

/// Reads an instance and certificates of it, at least one, and writes `bound` with the greatest bound, in ticks, that the tree proves
/// which they make together: no plan of the instance has a smaller delay, whoever made the certificates. To `joined` goes the
/// certificate of that tree, in the version of the instance's answers.
///
/// The instance is read and judged first, then each certificate's text, one after another, then what goes into the joined tree, from its
/// root on. Where anything else ends the command nothing is written; after a failed write a prefix of that text stands. Takes memory for
/// all certificates.
pub fn join_run<I: Read, C: Read, S: Write, W: Write>(
    alloc: Global,
    instance: &mut I,
    certificates: &mut [C],
    joined: &mut S,
    out: &mut W,
) -> JoinEnd
    requires { 0 < length certificates.old }
    ensures answer { IfSome (I.remaining instance.old) (λ i. (texts : List (List ℕ)) → map C.remaining certificates.old ≡ map Some texts
        → IsJoinAnswer i texts (S.contents joined.old) (S.contents joined.new) (W.contents out.old) (W.contents out.new) result) }
    ensures instance { TakesAtMost (INSTANCE_LIMIT + 1) (I.remaining instance.old) (I.remaining instance.new) }
{
    let instance = match read_instance(alloc, instance) {
        Ok(instance) => instance,
        Err(fault) => return JoinEnd::Ended(End::Refused(fault)),
    };
    match read_join(alloc, &instance, certificates) {
        Ok(cert) => JoinEnd::Ended(tell(alloc, &cert, joined, out)),
        Err(end) => end,
    }
}
