//! What `check` says of an instance and a certificate.

ghost use Rattle.std.specs.Prelude.{◌≡◌, ◌+◌, string_bytes, IfErr, IfOk, IfSome, MatchResult};
ghost use Rattle.certificate.specs.Cert.{Cert};
ghost use Rattle.tree_check.specs.Proofs.{Proves};
ghost use Rattle.plan_commands.specs.Certified.{HasBound, HasCertificate, IsCertificateFault, IsCheckAnswer, WritesProvedBound, bound_line, certificate_limit, fault_of};
ghost use Rattle.std.specs.Io.KnownBytes.{Keeps};
ghost use Rattle.command_streams.specs.Endings.{IsNotOfTexts};
ghost use Rattle.command_streams.specs.declared.limits.TheConstants.{CERTIFICATE_LIMIT, INSTANCE_LIMIT, LONG_CERTIFICATE_LIMIT};
ghost use Rattle.command_streams.specs.Streams.{TakesAtMost};
ghost use Rattle.command_streams.specs.Instances.{IsOfInstance};
ghost use Rattle.command_streams.specs.Outcomes.{IfRefused, IsWritingUnlessMemory};
ghost use Rattle.plan_commands.specs.Judged.{IsBeforeCertificate};

use crate::proof::read_proof;
use cert_check::{StreamFault, check_stream};
use certificate::CertTextError;
use command_streams::{End, Fault, Source, end_with, read_instance};
use std::alloc::{AllocError, Global};
use std::io::{Read, Write};
use std::thread::Threads;
use ttp_model::Instance;

/// How many leaves of a certificate wait to be judged together. Where there is one processor, more of them would leave its own memory before
/// they are judged; where there are more, each batch costs a meeting of all threads, but a small certificate would spend its time on memory
/// that is touched for the first time. 256 take four threads 15 to 24 % more than 1,024 on certificates of 9 to 51 MB; 512 take 10 to 14 %
/// less than 1,024 on 2 MB; 1,024 take one thread 11 to 17 % longer; 2,048 are slower on all.
const BATCH: usize = 512;

/// A fault of a certificate's bytes, as it is told.
fn fault_of(fault: StreamFault) -> Fault
    ensures { result ≡ fault_of fault }
{
    match fault {
        StreamFault::Read => Fault::Unread(Source::Certificate),
        StreamFault::TooLong => Fault::TooLong(Source::Certificate),
        StreamFault::Text(CertTextError::OutOfMemory) => Fault::Memory,
        StreamFault::Text(error) => Fault::CertificateText(error),
        StreamFault::Cert(fault) => Fault::Certificate(fault),
    }
}

/// The bound that the certificate of a reader's bytes proves.
pub fn read_bound<R: Read>(
    rt: &(impl Threads + Sync),
    alloc: Global,
    instance: &Instance,
    certificate: &mut R,
) -> Result<u32, Fault>
    ensures judged { IfSome (R.remaining certificate.old) (λ bytes. MatchResult result
        (HasBound CERTIFICATE_LIMIT instance.now bytes)
        (IsCertificateFault CERTIFICATE_LIMIT instance.now bytes)) }
    ensures only { IfSome (R.remaining certificate.old) (λ bytes. (cert : Cert) → HasCertificate CERTIFICATE_LIMIT bytes cert → Proves instance.now cert
        → MatchResult result (λ low. low ≡ cert.low) IsNotOfTexts) }
    ensures later { IfErr result (λ fault. ¬ IsOfInstance fault) }
    ensures last { IfErr result (λ fault. ¬ IsBeforeCertificate fault) }
    ensures most { TakesAtMost (CERTIFICATE_LIMIT + 1) (R.remaining certificate.old) (R.remaining certificate.new) }
{
    match check_stream(rt, alloc, instance, certificate, BATCH) {
        Ok(low) => Ok(low),
        Err(fault) => Err(fault_of(fault)),
    }
}

/// The same of one that may be long, which one thread judges: its text and its tree are both in memory for a while.
fn read_long_bound<R: Read>(
    alloc: Global,
    instance: &Instance,
    certificate: &mut R,
) -> Result<u32, Fault>
    ensures judged { IfSome (R.remaining certificate.old) (λ bytes. MatchResult result
        (HasBound LONG_CERTIFICATE_LIMIT instance.now bytes)
        (IsCertificateFault LONG_CERTIFICATE_LIMIT instance.now bytes)) }
    ensures only { IfSome (R.remaining certificate.old) (λ bytes. (cert : Cert) → HasCertificate LONG_CERTIFICATE_LIMIT bytes cert → Proves instance.now cert
        → MatchResult result (λ low. low ≡ cert.low) IsNotOfTexts) }
    ensures later { IfErr result (λ fault. ¬ IsOfInstance fault) }
    ensures last { IfErr result (λ fault. ¬ IsBeforeCertificate fault) }
    ensures most { TakesAtMost (LONG_CERTIFICATE_LIMIT + 1) (R.remaining certificate.old) (R.remaining certificate.new) }
{
    let _nodes = instance.nodes();
    match read_proof(alloc, instance, certificate) {
        Ok(cert) => Ok(cert.low()),
        Err(fault) => Err(fault),
    }
}

/// The bound that the certificate of a reader's bytes proves, which may be long or not.
pub fn read_any_bound<R: Read>(
    rt: &(impl Threads + Sync),
    alloc: Global,
    is_long: bool,
    instance: &Instance,
    certificate: &mut R,
) -> Result<u32, Fault>
    ensures judged { IfSome (R.remaining certificate.old) (λ bytes. MatchResult result
        (HasBound (certificate_limit is_long) instance.now bytes)
        (IsCertificateFault (certificate_limit is_long) instance.now bytes)) }
    ensures only { IfSome (R.remaining certificate.old) (λ bytes. (cert : Cert) → HasCertificate (certificate_limit is_long) bytes cert → Proves instance.now cert
        → MatchResult result (λ low. low ≡ cert.low) IsNotOfTexts) }
    ensures later { IfErr result (λ fault. ¬ IsOfInstance fault) }
    ensures last { IfErr result (λ fault. ¬ IsBeforeCertificate fault) }
    ensures most { TakesAtMost (certificate_limit is_long + 1) (R.remaining certificate.old) (R.remaining certificate.new) }
{
    if is_long {
        read_long_bound(alloc, instance, certificate)
    } else {
        read_bound(rt, alloc, instance, certificate)
    }
}

/// The line of a bound, in ticks.
fn bound_line(alloc: Global, low: u32) -> Result<String, AllocError>
    ensures { IfOk result (λ line. string_bytes line ≡ bound_line low) }
{
    format!(in alloc; "bound {low}\n")
}

/// Writes that a bound is proved.
fn write_bound<W: Write>(alloc: Global, low: u32, out: &mut W) -> End
    ensures { IsWritingUnlessMemory (bound_line low) (W.contents out.old) (W.contents out.new) result }
{
    match bound_line(alloc, low) {
        Ok(line) => end_with(out, line.as_bytes()),
        Err(_) => End::Refused(Fault::Memory),
    }
}

/// Reads an instance and a certificate, and writes `bound` with the bound, in ticks, that the certificate proves:
/// no plan of the instance has a smaller delay, whoever made the certificate, and none is valid where the bound is
/// past the horizon. The instance is read and judged first, then the certificate's text, then the certificate, which is
/// judged as it is read, its leaves on all processors; one that may be long is held in memory, and judged by one thread. Where
/// anything else ends the command nothing is written, and after a failed write a prefix of the line stands.
pub fn check_run<I: Read, C: Read, W: Write>(
    rt: &(impl Threads + Sync),
    alloc: Global,
    is_long: bool,
    instance: &mut I,
    certificate: &mut C,
    out: &mut W,
) -> End
    ensures answer { IfSome (I.remaining instance.old) (λ i. IfSome (C.remaining certificate.old) (λ c.
        IsCheckAnswer (certificate_limit is_long) i c (W.contents out.old) (W.contents out.new) result)) }
    ensures only { IfSome (I.remaining instance.old) (λ i. IfSome (C.remaining certificate.old) (λ c.
        WritesProvedBound (certificate_limit is_long) i c (W.contents out.old) (W.contents out.new) result)) }
    // Of a reader no more is taken than its limit and one byte, and of the certificate's nothing at a fault of the
    // instance.
    ensures instance { TakesAtMost (INSTANCE_LIMIT + 1) (I.remaining instance.old) (I.remaining instance.new) }
    ensures certificate { TakesAtMost (certificate_limit is_long + 1) (C.remaining certificate.old) (C.remaining certificate.new) }
    ensures order { IfRefused result (λ fault. IsOfInstance fault → Keeps (C.remaining certificate.old) (C.remaining certificate.new)) }
{
    let instance = match read_instance(alloc, instance) {
        Ok(instance) => instance,
        Err(fault) => return End::Refused(fault),
    };
    match read_any_bound(rt, alloc, is_long, &instance, certificate) {
        Ok(low) => write_bound(alloc, low, out),
        Err(fault) => End::Refused(fault),
    }
}
