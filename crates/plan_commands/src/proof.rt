//! Which certificate has a reader, that is held in memory?

ghost use Rattle.std.specs.Prelude.{◌≡◌, ◌+◌, ◌≤◌, length, IfErr, IfOk, IfSome, MatchResult};
ghost use Rattle.certificate.specs.Cert.{Cert};
ghost use Rattle.certificate.specs.Spelling.{SpellsCert};
ghost use Rattle.tree_check.specs.Proofs.{Proves};
ghost use Rattle.command_streams.specs.Endings.{IsNotOfTexts};
ghost use Rattle.command_streams.specs.declared.limits.TheConstants.{LONG_CERTIFICATE_LIMIT};
ghost use Rattle.command_streams.specs.Streams.{TakesAtMost};
ghost use Rattle.plan_commands.specs.Judged.{IsBeforeCertificate};
ghost use Rattle.plan_commands.specs.Certified.{HasCertificate, HasProof, IsCertificateFault};

use certificate::{Cert, CertTextError};
use command_streams::{Fault, LONG_CERTIFICATE_LIMIT, Source, read_all};
use std::alloc::Global;
use std::io::Read;
use tree_check::{CertFault, check};
use ttp_model::Instance;

/// The certificate that bytes spell, where it proves its bound. Its text is judged first.
fn proof_of_text(alloc: Global, instance: &Instance, bytes: &[u8]) -> Result<Cert, Fault>
    requires { length bytes.now ≤ LONG_CERTIFICATE_LIMIT }
    ensures judged { MatchResult result
        (HasProof LONG_CERTIFICATE_LIMIT instance.now bytes.now)
        (IsCertificateFault LONG_CERTIFICATE_LIMIT instance.now bytes.now) }
    ensures only { (cert : Cert) → SpellsCert bytes.now cert → Proves instance.now cert
        → MatchResult result (λ read. read ≡ cert) IsNotOfTexts }
    ensures last { IfErr result (λ fault. ¬ IsBeforeCertificate fault) }
{
    let cert = match certificate::read(alloc, bytes) {
        Ok(cert) => cert,
        Err(CertTextError::OutOfMemory) => return Err(Fault::Memory),
        Err(error) => return Err(Fault::CertificateText(error)),
    };
    match check(alloc, instance, &cert) {
        Ok(_) => Ok(cert),
        Err(CertFault::OutOfMemory) => Err(Fault::Memory),
        Err(fault) => Err(Fault::Certificate(fault)),
    }
}

/// The certificate that a reader's bytes spell, where it proves its bound, or the fault that `check` tells. The text and what it spells are
/// both in memory for a while.
pub fn read_proof<X: Read>(
    alloc: Global,
    instance: &Instance,
    reader: &mut X,
) -> Result<Cert, Fault>
    ensures judged { IfSome (X.remaining reader.old) (λ bytes. MatchResult result
        (HasProof LONG_CERTIFICATE_LIMIT instance.now bytes)
        (IsCertificateFault LONG_CERTIFICATE_LIMIT instance.now bytes)) }
    ensures only { IfSome (X.remaining reader.old) (λ bytes. (cert : Cert) → HasCertificate LONG_CERTIFICATE_LIMIT bytes cert → Proves instance.now cert
        → MatchResult result (λ read. read ≡ cert) IsNotOfTexts) }
    ensures proves { IfOk result (Proves instance.now) }
    ensures last { IfErr result (λ fault. ¬ IsBeforeCertificate fault) }
    ensures most { TakesAtMost (LONG_CERTIFICATE_LIMIT + 1) (X.remaining reader.old) (X.remaining reader.new) }
{
    let bytes = read_all(alloc, reader, LONG_CERTIFICATE_LIMIT, Source::Certificate)?;
    proof_of_text(alloc, instance, bytes.as_slice())
}
