//! Which certificates do readers give, one after another?

ghost use Rattle.std.specs.Prelude.{◌≡◌, ◌<◌, ◌≤◌, ℕ, IfOk, IfSome, MatchResult, List, Some, length, map};
ghost use Rattle.plan_commands.specs.Given.{AreCertificates, IsUnread, IsUnreadText, SpellsWithin, end_at};
ghost use Rattle.command_streams.specs.declared.limits.TheConstants.{LONG_CERTIFICATE_LIMIT};

use super::ending::JoinEnd;
use certificate::{Cert, CertTextError};
use command_streams::{End, Fault, LONG_CERTIFICATE_LIMIT, Source, read_all};
use std::alloc::Global;
use std::io::Read;

/// The certificate that bytes spell.
fn cert_of_text(alloc: Global, bytes: &[u8]) -> Result<Cert, Fault>
    requires { length bytes.now ≤ LONG_CERTIFICATE_LIMIT }
    ensures { MatchResult result (SpellsWithin bytes.now) (IsUnreadText bytes.now) }
{
    match certificate::read(alloc, bytes) {
        Ok(cert) => Ok(cert),
        Err(CertTextError::OutOfMemory) => Err(Fault::Memory),
        Err(error) => Err(Fault::CertificateText(error)),
    }
}

/// The certificate that a reader's bytes spell.
fn read_cert<R: Read>(alloc: Global, reader: &mut R) -> Result<Cert, Fault>
    ensures { IfSome (R.remaining reader.old) (λ bytes. MatchResult result (SpellsWithin bytes) (IsUnreadText bytes)) }
{
    let bytes = read_all(alloc, reader, LONG_CERTIFICATE_LIMIT, Source::Certificate)?;
    cert_of_text(alloc, bytes.as_slice())
}

/// How a join ends where the certificate of this number has this fault.
pub fn end_at(certificate: usize, fault: Fault) -> JoinEnd
    ensures { result ≡ end_at certificate fault }
{
    match fault {
        Fault::Memory => JoinEnd::Ended(End::Refused(Fault::Memory)),
        fault => JoinEnd::RefusedAt(certificate, fault),
    }
}

/// The certificates that readers' bytes spell, in their order.
pub fn read_certs<R: Read>(alloc: Global, readers: &mut [R]) -> Result<Vec<Cert>, JoinEnd>
    ensures read { (texts : List (List ℕ)) → map R.remaining readers.old ≡ map Some texts
        → MatchResult result (λ certs. AreCertificates texts certs.items) (IsUnread texts) }
    ensures count { IfOk result (λ certs. length certs.items ≡ length readers.old) }
{
    let mut certs = Vec::new(alloc);
    for k in 0..readers.len() {
        match read_cert(alloc, &mut readers[k]) {
            Ok(cert) => {
                if certs.push(cert).is_err() {
                    return Err(JoinEnd::Ended(End::Refused(Fault::Memory)));
                }
            }
            Err(fault) => return Err(end_at(k, fault)),
        }
    }
    Ok(certs)
}
