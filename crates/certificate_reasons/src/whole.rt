//! Which certificate does a text spell that was checked?

ghost use Rattle.std.specs.Prelude.{◌≡◌, IfOk};
ghost use Rattle.certificate.specs.Cert.{Cert};
ghost use Rattle.certificate.specs.Spelling.{SpellsCert};

use certificate::{Cert, CertTextError, read};
use std::alloc::Global;
use ttp_model::MemoryFault;

/// The certificate that a text spells.
pub fn read_whole(alloc: Global, certificate: &[u8]) -> Result<Cert, MemoryFault>
    requires { (cert : Cert) × SpellsCert certificate.now cert }
    ensures spelled { IfOk result (λ read. SpellsCert certificate.now read) }
    ensures only { IfOk result (λ read. (cert : Cert) → SpellsCert certificate.now cert → cert ≡ read) }
{
    match read(alloc, certificate) {
        Ok(cert) => Ok(cert),
        Err(CertTextError::OutOfMemory) => Err(MemoryFault),
        Err(CertTextError::At { .. }) => unreachable!(),
    }
}
