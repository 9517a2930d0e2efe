//! Which text is written of a certificate?

ghost use Rattle.std.specs.Prelude.{IfOk};
ghost use Rattle.certificate.specs.Versions.{Allows};
ghost use Rattle.question_commands.specs.Answers.{IsCertificateText};

use certificate::Cert;
use std::alloc::Global;
use ttp_model::MemoryFault;

/// The text of a certificate; nothing where it isn't wanted.
pub fn certificate_text(alloc: Global, cert: &Cert, wanted: bool) -> Result<Vec<u8>, MemoryFault>
    requires { Allows cert.now.version cert.now.tree }
    ensures { IfOk result (λ text. IsCertificateText wanted cert.now text.items) }
{
    if wanted {
        certificate::print(alloc, cert)
    } else {
        Ok(Vec::new(alloc))
    }
}
