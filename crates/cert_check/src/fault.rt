//! Why do a reader's bytes give no certificate that proves its bound?

ghost use Rattle.std.specs.Prelude.{◌≡◌};
ghost use Rattle.certificate.specs.declared.fault.CertTextError.TheVariants as text;
ghost use Rattle.cert_check.specs.declared.fault.StreamFault.TheVariants.{Text};
ghost use Rattle.cert_check.specs.Streams.{fault_of_source};

use certificate::{CertTextError, SourceFault};
use std::alloc::AllocError;
use thiserror::Error;
use tree_check::CertFault;
use ttp_model::MemoryFault;

/// Why a reader's bytes give no certificate that proves its bound. A failed read goes before a text that is too long, that
/// before what is wrong with the text, and that before what is wrong with the certificate.
#[derive(Clone, Copy, Debug, PartialEq, Eq, Error)]
pub enum StreamFault {
    /// When the reader failed.
    #[error("the reader failed")]
    Read,
    /// When it has more bytes than `certificate::MOST_TEXT_BYTES`.
    #[error("the text is too long")]
    TooLong,
    /// When the text spells no certificate, or memory was refused in reading it.
    #[error("{0}")]
    Text(CertTextError),
    /// When the certificate isn't accepted.
    #[error("{0}")]
    Cert(CertFault),
}

impl From<SourceFault> for StreamFault {
    ghost from_gives = { λ fault e. e ≡ fault_of_source fault };

    fn from(fault: SourceFault) -> Self {
        match fault {
            SourceFault::Read => StreamFault::Read,
            SourceFault::TooLong => StreamFault::TooLong,
            SourceFault::Text(error) => StreamFault::Text(error),
        }
    }
}

impl From<AllocError> for StreamFault {
    ghost from_gives = { λ _ e. e ≡ Text text.OutOfMemory };

    fn from(_: AllocError) -> Self {
        StreamFault::Text(CertTextError::OutOfMemory)
    }
}

impl From<MemoryFault> for StreamFault {
    ghost from_gives = { λ _ e. e ≡ Text text.OutOfMemory };

    fn from(_: MemoryFault) -> Self {
        StreamFault::Text(CertTextError::OutOfMemory)
    }
}
