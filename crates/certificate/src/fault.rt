//! Why is a text no certificate?

ghost use Rattle.std.specs.Prelude.{◌≡◌};
ghost use Rattle.certificate.specs.declared.fault.CertTextError.TheVariants.{OutOfMemory};
ghost use Rattle.certificate.specs.declared.fault.SourceFault.TheVariants.{Text};

use std::alloc::{AllocError, AllocFailed};
use thiserror::Error;

/// What is wrong with a line. Within a line the form is judged first, then the size of its numbers,
/// then its place in the tree.
#[derive(Clone, Copy, Debug, PartialEq, Eq, Error)]
pub enum LineFault {
    /// When the first line names no version of the text.
    #[error("the first line is neither `ttcert 1` nor `ttcert 2`")]
    FirstLine,
    /// When its keyword, its count of words or the form of a number is another than may stand there.
    #[error("it has another form")]
    Form,
    /// When a number is above 4,294,967,295.
    #[error("a number is too large")]
    Number,
    /// When a node stands below more than `MOST_BRANCHES_ABOVE` branches.
    #[error("it stands too deep")]
    Depth,
    /// When the text ends before the line's end.
    #[error("the text ends too early")]
    EarlyEnd,
    /// When there are bytes behind the last line, of which this is the next one.
    #[error("the text goes on")]
    Trailing,
}

impl LineFault {
    /// The error of a line with this number that has this fault.
    pub(crate) fn at(self, line: u64) -> CertTextError
        ensures { result ≡ CertTextError.At line self }
    {
        CertTextError::At { line, fault: self }
    }
}

/// The first fault of a text that spells no certificate.
#[derive(Clone, Copy, Debug, PartialEq, Eq, Error)]
pub enum CertTextError {
    /// When a line is at fault and the lines before it are not. Lines are numbered from 1.
    #[error("line {line}: {fault}")]
    At { line: u64, fault: LineFault },
    /// When memory is refused.
    #[error("out of memory")]
    OutOfMemory,
}

impl From<AllocError> for CertTextError {
    ghost from_gives = { λ _ e. e ≡ OutOfMemory };

    fn from(_error: AllocError) -> CertTextError {
        CertTextError::OutOfMemory
    }
}

impl<T: Drop> From<AllocFailed<T>> for CertTextError {
    ghost from_gives = { λ _ e. e ≡ OutOfMemory };

    fn from(_error: AllocFailed<T>) -> CertTextError {
        CertTextError::OutOfMemory
    }
}

/// Why a reader's bytes give no certificate. A failed read goes before a text that is too long, and that before what is
/// wrong with the text.
#[derive(Clone, Copy, Debug, PartialEq, Eq, Error)]
pub enum SourceFault {
    /// When the reader failed.
    #[error("the reader failed")]
    Read,
    /// When it has more bytes than `MOST_TEXT_BYTES`.
    #[error("the text is too long")]
    TooLong,
    /// When the text spells no certificate, or memory is refused.
    #[error("{0}")]
    Text(CertTextError),
}

impl From<CertTextError> for SourceFault {
    ghost from_gives = { λ error e. e ≡ Text error };

    fn from(error: CertTextError) -> SourceFault {
        SourceFault::Text(error)
    }
}

impl From<AllocError> for SourceFault {
    ghost from_gives = { λ _ e. e ≡ Text OutOfMemory };

    fn from(_error: AllocError) -> SourceFault {
        SourceFault::Text(CertTextError::OutOfMemory)
    }
}

impl<T: Drop> From<AllocFailed<T>> for SourceFault {
    ghost from_gives = { λ _ e. e ≡ Text OutOfMemory };

    fn from(_error: AllocFailed<T>) -> SourceFault {
        SourceFault::Text(CertTextError::OutOfMemory)
    }
}
