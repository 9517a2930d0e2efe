//! Why is a text no plan text?

ghost use Rattle.std.specs.Prelude.{◌≡◌};
ghost use Rattle.plan_format.specs.declared.fault.PlanTextError.TheVariants.{OutOfMemory};

use std::alloc::{AllocError, AllocFailed};
use thiserror::Error;

/// What is wrong with a line. Within a line the form is judged first, then the size of its numbers,
/// then its names, then the order.
#[derive(Clone, Copy, Debug, PartialEq, Eq, Error)]
pub enum LineFault {
    /// When its keyword, its count of words or the form of a name, of a number or of a channel's word is another. The
    /// count of words in the order line is no matter of form.
    #[error("it has another form")]
    Form,
    /// When a number is above 4,294,967,295.
    #[error("a number is too large")]
    Number,
    /// When a name is not the one that must stand there, or in the order line not a node's.
    #[error("it names something else")]
    Name,
    /// When the order line does not name each node once.
    #[error("it does not name each node once")]
    Order,
    /// When the text ends before the line's end.
    #[error("the text ends too early")]
    EarlyEnd,
    /// When there are bytes behind the last line, of which this is the next one.
    #[error("the text goes on")]
    Trailing,
}

impl LineFault {
    /// The error of a line with this number that has this fault.
    pub(crate) fn at(self, line: u32) -> PlanTextError
        ensures { result ≡ PlanTextError.At line self }
    {
        PlanTextError::At { line, fault: self }
    }
}

/// The first fault of a text that spells no plan of the instance.
#[derive(Clone, Copy, Debug, PartialEq, Eq, Error)]
pub enum PlanTextError {
    /// When a line is at fault and the lines before it are not. Lines are numbered from 1.
    #[error("line {line}: {fault}")]
    At { line: u32, fault: LineFault },
    /// When memory is refused.
    #[error("out of memory")]
    OutOfMemory,
}

impl From<AllocError> for PlanTextError {
    ghost from_gives = { λ _ e. e ≡ OutOfMemory };

    fn from(_error: AllocError) -> PlanTextError {
        PlanTextError::OutOfMemory
    }
}

impl<T: Drop> From<AllocFailed<T>> for PlanTextError {
    ghost from_gives = { λ _ e. e ≡ OutOfMemory };

    fn from(_error: AllocFailed<T>) -> PlanTextError {
        PlanTextError::OutOfMemory
    }
}
