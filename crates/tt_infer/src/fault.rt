//! Why is a step refused?

use thiserror::Error;

/// Why a step is refused. Of several reasons it is the first of: after a closer, an index, the premise.
#[derive(Clone, Copy, Debug, PartialEq, Eq, Error)]
pub enum StepFault {
    /// A process, link, message or node isn't there, or two processes aren't two of one node.
    #[error("something that the step names isn't there")]
    NoSuchIndex,
    /// What the step asks for isn't known.
    #[error("the step's premise doesn't hold")]
    NoPremise,
    /// No plan is left, so no step follows.
    #[error("no plan is left, so no step follows")]
    AlreadyClosed,
}
