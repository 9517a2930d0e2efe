//! Why a text states no instance, and where.

ghost use Rattle.std.specs.Prelude.{◌≡◌};
ghost use Rattle.instance_text.specs.Keys.{text_of};

use std::alloc::{AllocError, AllocFailed};
use thiserror::Error;
use ttp_model::ModelError;

/// A table of the text. Tables of one array are counted from 0.
#[derive(Clone, Copy, Debug, PartialEq, Eq)]
pub enum Place {
    /// The top table.
    Top,
    /// The table `[cluster]`.
    Cluster,
    /// A table `[[node]]`.
    Node(usize),
    /// A table `[[process]]`.
    Process(usize),
    /// A table `[[link]]`.
    Link(usize),
    /// A table `[[message]]`.
    Message(usize),
}

/// A key of one of the tables.
#[derive(Clone, Copy, Debug, PartialEq, Eq)]
pub enum Key {
    Cluster,
    Node,
    Process,
    Link,
    Message,
    Precision,
    Lead,
    Trail,
    Head,
    PerByte,
    CopyOut,
    CopyIn,
    Horizon,
    Channels,
    Name,
    Capacities,
    Wcet,
    Release,
    Deadline,
    From,
    To,
    Bytes,
    Both,
}

impl Key {
    /// How the key is spelled in a text.
    pub fn text(self) -> &'static str
        ensures { result.now ≡ text_of self }
    {
        match self {
            Key::Cluster => "cluster",
            Key::Node => "node",
            Key::Process => "process",
            Key::Link => "link",
            Key::Message => "message",
            Key::Precision => "precision",
            Key::Lead => "lead",
            Key::Trail => "trail",
            Key::Head => "head",
            Key::PerByte => "per_byte",
            Key::CopyOut => "copy_out",
            Key::CopyIn => "copy_in",
            Key::Horizon => "horizon",
            Key::Channels => "channels",
            Key::Name => "name",
            Key::Capacities => "capacities",
            Key::Wcet => "wcet",
            Key::Release => "release",
            Key::Deadline => "deadline",
            Key::From => "from",
            Key::To => "to",
            Key::Bytes => "bytes",
            Key::Both => "both",
        }
    }
}

/// The first fault of a text, in this order: the text, the top table with the items of its arrays,
/// the cluster, the nodes, the processes, the links, the messages, and then the model's rules. In a
/// table an unknown key goes first, then each key in turn.
#[derive(Debug, Drop, Error)]
pub enum TextError {
    /// When the bytes are no TOML text, or no UTF-8.
    #[error("not TOML")]
    NotToml,
    /// When the table has a key that such a table doesn't have.
    #[error("a table has an unknown key")]
    UnknownKey { place: Place },
    /// When the table lacks a key that has to be there.
    #[error("a table lacks a key")]
    MissingKey { place: Place, key: Key },
    /// When the key's value, or an item of its array, is of another kind.
    #[error("a key's value is of another kind")]
    WrongKind { place: Place, key: Key },
    /// When the key's whole number, or one in its array, isn't within 0 to 4,294,967,295.
    #[error("a key's number is outside 0 to 4294967295")]
    OutOfRange { place: Place, key: Key },
    /// When the key names a node or a process, itself or in its array, that isn't in the text.
    #[error("a key names what is not there")]
    UnknownName { place: Place, key: Key },
    /// When the instance that the text states breaks a rule of the model.
    #[error("{0}")]
    Model(ModelError),
    /// When an allocation fails.
    #[error("out of memory")]
    OutOfMemory,
}

impl From<AllocError> for TextError {
    ghost use Rattle.std.specs.Prelude.{◌≡◌};
    ghost use Rattle.instance_text.specs.declared.error.TextError.TheVariants.{OutOfMemory};

    ghost from_gives = { λ _ e. e ≡ OutOfMemory };

    fn from(_error: AllocError) -> TextError {
        TextError::OutOfMemory
    }
}

impl<T: Drop> From<AllocFailed<T>> for TextError {
    ghost use Rattle.std.specs.Prelude.{◌≡◌};
    ghost use Rattle.instance_text.specs.declared.error.TextError.TheVariants.{OutOfMemory};

    ghost from_gives = { λ _ e. e ≡ OutOfMemory };

    fn from(_error: AllocFailed<T>) -> TextError {
        TextError::OutOfMemory
    }
}

impl From<ModelError> for TextError {
    ghost use Rattle.std.specs.Prelude.{◌≡◌};
    ghost use Rattle.instance_text.specs.Told.{told};

    ghost from_gives = { λ e t. t ≡ told e };

    fn from(error: ModelError) -> TextError {
        match error {
            ModelError::OutOfMemory => TextError::OutOfMemory,
            broken => TextError::Model(broken),
        }
    }
}
