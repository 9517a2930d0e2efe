//! Why a text states no cluster of several rates, and where.

ghost use Rattle.std.specs.Prelude.{◌≡◌};
ghost use Rattle.rates_text.specs.Keys.{text_of};

use instance_text::Place;
use rates_model::RatesError;
use std::alloc::{AllocError, AllocFailed};
use thiserror::Error;

/// A table of the text. Tables of one array are counted from 0.
#[derive(Clone, Copy, Debug, PartialEq, Eq)]
pub enum RatesTable {
    /// One that the text of an instance has too.
    Of(Place),
    /// A table `[[chain]]`.
    Chain(usize),
}

/// A key of one of the tables.
#[derive(Clone, Copy, Debug, PartialEq, Eq)]
pub enum RatesKey {
    Cluster,
    Node,
    Process,
    Link,
    Message,
    Chain,
    Precision,
    Lead,
    Trail,
    Head,
    PerByte,
    CopyOut,
    CopyIn,
    Channels,
    Store,
    Round,
    Name,
    Capacity,
    Wcet,
    Period,
    Release,
    Deadline,
    From,
    To,
    Delay,
    Bytes,
    Both,
    Through,
    Age,
}

impl RatesKey {
    /// How the key is spelled in a text.
    pub fn text(self) -> &'static str
        ensures { result.now ≡ text_of self }
    {
        match self {
            RatesKey::Cluster => "cluster",
            RatesKey::Node => "node",
            RatesKey::Process => "process",
            RatesKey::Link => "link",
            RatesKey::Message => "message",
            RatesKey::Chain => "chain",
            RatesKey::Precision => "precision",
            RatesKey::Lead => "lead",
            RatesKey::Trail => "trail",
            RatesKey::Head => "head",
            RatesKey::PerByte => "per_byte",
            RatesKey::CopyOut => "copy_out",
            RatesKey::CopyIn => "copy_in",
            RatesKey::Channels => "channels",
            RatesKey::Store => "store",
            RatesKey::Round => "round",
            RatesKey::Name => "name",
            RatesKey::Capacity => "capacity",
            RatesKey::Wcet => "wcet",
            RatesKey::Period => "period",
            RatesKey::Release => "release",
            RatesKey::Deadline => "deadline",
            RatesKey::From => "from",
            RatesKey::To => "to",
            RatesKey::Delay => "delay",
            RatesKey::Bytes => "bytes",
            RatesKey::Both => "both",
            RatesKey::Through => "through",
            RatesKey::Age => "age",
        }
    }
}

/// The first fault of a text, in this order: the text, the top table with the items of its arrays, the cluster, the nodes, the
/// processes, the links, the messages, the chains, and then the rules of a cluster of several rates. In a table an unknown key goes
/// first, then each key in turn.
#[derive(Clone, Copy, Debug, Error)]
pub enum RatesTextError {
    /// When the bytes are no TOML text, or no UTF-8.
    #[error("not TOML")]
    NotToml,
    /// When the table has a key that such a table doesn't have.
    #[error("a table has an unknown key")]
    UnknownKey { place: RatesTable },
    /// When the table lacks a key that has to be there.
    #[error("a table lacks a key")]
    MissingKey { place: RatesTable, key: RatesKey },
    /// When the key's value, or an item of its array, is of another kind.
    #[error("a key's value is of another kind")]
    WrongKind { place: RatesTable, key: RatesKey },
    /// When the key's whole number isn't within 0 to 4,294,967,295.
    #[error("a key's number is outside 0 to 4294967295")]
    OutOfRange { place: RatesTable, key: RatesKey },
    /// When the key names a node or a process, itself or in its array, that isn't in the text.
    #[error("a key names what is not there")]
    UnknownName { place: RatesTable, key: RatesKey },
    /// When the cluster that the text states breaks a rule.
    #[error("{0}")]
    Refused(RatesError),
    /// When an allocation fails.
    #[error("out of memory")]
    OutOfMemory,
}

impl From<AllocError> for RatesTextError {
    ghost use Rattle.std.specs.Prelude.{◌≡◌};
    ghost use Rattle.rates_text.specs.declared.error.RatesTextError.TheVariants.{OutOfMemory};

    ghost from_gives = { λ _ e. e ≡ OutOfMemory };

    fn from(_error: AllocError) -> RatesTextError {
        RatesTextError::OutOfMemory
    }
}

impl<T: Drop> From<AllocFailed<T>> for RatesTextError {
    ghost use Rattle.std.specs.Prelude.{◌≡◌};
    ghost use Rattle.rates_text.specs.declared.error.RatesTextError.TheVariants.{OutOfMemory};

    ghost from_gives = { λ _ e. e ≡ OutOfMemory };

    fn from(_error: AllocFailed<T>) -> RatesTextError {
        RatesTextError::OutOfMemory
    }
}

impl From<RatesError> for RatesTextError {
    ghost use Rattle.std.specs.Prelude.{◌≡◌};
    ghost use Rattle.rates_text.specs.declared.error.RatesTextError.TheVariants.{Refused};

    ghost from_gives = { λ e t. t ≡ Refused e };

    fn from(error: RatesError) -> RatesTextError {
        RatesTextError::Refused(error)
    }
}
