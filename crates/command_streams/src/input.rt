//! What is taken from a reader, up to a limit, and the instance that it states.

ghost use Rattle.std.specs.Prelude.{◌≡◌, ◌+◌, ◌≤◌, ◌^◌, length, IfErr, IfOk, IfSome, MatchResult};
ghost use Rattle.std.specs.Io.KnownBytes.{Consumes};
ghost use Rattle.ttp_model.specs.Instance.{Instance};
ghost use Rattle.command_streams.specs.Endings.{IsNotOfTexts};
ghost use Rattle.command_streams.specs.Streams.{IsOfReadBytes, IsReadFault, IsTaken, TakesAtMost};
ghost use Rattle.command_streams.specs.Instances.{HasInstance, IsInstanceFault};

use crate::ending::{Fault, Source};
use crate::limits::INSTANCE_LIMIT;
use std::alloc::{AllocError, Global};
use std::io::Read;
use ttp_model::Instance;

/// Why the taking ended.
#[derive(Clone, Copy, PartialEq, Eq)]
pub enum Stop {
    /// The reader gave all its bytes.
    AtEnd,
    /// It gave one byte more than the limit.
    OverLimit,
    /// It failed.
    Failed,
}

/// What a reader gave.
#[derive(Drop)]
pub struct Taken {
    pub bytes: Vec<u8>,
    pub stop: Stop,
}

/// Takes what the reader gives, up to `limit` bytes and one more, in at most one read a byte.
pub fn take_input<R: Read>(alloc: Global, reader: &mut R, limit: usize) -> Result<Taken, AllocError>
    requires { limit ≤ 2 ^ 40 }
    ensures taken { IfOk result (λ taken. IfSome (R.remaining reader.old) (IsTaken limit taken)) }
    ensures within { IfOk result (λ taken. taken.stop ≡ Stop.AtEnd → length taken.bytes.items ≤ limit) }
    ensures left { IfOk result (λ taken. Consumes (R.remaining reader.old) (R.remaining reader.new) taken.bytes.items) }
    ensures most { TakesAtMost (limit + 1) (R.remaining reader.old) (R.remaining reader.new) }
{
    let mut bytes = Vec::new(alloc);
    let mut chunk = [0u8; 16384];
    'reads: while bytes.len() <= limit {
        let room = (limit + 1 - bytes.len()).min(chunk.len());
        match reader.read(&mut chunk[..room]) {
            Err(_) => return Ok(Taken {
                bytes,
                stop: Stop::Failed,
            }),
            Ok(0) => return Ok(Taken {
                bytes,
                stop: Stop::AtEnd,
            }),
            Ok(n) => bytes.extend_from_slice(&chunk[..n])?,
        }
    }
    Ok(Taken {
        bytes,
        stop: Stop::OverLimit,
    })
}

/// All bytes of a reader, which are within a limit.
pub fn read_all<R: Read>(
    alloc: Global,
    reader: &mut R,
    limit: usize,
    source: Source,
) -> Result<Vec<u8>, Fault>
    requires { limit ≤ 2 ^ 40 }
    ensures read { IfOk result (λ read. IfSome (R.remaining reader.old) (λ bytes. read.items ≡ bytes)) }
    ensures within { IfOk result (λ read. length read.items ≤ limit) }
    ensures err { IfErr result (IsReadFault source limit (R.remaining reader.old)) }
    ensures most { TakesAtMost (limit + 1) (R.remaining reader.old) (R.remaining reader.new) }
{
    match take_input(alloc, reader, limit) {
        Err(_) => Err(Fault::Memory),
        Ok(taken) => match taken.stop {
            Stop::AtEnd => Ok(taken.bytes),
            Stop::OverLimit => Err(Fault::TooLong(source)),
            Stop::Failed => Err(Fault::Unread(source)),
        },
    }
}

/// The instance that bytes state.
pub fn instance_of_text(alloc: Global, bytes: &[u8]) -> Result<Instance, Fault>
    requires { length bytes.now ≤ INSTANCE_LIMIT }
    ensures judged { MatchResult result
        (HasInstance bytes.now)
        (IsInstanceFault bytes.now) }
    ensures read { IfErr result IsOfReadBytes }
    ensures only { (i : Instance) → HasInstance bytes.now i → MatchResult result (λ read. read ≡ i) IsNotOfTexts }
{
    match instance_text::read(alloc, bytes) {
        Ok(instance) => Ok(instance),
        Err(error) => Err(Fault::InstanceText(error)),
    }
}

/// The instance that a reader's bytes state.
pub fn read_instance<R: Read>(alloc: Global, reader: &mut R) -> Result<Instance, Fault>
    ensures judged { IfSome (R.remaining reader.old) (λ bytes. MatchResult result
        (HasInstance bytes)
        (IsInstanceFault bytes)) }
    ensures only { IfSome (R.remaining reader.old) (λ bytes. (i : Instance) → HasInstance bytes i
        → MatchResult result (λ read. read ≡ i) IsNotOfTexts) }
    ensures most { TakesAtMost (INSTANCE_LIMIT + 1) (R.remaining reader.old) (R.remaining reader.new) }
{
    let bytes = read_all(alloc, reader, INSTANCE_LIMIT, Source::Instance)?;
    instance_of_text(alloc, bytes.as_slice())
}
