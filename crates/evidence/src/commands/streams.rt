//! What is read, what is written, and which line tells a fault.

ghost use Rattle.std.specs.Prelude.{◌≡◌, ◌<◌, ◌++◌, ◌∷◌, [], IfOk, IfSome, IsTrue, OnOk, codes, decimal, length};
ghost use Rattle.std.specs.Io.KnownBytes.{Appends};

use command_streams::{
    End, Fault, Source, Stop, WriteFault, read_all, report, take_input, write_text,
};
use std::alloc::{AllocError, Global};
use std::io::{Read, Write};
use ttp_model::PlanFault;

/// What a reader gave, where its end is told: all that it had.
pub fn end_is_told_of_all_bytes<R: Read>(
    alloc: Global,
    reader: &mut R,
    limit: u32,
) -> Result<Option<Vec<u8>>, AllocError>
    ensures { IfOk result (λ given. IfSome given (λ bytes.
        IfSome (R.remaining reader.old) (λ all. bytes.items ≡ all))) }
{
    let taken = take_input(alloc, reader, limit as usize)?;
    match taken.stop {
        Stop::AtEnd => Ok(Some(taken.bytes)),
        Stop::OverLimit | Stop::Failed => Ok(None),
    }
}

/// What is over its limit is refused, and none of it is read.
pub fn what_is_over_its_limit_is_refused(alloc: Global, bytes: &[u8], limit: u32) -> bool
    ensures { limit < length bytes.now → IsTrue result }
{
    let mut reader = bytes;
    match read_all(alloc, &mut reader, limit as usize, Source::Plan) {
        Ok(_) => false,
        Err(_) => true,
    }
}

/// Two texts that are told as written stand in full, one behind the other.
pub fn both_texts_are_written<W: Write>(
    out: &mut W,
    first: &[u8],
    second: &[u8],
) -> Result<(), WriteFault>
    ensures { OnOk result (Appends (W.contents out.old) (W.contents out.new) (first.now ++ second.now)) }
{
    write_text(out, first)?;
    write_text(out, second)
}

/// A message that is not there when it is read has a code of its own.
pub fn late_message_is_told_as_late<W: Write>(
    message: u32,
    process: u32,
    out: &mut W,
) -> Result<(), WriteFault>
    ensures { OnOk result (Appends (W.contents out.old) (W.contents out.new)
        (((codes "plan V9 " ++ decimal message) ++ (codes " " ++ decimal process)) ++ 10 ∷ [])) }
{
    let fault = Fault::Plan(PlanFault::NotArrived(message, process));
    report(&End::Refused(fault), out)
}
