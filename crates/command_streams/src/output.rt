//! How a text is written, so that a fault leaves a prefix of it.

ghost use Rattle.std.specs.Prelude.{OnOk, OnErr};
ghost use Rattle.std.specs.Io.KnownBytes.{Appends};
ghost use Rattle.command_streams.specs.Streams.{AppendsPart};
ghost use Rattle.command_streams.specs.Outcomes.{IsWriting};

use crate::ending::{End, Fault, Sink};
use std::io::Write;

/// When a write failed, or took no byte, or there is no room for a line.
#[derive(Clone, Copy, PartialEq, Eq)]
pub struct WriteFault;

/// Writes a text by single writes, each of what is left. A write that takes no byte has failed.
pub fn write_text<W: Write>(out: &mut W, text: &[u8]) -> Result<(), WriteFault>
    ensures ok { OnOk result (Appends (W.contents out.old) (W.contents out.new) text.now) }
    ensures err { OnErr result (AppendsPart (W.contents out.old) (W.contents out.new) text.now) }
{
    let mut at = 0;
    'writes: while at < text.len() {
        let (_, rest) = text.split_at(at);
        match out.write(rest) {
            Ok(0) | Err(_) => return Err(WriteFault),
            Ok(n) => at += n,
        }
    }
    Ok(())
}

/// Writes a text, which ends a command.
pub fn end_with<W: Write>(out: &mut W, text: &[u8]) -> End
    ensures { IsWriting text.now (W.contents out.old) (W.contents out.new) result }
{
    match write_text(out, text) {
        Ok(()) => End::Done,
        Err(_) => End::Refused(Fault::Unwritten(Sink::Out)),
    }
}
