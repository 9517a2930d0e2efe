//! How is the line of a refusal written on standard error?

ghost use Rattle.std.specs.Prelude.{◌≡◌, ◌++◌, ◌∷◌, [], IfOk, OnErr, OnOk};
ghost use Rattle.std.specs.Io.KnownBytes.{Appends};
ghost use Rattle.command_streams.specs.Streams.{AppendsPart};
ghost use Rattle.rates_command.specs.Lines.{rates_line, rates_report};

use crate::ending::{RatesEnd, RatesFault};
use arrayvec::ArrayString;
use command_streams::{WriteFault, write_text};
use std::fmt::Write;
use std::{fmt, io};

/// The bytes of a line, at most. The longest that a command can tell names a cycle of all jobs.
const MOST_LINE_BYTES: usize = 16_384;

/// The line of a fault, with its end.
fn line_of(fault: &RatesFault) -> Result<ArrayString<MOST_LINE_BYTES>, fmt::Error>
    ensures { IfOk result (λ line. line.bytes ≡ rates_line fault.now ++ 10 ∷ []) }
{
    let mut line = ArrayString::new();
    writeln!(line, "{fault}")?;
    Ok(line)
}

/// Writes the line of a refusal, and nothing for any other end. Takes no memory. After a failed write a prefix of the line stands.
pub fn report_rates<W: io::Write>(end: &RatesEnd, out: &mut W) -> Result<(), WriteFault>
    ensures ok { OnOk result (Appends (W.contents out.old) (W.contents out.new) (rates_report end.now)) }
    ensures err { OnErr result (AppendsPart (W.contents out.old) (W.contents out.new) (rates_report end.now)) }
{
    match end {
        RatesEnd::Done => Ok(()),
        RatesEnd::Refused(fault) => {
            let Ok(line) = line_of(fault) else {
                return Err(WriteFault);
            };
            write_text(out, line.as_bytes())
        }
    }
}
