//! How is the line of a refusal written on standard error?

ghost use Rattle.std.specs.Prelude.{OnErr, OnOk};
ghost use Rattle.std.specs.Io.KnownBytes.{Appends};
ghost use Rattle.command_streams.specs.Streams.{AppendsPart};
ghost use Rattle.question_commands.specs.AgeEndings.{age_report};

use crate::age_ending::AgeEnd;
use command_streams::{WriteFault, report, write_text};
use rates_command::report_rates;
use std::io::Write;

/// Writes the line of a refusal, and nothing for any other end. Takes no memory. After a failed write a prefix of the line stands.
pub fn report_age<W: Write>(end: &AgeEnd, out: &mut W) -> Result<(), WriteFault>
    ensures ok { OnOk result (Appends (W.contents out.old) (W.contents out.new) (age_report end.now)) }
    ensures err { OnErr result (AppendsPart (W.contents out.old) (W.contents out.new) (age_report end.now)) }
{
    match end {
        AgeEnd::Searched(end) => report(end, out),
        AgeEnd::NoSuchChain => write_text(out, b"age name\n"),
        AgeEnd::OfRates(end) => report_rates(end, out),
    }
}
