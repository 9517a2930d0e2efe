//! How does a join end, and which line tells why certificates aren't joined?

ghost use Rattle.std.specs.Prelude.{◌≡◌, IfOk, OnErr, OnOk, Some};
ghost use Rattle.std.specs.Io.KnownBytes.{Appends};
ghost use Rattle.command_streams.specs.Streams.{AppendsPart};
ghost use Rattle.plan_commands.specs.Endings.{join_line, join_report, join_word, status_of_join};

use arrayvec::ArrayString;
use command_streams::{End, Fault, WriteFault, report, status, status_of_fault, write_text};
use std::fmt::Write;
use std::{fmt, io};

/// The bytes of a certificate's line, at most. The longest has two numbers of twenty digits.
const MOST_LINE_BYTES: usize = 1024;

/// How a join ends.
#[derive(Drop)]
pub enum JoinEnd {
    /// As another command does: it is done, or refused for the instance, for want of memory, or where a writer failed.
    Ended(End),
    /// The certificate of this number, from 0, is refused.
    RefusedAt(usize, Fault),
}

/// The program's exit status.
pub fn join_status(end: &JoinEnd) -> u8
    ensures { result ≡ status_of_join end.now }
{
    match end {
        JoinEnd::Ended(end) => status(end),
        JoinEnd::RefusedAt(_, fault) => status_of_fault(fault),
    }
}

/// The words for a certificate's number, with a space behind them.
#[derive(Drop)]
struct JoinWord(usize);

impl fmt::Display for JoinWord {
    ghost output = { λ word. Some (join_word word.0) };

    fn fmt<W: fmt::Write>(&self, f: &mut fmt::Formatter<W>) -> fmt::Result {
        write!(f, "join {} ", self.0)
    }
}

/// The line of a fault of one of the certificates, with its end.
fn line_of(certificate: usize, fault: &Fault) -> Result<ArrayString<MOST_LINE_BYTES>, fmt::Error>
    ensures { IfOk result (λ line. line.bytes ≡ join_line certificate fault.now) }
{
    let mut line = ArrayString::new();
    writeln!(line, "{}{fault}", JoinWord(certificate))?;
    Ok(line)
}

/// Writes the line of a certificate's fault.
fn report_at<W: io::Write>(certificate: usize, fault: &Fault, out: &mut W) -> Result<(), WriteFault>
    ensures ok { OnOk result (Appends (W.contents out.old) (W.contents out.new) (join_line certificate fault.now)) }
    ensures err { OnErr result (AppendsPart (W.contents out.old) (W.contents out.new) (join_line certificate fault.now)) }
{
    let Ok(line) = line_of(certificate, fault) else {
        return Err(WriteFault);
    };
    write_text(out, line.as_bytes())
}

/// Writes the line of a refusal, and nothing for any other end. Takes no memory. After a failed write a prefix of the line stands.
pub fn report_join<W: io::Write>(end: &JoinEnd, out: &mut W) -> Result<(), WriteFault>
    ensures ok { OnOk result (Appends (W.contents out.old) (W.contents out.new) (join_report end.now)) }
    ensures err { OnErr result (AppendsPart (W.contents out.old) (W.contents out.new) (join_report end.now)) }
{
    match end {
        JoinEnd::Ended(end) => report(end, out),
        JoinEnd::RefusedAt(certificate, fault) => report_at(*certificate, fault, out),
    }
}
