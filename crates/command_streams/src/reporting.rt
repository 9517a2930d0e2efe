//! How is the line of a refusal written on standard error?

ghost use Rattle.std.specs.Prelude.{◌≡◌, ◌≢◌, ◌++◌, ◌∷◌, [], IfErr, IfOk, OnErr, OnOk};
ghost use Rattle.std.specs.Io.KnownBytes.{Appends};
ghost use Rattle.command_streams.specs.Lines.{line_behind, release_word, release_words, report_of};
ghost use Rattle.command_streams.specs.Streams.{AppendsPart};

use crate::ending::{End, Fault, Release, status_of_fault};
use crate::output::{WriteFault, write_text};
use arrayvec::ArrayString;
use std::fmt::Write;
use std::{fmt, io};

/// The bytes of a line, at most. The longest that a command can tell names a cycle of all processes.
const MOST_LINE_BYTES: usize = 1024;

/// The status where memory was refused, which is no matter of a release.
const WANT_OF_MEMORY: u8 = 4;

/// The line of a fault behind words, with its end.
fn line_of(words: &str, fault: &Fault) -> Result<ArrayString<MOST_LINE_BYTES>, fmt::Error>
    ensures { IfOk result (λ line. line.bytes ≡ line_behind words.now fault.now) }
{
    let mut line = ArrayString::new();
    writeln!(line, "{words}{fault}")?;
    Ok(line)
}

/// Writes the line of a fault behind words.
fn report_fault<W: io::Write>(words: &str, fault: &Fault, out: &mut W) -> Result<(), WriteFault>
    ensures ok { OnOk result (Appends (W.contents out.old) (W.contents out.new) (line_behind words.now fault.now)) }
    ensures err { OnErr result (AppendsPart (W.contents out.old) (W.contents out.new) (line_behind words.now fault.now)) }
{
    let Ok(line) = line_of(words, fault) else {
        return Err(WriteFault);
    };
    write_text(out, line.as_bytes())
}

/// The word for a release, with a space behind it.
fn release_word(release: Release) -> &'static str
    ensures { result.now ≡ release_word release }
{
    match release {
        Release::Old => "old ",
        Release::New => "new ",
    }
}

/// What stands before the line of a fault of a release.
fn release_words(release: Release, fault: &Fault) -> &'static str
    ensures { result.now ≡ release_words release fault.now }
{
    if status_of_fault(fault) == WANT_OF_MEMORY {
        return "";
    }
    release_word(release)
}

/// Writes the line of a refusal, behind the word for its release where there are two, and nothing for any other end. Takes no memory. After a failed write a prefix of the
/// line stands.
pub fn report<W: io::Write>(end: &End, out: &mut W) -> Result<(), WriteFault>
    ensures ok { OnOk result (Appends (W.contents out.old) (W.contents out.new) (report_of end.now)) }
    ensures err { OnErr result (AppendsPart (W.contents out.old) (W.contents out.new) (report_of end.now)) }
    // It fails only where there is a line.
    ensures some { IfErr result (λ _. report_of end.now ≢ []) }
{
    match end {
        End::Refused(fault) => report_fault("", fault, out),
        End::RefusedOf(release, fault) => {
            report_fault(release_words(*release, fault), fault, out)
        }
        End::Done | End::Different | End::Absent | End::Stopped => Ok(()),
    }
}
