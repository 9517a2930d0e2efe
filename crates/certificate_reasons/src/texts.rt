//! Why does a text spell no certificate?

ghost use Rattle.certificate_reasons.specs.Texts.{IsTextReason};

use crate::lines::{CertLine, cert_line};
use crate::places::{LinePlace, awaited_at};
use certificate::{LineFault, MOST_BRANCHES_ABOVE};
use sentences::Word::Number;
use sentences::tell;
use std::fmt;
use std::fmt::Display;

/// The line of a text that is at fault, and what has to stand there.
#[derive(Clone, Copy)]
pub struct TextReason<'a> {
    pub line: CertLine<'a>,
    pub fault: LineFault,
    /// What has to stand there.
    pub place: LinePlace,
}

/// Why a text spells no certificate, by the line and the fault that reading it answered. A pass over the text.
pub fn text_reason(certificate: &[u8], line: u64, fault: LineFault) -> TextReason<'_>
    ensures { IsTextReason certificate.now line fault result }
{
    TextReason {
        line: cert_line(certificate, line),
        fault,
        place: awaited_at(certificate, line),
    }
}

/// Writes the forms of a node's line.
fn write_node_forms<W: fmt::Write>(f: &mut fmt::Formatter<W>) -> fmt::Result {
    f.write_str(
        "It has to be a node:\n  place CHILDREN, cap NODE CHILDREN, pair PROCESS PROCESS, round MESSAGE ROUND, leaf GOAL STEPS,\n",
    )?;
    f.write_str("  or below ttcert 2 chan MESSAGE 3\n")
}

/// Writes the forms of a step's line.
fn write_step_forms<W: fmt::Write>(f: &mut fmt::Formatter<W>) -> fmt::Result {
    f.write_str(
        "It has to be a step:\n  es-release PROCESS, es-link LINK, es-before PROCESS PROCESS",
    )?;
    f.write_str(", es-arrive MESSAGE PROCESS, es-message MESSAGE PROCESS, us-settled PROCESS,\n")?;
    f.write_str(
        "  le-own PROCESS, le-link LINK, le-before PROCESS PROCESS, le-message MESSAGE PROCESS, le-send MESSAGE,\n",
    )?;
    f.write_str(
        "  lo-send MESSAGE, hi-arrive MESSAGE PROCESS, ord-window PROCESS PROCESS, ord-twin PROCESS PROCESS,\n",
    )?;
    f.write_str(
        "  x-window PROCESS, x-round MESSAGE, x-cycle PROCESS PROCESS .., x-late MESSAGE ROUND, x-silent NODE NODE,\n",
    )?;
    f.write_str("  x-load NODE FROM UNTIL, x-frame MESSAGE, x-frames NODE FROM UNTIL,\n")?;
    f.write_str("  or below ttcert 2 x-channel CHANNEL NODE FROM UNTIL, x-mirror MESSAGE\n")
}

/// Writes what has to stand there.
fn write_form<W: fmt::Write>(f: &mut fmt::Formatter<W>, place: LinePlace) -> fmt::Result {
    match place {
        LinePlace::First => f.write_str("It has to be: ttcert 1, or ttcert 2\n"),
        LinePlace::Low => f.write_str("It has to be: low TICKS\n"),
        LinePlace::Node => write_node_forms(f),
        LinePlace::Step => write_step_forms(f),
    }
}

impl<'a> fmt::Display for TextReason<'a> {
    fn fmt<W: fmt::Write>(&self, f: &mut fmt::Formatter<W>) -> fmt::Result {
        let (line, place) = (self.line, self.place);
        line.fmt(f)?;
        match self.fault {
            LineFault::FirstLine | LineFault::Form => {
                writeln!(f, "  {}", self.fault)?;
                write_form(f, place)
            }
            LineFault::Number => {
                f.write_str("A number of it is larger than 4294967295.\n")?;
                write_form(f, place)
            }
            LineFault::Depth => {
                tell(
                    f,
                    "More than {} branches stand above it.\n",
                    &[Number(MOST_BRANCHES_ABOVE as u64)],
                )
            }
            LineFault::EarlyEnd => {
                f.write_str("The text ends there, before the line's end.\n")?;
                write_form(f, place)
            }
            LineFault::Trailing => {
                f.write_str("The certificate ends before it, and nothing may stand behind that.\n")
            }
        }
    }
}
