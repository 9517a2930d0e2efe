//! Why is a line of a plan's text refused?

ghost use Rattle.std.specs.Prelude.{◌≡◌, ◌+◌, ◌<◌, ◌≤◌, ◌^◌};
ghost use Rattle.line_text.specs.Parts.{seen_rest};
ghost use Rattle.std.specs.Option.{option_map};
ghost use Rattle.plan_reasons.specs.Lines.{IsLineReason, lines_of, stranger_of, uneven_at};
ghost use Rattle.plan_reasons.specs.Orders.{seen_times};

use crate::forms::{Form, form_of, last_line};
use crate::orders::{TimesNamed, stranger, uneven};
use line_text::numbered_line;
use plan_format::LineFault;
use sentences::Word::{Number, Piece, Text};
use sentences::{Member, number_if_any, piece_if_any, tell, write_members_and};
use serde::{Described, Serialize, Serializer};
use std::fmt;
use std::fmt::Display;
use ttp_model::Instance;

/// The number of the order line.
const ORDER_LINE: u32 = 3;

/// A line of a plan's text that is at fault.
#[derive(Clone, Copy)]
pub struct LineReason<'a> {
    /// Its number, from 1, with the lines that stand in front of that text.
    pub line: u32,
    pub fault: LineFault,
    /// What stands there.
    pub text: &'a [u8],
    /// What has to stand there.
    pub form: Form<'a>,
    /// How many lines there have to be, with those in front, where the text ends too early.
    pub lines: Option<u32>,
    /// The first name of an order line that is no node's, where there is one.
    pub stranger: Option<&'a [u8]>,
    /// The first node that an order line names not once, where it names nodes alone.
    pub uneven: Option<TimesNamed<'a>>,
}

/// Why a line is refused. So many lines stand in front of the text, at most one. One pass over the text, and of an order line one over
/// its words for each node.
pub fn line_reason<'a>(
    instance: &'a Instance,
    bytes: &'a [u8],
    before: u32,
    line: u32,
    fault: LineFault,
) -> LineReason<'a>
    requires most { before ≤ 1 }
    requires number { before + line < 2 ^ 32 }
    ensures { IsLineReason instance.now bytes.now before line fault result }
{
    let text = numbered_line(bytes, u64::from(line));
    LineReason {
        line: before + line,
        fault,
        text,
        form: form_of(instance, line),
        lines: lines_of(instance, before, fault),
        stranger: stranger_of(instance, text, line, fault),
        uneven: uneven_at(instance, text, fault),
    }
}

/// How many lines there have to be, where the text ends too early.
fn lines_of(instance: &Instance, before: u32, fault: LineFault) -> Option<u32>
    requires { before ≤ 1 }
    ensures { result ≡ lines_of instance.now before fault }
{
    match fault {
        LineFault::EarlyEnd => Some(before + last_line(instance)),
        _ => None,
    }
}

/// The first name of the order line that is no node's.
fn stranger_of<'a>(
    instance: &Instance,
    text: &'a [u8],
    line: u32,
    fault: LineFault,
) -> Option<&'a [u8]>
    ensures { seen_rest result ≡ stranger_of instance.now text.now line fault }
{
    match fault {
        LineFault::Name => {
            if line == ORDER_LINE {
                stranger(instance, text)
            } else {
                None
            }
        }
        _ => None,
    }
}

/// The first node that the order line names not once.
fn uneven_at<'a>(instance: &'a Instance, text: &[u8], fault: LineFault) -> Option<TimesNamed<'a>>
    ensures { option_map seen_times result ≡ uneven_at instance.now text.now fault }
{
    match fault {
        LineFault::Order => uneven(instance, text),
        _ => None,
    }
}

impl<'a> LineReason<'a> {
    /// What is wrong with the line, around its number.
    fn wrong(&self) -> (&'static str, &'static str) {
        match self.fault {
            LineFault::Form => ("Line ", " has another form"),
            LineFault::Number => ("A number of line ", " is larger than 4294967295"),
            LineFault::Name => ("Line ", " names something else"),
            LineFault::Order => ("Line ", " doesn't name each node once"),
            LineFault::EarlyEnd => ("The text ends before the end of line ", ""),
            LineFault::Trailing => ("The text goes on in line ", ""),
        }
    }
}

impl<'a> Described for LineReason<'a> {}

impl<'a> Serialize for LineReason<'a> {
    fn serialize<S: Serializer>(&self, out: &mut S) -> Result<(), S::Error> {
        let members = [
            ("line", Member::Number(u64::from(self.line))),
            ("text", Member::Piece(self.text)),
            ("form", self.form.member()),
            ("lines", number_if_any(self.lines)),
            ("stranger", piece_if_any(self.stranger)),
        ];
        write_members_and(&members, "uneven", &self.uneven, out)
    }
}

impl<'a> fmt::Display for LineReason<'a> {
    fn fmt<W: fmt::Write>(&self, f: &mut fmt::Formatter<W>) -> fmt::Result {
        let ((before, behind), line) = (self.wrong(), self.line);
        tell(
            f,
            "{}{}{}.\n",
            &[Text(before), Number(u64::from(line)), Text(behind)],
        )?;
        if self.text.is_empty() {
            f.write_str("  it is empty\n")?;
        } else {
            tell(f, "  it is: {}\n", &[Piece(self.text)])?;
        }
        f.write_str("  it has to be: ")?;
        self.form.fmt(f)?;
        f.write_str("\n")?;
        if let Some(lines) = self.lines {
            tell(
                f,
                "  the text has to have {} lines\n",
                &[Number(u64::from(lines))],
            )?;
        }
        if let Some(word) = self.stranger {
            tell(f, "  {} is no node\n", &[Piece(word)])?;
        }
        if let Some(named) = self.uneven {
            f.write_str("  ")?;
            named.fmt(f)?;
            f.write_str("\n")?;
        }
        Ok(())
    }
}

impl<'a> fmt::Display for TimesNamed<'a> {
    fn fmt<W: fmt::Write>(&self, f: &mut fmt::Formatter<W>) -> fmt::Result {
        let (node, times) = (self.node, self.times);
        if times == 0 {
            tell(f, "it doesn't name {}", &[Text(node)])
        } else {
            tell(f, "it names {} {} times", &[Text(node), Number(times)])
        }
    }
}
