//! Which node stands in the next lines of a reader, where a leaf's steps aren't read yet?

ghost use Rattle.std.specs.Prelude.{◌≡◌, ◌+◌, ◌<◌, ◌≤◌, ◌^◌, IfOk, IfErr, OnOk};
ghost use Rattle.certificate.specs.Words.{count_of};
ghost use Rattle.certificate.specs.Reading.{IsAnswer, text_node};
ghost use Rattle.certificate.specs.Blocks.{held, IsOrigin, MayLeave, Stops};
ghost use Rattle.certificate.specs.Limits.{most_branches_above};
ghost use Rattle.certificate.specs.RawLines.{SaysPiece, steps_in};
ghost use Rattle.certificate.specs.Sources.{Origin, IsFaultOn, OrMemory};

use crate::fault::{CertTextError, LineFault, SourceFault};
use crate::head::{Head, head_in};
use crate::limits::MOST_BRANCHES_ABOVE;
use crate::nodes::{count_of, steps_of};
use crate::reader_lines::ReaderLines;
use crate::slice_lines::SliceLines;
use crate::source::LineSource;
use crate::version::Version;
use std::alloc::Global;
use std::io::Read;
use ttp_model::Step;

/// So many steps that stand in a text of their own, behind a line with this number of a certificate of this version, in this
/// room.
pub fn read_steps(
    alloc: Global,
    version: Version,
    room: Vec<Step>,
    line: u64,
    count: u32,
    text: &[u8],
) -> Result<Vec<Step>, CertTextError>
    requires { line < 2 ^ 63 }
    ensures { IsAnswer (Unit {0}) (λ steps. steps.items) result (steps_in version count (line + 1) text.now) }
{
    let mut lines = SliceLines::behind(line, text);
    match steps_of(alloc, version, room, count, &mut lines) {
        Ok(steps) => Ok(steps),
        Err(SourceFault::Text(fault)) => Err(fault),
        Err(SourceFault::Read) => unreachable!(),
        Err(SourceFault::TooLong) => unreachable!(),
    }
}

/// The node in the next lines, which stands below so many branches. A leaf's steps are put into a text as they are.
pub fn piece_of<R: Read>(
    alloc: Global,
    version: Version,
    above: usize,
    lines: &mut ReaderLines<R>,
    text: &mut Vec<u8>,
) -> Result<Head, SourceFault>
    ensures said { IfOk result (λ head. SaysPiece version (MayLeave (R.remaining lines.old.reader.now) (held lines.old.block))
        (MayLeave (R.remaining lines.new.reader.now) (held lines.new.block)) above (lines.old.block.passed + 1) head text.new.items) }
    ensures place { OnOk result (above ≤ most_branches_above) }
    ensures passed { IfOk result (λ head. lines.new.block.passed ≡ lines.old.block.passed + 1 + count_of head) }
    ensures err { IfErr result (IsFaultOn (OrMemory (Stops lines.new.block.taken))
        (MayLeave (R.remaining lines.old.reader.now) (held lines.old.block)) (text_node version above (lines.old.block.passed + 1))) }
    ensures from { (origin : Origin) → IsOrigin R.remaining lines.old.reader lines.old.block.taken origin
        → IsOrigin R.remaining lines.new.reader lines.new.block.taken origin }
{
    let number = lines.number();
    lines.next_line()?;
    let head = head_in(version, number, lines.line())?;
    if above > MOST_BRANCHES_ABOVE {
        return Err(SourceFault::Text(LineFault::Depth.at(number)));
    }
    let count = count_of(head);
    if lines.pass_lines(count, text)? {
        return Ok(head);
    }
    // The text ends in these lines, so reading them is at fault.
    let room = Vec::new(alloc);
    match read_steps(alloc, version, room, number, count, text.as_slice()) {
        Ok(_) => unreachable!(),
        Err(fault) => Err(SourceFault::Text(fault)),
    }
}
