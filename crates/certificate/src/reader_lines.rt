//! Which lines does a reader give?

ghost use Rattle.std.specs.Prelude.{◌≡◌, ◌+◌, ◌≤◌, ℕ, List, [], Option, IfErr, IfOk, IsTrue, OnOk};
ghost use Rattle.std.specs.Io.KnownBytes.{IsAtEnd};
ghost use Rattle.certificate.specs.Limits.{most_text_bytes};
ghost use Rattle.certificate.specs.Sources.{Origin};
ghost use Rattle.certificate.specs.Blocks.{held, MayLeave, IsOrigin, Stops};
ghost use Rattle.certificate.specs.RawLines.{PassesLines};

use crate::block::Block;
use crate::fault::{LineFault, SourceFault};
use crate::source::LineSource;
use std::io::Read;

/// The lines of a reader's bytes, of which no more are taken than a limit and one.
#[derive(Drop)]
pub struct ReaderLines<'a, R> {
    pub reader: &'a mut R,
    pub block: Block,
}

impl<'a, R: Read> ReaderLines<'a, R> {
    /// Reads on to the end, and keeps nothing.
    pub fn read_on(&mut self) -> Result<(), SourceFault>
        ensures end { OnOk result (IsAtEnd (R.remaining self.new.reader.now)) }
        ensures within { OnOk result (self.new.block.taken ≤ most_text_bytes) }
        ensures err { IfErr result (Stops self.new.block.taken) }
        ensures from { (origin : Origin) → IsOrigin R.remaining self.old.reader self.old.block.taken origin
            → IsOrigin R.remaining self.new.reader self.new.block.taken origin }
    {
        self.block.read_on(self.reader)
    }

    /// Passes so many lines, and puts them into a text as they are. Whether all have an end.
    pub fn pass_lines(&mut self, count: u32, text: &mut Vec<u8>) -> Result<bool, SourceFault>
        ensures lines { IfOk result (PassesLines (R.remaining self.old.reader.now) (R.remaining self.new.reader.now) self.old.block self.new.block text.new.items count) }
        ensures passed { IfOk result (λ whole. IsTrue whole → self.new.block.passed ≡ self.old.block.passed + count) }
        ensures err { IfErr result (Stops self.new.block.taken) }
        ensures from { (origin : Origin) → IsOrigin R.remaining self.old.reader self.old.block.taken origin
            → IsOrigin R.remaining self.new.reader self.new.block.taken origin }
    {
        self.block.pass_lines(self.reader, count, text)
    }
}

impl<'a, R: Read> LineSource for ReaderLines<'a, R> {
    ghost may_leave = { λ s text. MayLeave (R.remaining s.reader.now) (held s.block) text };

    ghost passed = { λ s. s.block.passed };

    ghost line = { λ s. s.block.line.items };

    ghost may_stop = { λ s e. Stops s.block.taken e };

    ghost may_be_from = { λ s origin. IsOrigin R.remaining s.reader s.block.taken origin };

    fn next_line(&mut self) -> Result<(), SourceFault> {
        let number = self.block.number();
        if self.block.pass_line(self.reader)? {
            Ok(())
        } else {
            Err(SourceFault::Text(LineFault::EarlyEnd.at(number)))
        }
    }

    fn line(&self) -> &[u8] {
        self.block.line()
    }

    fn number(&self) -> u64 {
        self.block.number()
    }

    fn end(&mut self) -> Result<(), SourceFault> {
        let number = self.block.number();
        if !self.block.is_empty() {
            return Err(SourceFault::Text(LineFault::Trailing.at(number)));
        }
        let more = self.block.refill(self.reader)?;
        if more {
            return Err(SourceFault::Text(LineFault::Trailing.at(number)));
        }
        Ok(())
    }
}
