//! Which lines does a text in memory have?

ghost use Rattle.std.specs.Prelude.{◌≡◌, ◌+◌, ◌-◌, ◌<◌, ◌^◌, [], length};

use crate::fault::{LineFault, SourceFault};
use crate::source::LineSource;
use line_text::cut;

/// The lines of a text that is all there.
#[derive(Drop)]
pub struct SliceLines<'a> {
    rest: &'a [u8],
    line: &'a [u8],
    passed: u64,
    ghost counted: { passed + length rest.now < 2 ^ 64 - 1 },
}

impl<'a> SliceLines<'a> {
    /// No line is passed yet.
    pub fn new(text: &'a [u8]) -> SliceLines<'a>
        ensures rest { result.rest.now ≡ text.now }
        ensures passed { result.passed ≡ 0 }
    {
        SliceLines {
            rest: text,
            line: &[],
            passed: 0,
        }
    }

    /// The text stands behind so many lines.
    pub fn behind(passed: u64, text: &'a [u8]) -> SliceLines<'a>
        requires { passed < 2 ^ 63 }
        ensures rest { result.rest.now ≡ text.now }
        ensures passed { result.passed ≡ passed }
    {
        SliceLines {
            rest: text,
            line: &[],
            passed,
        }
    }
}

impl<'a> LineSource for SliceLines<'a> {
    ghost may_leave = { λ s text. text ≡ s.rest.now };

    ghost passed = { λ s. s.passed };

    ghost line = { λ s. s.line.now };

    ghost may_stop = { λ s e. ⊥ };

    ghost may_be_from = { λ s origin. Unit {0} };

    fn next_line(&mut self) -> Result<(), SourceFault> {
        match cut(b'\n', self.rest) {
            None => Err(SourceFault::Text(LineFault::EarlyEnd.at(self.number()))),
            Some((line, rest)) => {
                self.line = line;
                self.rest = rest;
                self.passed += 1;
                Ok(())
            }
        }
    }

    fn line(&self) -> &[u8] {
        self.line
    }

    fn number(&self) -> u64 {
        self.passed + 1
    }

    fn end(&mut self) -> Result<(), SourceFault> {
        if !self.rest.is_empty() {
            return Err(SourceFault::Text(LineFault::Trailing.at(self.number())));
        }
        Ok(())
    }
}
