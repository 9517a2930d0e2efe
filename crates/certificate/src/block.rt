//! Which bytes are taken of a reader, and which line is passed?

ghost use Rattle.std.specs.Prelude.{◌≡◌, ◌+◌, ◌-◌, ◌<◌, ◌≤◌, ◌∷◌, ◌++◌, [], List, ℕ, Option, length, take, vec_len, IfOk, IfErr, IfSome, IfNone, IsTrue, IsFalse, OnOk, OnErr};
ghost use Rattle.std.specs.Io.KnownBytes.{Consumes, IsAtEnd, Keeps};
ghost use Rattle.line_text.specs.Parts.{Lacks};
ghost use Rattle.certificate.specs.Limits.{most_text_bytes};

use crate::fault::SourceFault;
use crate::limits::MOST_TEXT_BYTES;
use crate::many_lines::lines_in;
use line_text::cut;
use std::alloc::{AllocError, Global};
use std::io::Read;

/// How many bytes are asked for at once: a guess.
const BLOCK: usize = 65_536;

/// The bytes that are taken of a reader, up to a limit and one more, and not yet passed, with the last line that was.
#[derive(Drop)]
pub struct Block {
    bytes: Vec<u8>,
    at: usize,
    end: usize,
    line: Vec<u8>,
    taken: usize,
    passed: u64,
    ghost ordered: { at ≤ end },
    ghost in_bounds: { end ≤ vec_len bytes },
    ghost within: { taken ≤ most_text_bytes + 1 },
    ghost counted: { passed + (end - at) ≤ taken },
}

/// Adds what stands before the first line's end to the line, or all bytes where there is none. How many stand before it.
fn add_part(held: &[u8], line: &mut Vec<u8>) -> Result<Option<usize>, AllocError>
    ensures some { IfOk result (λ found. IfSome found (λ count. (part rest : List ℕ)
        × ((count ≡ length part) × ((held.now ≡ part ++ 10 ∷ rest) × ((line.new.items ≡ line.old.items ++ part) × Lacks 10 part))))) }
    ensures none { IfOk result (λ found. IfNone found
        ((line.new.items ≡ line.old.items ++ held.now) × Lacks 10 held.now)) }
{
    match cut(b'\n', held) {
        Some((part, _)) => {
            line.extend_from_slice(part)?;
            Ok(Some(part.len()))
        }
        None => {
            line.extend_from_slice(held)?;
            Ok(None)
        }
    }
}

/// Reads once, into the first places.
fn read_over<R: Read>(reader: &mut R, bytes: &mut Vec<u8>) -> Result<usize, SourceFault>
    ensures length { vec_len bytes.new ≡ vec_len bytes.old }
    ensures within { IfOk result (λ count. count ≤ vec_len bytes.new) }
    ensures taken { IfOk result (λ count. Consumes (R.remaining reader.old) (R.remaining reader.new) (take count bytes.new.items)) }
    ensures end { IfOk result (λ count. count ≡ 0 → 0 < vec_len bytes.old → IsAtEnd (R.remaining reader.new)) }
    ensures fault { IfErr result (λ e. e ≡ SourceFault.Read) }
    ensures kept { OnErr result (Keeps (R.remaining reader.old) (R.remaining reader.new)) }
{
    match reader.read(bytes.as_mut_slice()) {
        Ok(count) => Ok(count),
        Err(_) => Err(SourceFault::Read),
    }
}

impl Block {
    ghost use Rattle.certificate.specs.Blocks.{held, IsFrom, Stops, PassesPart, PassesLine};
    ghost use Rattle.certificate.specs.RawLines.{PassesSome, PassesLines};

    /// Nothing is taken yet, and no memory.
    pub fn new(alloc: Global) -> Block
        ensures held { held result ≡ [] }
        ensures taken { result.taken ≡ 0 }
        ensures passed { result.passed ≡ 0 }
    {
        Block {
            bytes: Vec::new(alloc),
            at: 0,
            end: 0,
            line: Vec::new(alloc),
            taken: 0,
            passed: 0,
        }
    }

    /// The line that was passed last, without its end.
    pub fn line(&self) -> &[u8]
        ensures { result.now ≡ self.now.line.items }
    {
        self.line.as_slice()
    }

    /// The number of the next line.
    pub fn number(&self) -> u64
        ensures { result ≡ self.now.passed + 1 }
    {
        self.passed + 1
    }

    /// Whether all bytes that were taken are passed.
    pub fn is_empty(&self) -> bool
        ensures empty { IsTrue result → self.now.at ≡ self.now.end }
        ensures some { IsFalse result → 0 < length (held self.now) }
    {
        self.at == self.end
    }

    /// Passes what is held up to a line's end, or all of it where there is none. Whether there is one.
    fn pass_part(&mut self) -> Result<bool, AllocError>
        ensures part { IfOk result (PassesPart self.old self.new) }
        ensures whole { IfOk result (λ whole. IsTrue whole → self.new.passed ≡ self.old.passed + 1) }
        ensures open { IfOk result (λ whole. IsFalse whole → self.new.passed ≡ self.old.passed) }
        ensures taken { self.new.taken ≡ self.old.taken }
    {
        let (at, end) = (self.at, self.end);
        match add_part(&self.bytes.as_slice()[at..end], &mut self.line)? {
            Some(count) => {
                self.at = at + count + 1;
                self.passed += 1;
                Ok(true)
            }
            None => {
                self.at = end;
                Ok(false)
            }
        }
    }

    /// Reads once, where nothing is held. Whether the reader has given bytes.
    pub fn refill<R: Read>(&mut self, reader: &mut R) -> Result<bool, SourceFault>
        requires { self.old.at ≡ self.old.end }
        ensures bytes { OnOk result (Consumes (R.remaining reader.old) (R.remaining reader.new) (held self.new)) }
        ensures some { IfOk result (λ more. IsTrue more → 0 < length (held self.new)) }
        ensures more { IfOk result (λ more. IsTrue more → self.old.taken < self.new.taken) }
        ensures end { IfOk result (λ more. IsFalse more → IsAtEnd (R.remaining reader.new)) }
        ensures none { IfOk result (λ more. IsFalse more → self.new.at ≡ self.new.end) }
        ensures within { OnOk result (self.new.taken ≤ most_text_bytes) }
        ensures line { self.new.line ≡ self.old.line }
        ensures passed { self.new.passed ≡ self.old.passed }
        ensures err { IfErr result (Stops self.new.taken) }
        ensures from { (all : Option (List ℕ)) → IsFrom (R.remaining reader.old) self.old.taken all → IsFrom (R.remaining reader.new) self.new.taken all }
    {
        if self.taken > MOST_TEXT_BYTES {
            return Err(SourceFault::TooLong);
        }
        self.at = 0;
        self.end = 0;
        self.bytes
            .resize(BLOCK.min(MOST_TEXT_BYTES + 1 - self.taken), 0)?;
        let count = read_over(reader, &mut self.bytes)?;
        self.end = count;
        self.taken += count;
        if self.taken > MOST_TEXT_BYTES {
            return Err(SourceFault::TooLong);
        }
        Ok(count > 0)
    }

    /// Passes a line, in reads that each give more. Whether it has an end.
    pub fn pass_line<R: Read>(&mut self, reader: &mut R) -> Result<bool, SourceFault>
        ensures line { IfOk result (PassesLine (R.remaining reader.old) (R.remaining reader.new) self.old self.new) }
        ensures whole { IfOk result (λ whole. IsTrue whole → self.new.passed ≡ self.old.passed + 1) }
        ensures err { IfErr result (Stops self.new.taken) }
        ensures from { (all : Option (List ℕ)) → IsFrom (R.remaining reader.old) self.old.taken all → IsFrom (R.remaining reader.new) self.new.taken all }
    {
        self.line.clear();
        'parts: while !self.pass_part()? {
            if !self.refill(reader)? {
                return Ok(false);
            }
        }
        Ok(true)
    }

    /// Passes what is held of so many lines, and adds it to a text. How many of them ended.
    fn pass_some(&mut self, count: u32, text: &mut Vec<u8>) -> Result<u32, AllocError>
        ensures some { IfOk result (PassesSome self.old self.new text.old.items text.new.items count) }
        ensures few { IfOk result (λ ends. ends ≤ count) }
        ensures passed { IfOk result (λ ends. self.new.passed ≡ self.old.passed + ends) }
        ensures taken { self.new.taken ≡ self.old.taken }
    {
        let (at, end) = (self.at, self.end);
        let held = &self.bytes.as_slice()[at..end];
        let (size, ends) = lines_in(held, count);
        let (part, _) = held.split_at(size);
        text.extend_from_slice(part)?;
        self.at = at + size;
        self.passed += u64::from(ends);
        Ok(ends)
    }

    /// Passes so many lines, in reads that each give more, and puts them into a text as they are. Whether all have an end.
    pub fn pass_lines<R: Read>(
        &mut self,
        reader: &mut R,
        count: u32,
        text: &mut Vec<u8>,
    ) -> Result<bool, SourceFault>
        ensures lines { IfOk result (PassesLines (R.remaining reader.old) (R.remaining reader.new) self.old self.new text.new.items count) }
        ensures passed { IfOk result (λ whole. IsTrue whole → self.new.passed ≡ self.old.passed + count) }
        ensures err { IfErr result (Stops self.new.taken) }
        ensures from { (all : Option (List ℕ)) → IsFrom (R.remaining reader.old) self.old.taken all → IsFrom (R.remaining reader.new) self.new.taken all }
    {
        text.clear();
        if count == 0 {
            return Ok(true);
        }
        let mut left = count;
        'parts: loop {
            left -= self.pass_some(left, text)?;
            if left == 0 {
                return Ok(true);
            }
            if !self.refill(reader)? {
                return Ok(false);
            }
        }
    }

    /// Reads to the end, and keeps nothing.
    pub fn read_on<R: Read>(&mut self, reader: &mut R) -> Result<(), SourceFault>
        ensures end { OnOk result (IsAtEnd (R.remaining reader.new)) }
        ensures within { OnOk result (self.new.taken ≤ most_text_bytes) }
        ensures err { IfErr result (Stops self.new.taken) }
        ensures from { (all : Option (List ℕ)) → IsFrom (R.remaining reader.old) self.old.taken all → IsFrom (R.remaining reader.new) self.new.taken all }
    {
        'reads: loop {
            self.at = self.end;
            if !self.refill(reader)? {
                return Ok(());
            }
        }
    }
}
