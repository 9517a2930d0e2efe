//! How does the text of a table grow, cell by cell and line by line?

ghost use Rattle.std.specs.Prelude.{◌≡◌, [], ◌∷◌, ◌++◌, IfOk, OnOk, decimal, map};
ghost use Rattle.plan_sheets.specs.Lines.{IsSheet, IsTidy, cells_of, line_of, text_of};

use csv::{ByteRecord, Writer, WriterBuilder};
use line_text::push_number;
use std::alloc::Global;
use ttp_model::MemoryFault;

/// A table's text, and the cells of the line that comes next.
#[derive(Drop)]
pub struct Sheet {
    writer: Writer<Vec<u8>>,
    cells: ByteRecord,
    /// The digits of the last number.
    digits: Vec<u8>,
}

impl Sheet {
    /// A table of this head.
    pub fn new(alloc: Global, head: &[u8]) -> Result<Self, MemoryFault>
        ensures { IfOk result (λ sheet. IsSheet sheet head.now []) }
    {
        let text = Vec::from_slice(alloc, head)?;
        Ok(Sheet {
            writer: WriterBuilder::new().from_writer(text),
            cells: ByteRecord::new(alloc),
            digits: Vec::new(alloc),
        })
    }

    /// Adds a cell.
    pub fn put(&mut self, cell: &[u8]) -> Result<(), MemoryFault>
        requires { IsTidy self.old }
        ensures { OnOk result (IsSheet self.new (text_of self.old) (cells_of self.old ++ cell.now ∷ [])) }
    {
        self.cells.push_field(cell)?;
        Ok(())
    }

    /// Adds a cell with a number.
    pub fn put_number(&mut self, number: u64) -> Result<(), MemoryFault>
        requires { IsTidy self.old }
        ensures { OnOk result (IsSheet self.new (text_of self.old) (cells_of self.old ++ decimal number ∷ [])) }
    {
        self.digits.clear();
        push_number(&mut self.digits, number)?;
        self.cells.push_field(self.digits.as_slice())?;
        Ok(())
    }

    /// Adds a cell for each of these numbers.
    pub fn put_numbers(&mut self, numbers: &[u64]) -> Result<(), MemoryFault>
        requires { IsTidy self.old }
        ensures { OnOk result (IsSheet self.new (text_of self.old) (cells_of self.old ++ map decimal numbers.now)) }
    {
        for number in numbers {
            self.put_number(*number)?;
        }
        Ok(())
    }

    /// Ends the line.
    pub fn end_line(&mut self) -> Result<(), MemoryFault>
        requires { IsTidy self.old }
        ensures { OnOk result (IsSheet self.new (text_of self.old ++ line_of (cells_of self.old)) []) }
    {
        let Ok(()) = self.writer.write_byte_record(&self.cells) else {
            return Err(MemoryFault);
        };
        self.cells.clear();
        Ok(())
    }

    /// The text.
    pub fn into_text(self) -> Result<Vec<u8>, MemoryFault>
        ensures { IfOk result (λ text. text.items ≡ text_of self) }
    {
        match self.writer.into_inner() {
            Ok(text) => Ok(text),
            Err(_) => Err(MemoryFault),
        }
    }
}
