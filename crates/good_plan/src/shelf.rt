//! Lists that are had at once, so that what is made of them wants no memory.

ghost use Rattle.std.specs.Prelude.{◌≡◌, ◌<◌, ◌+◌, IfOk, length};

use crate::table::Table;
use std::alloc::{AllocError, Global};

/// Lists that nothing uses yet.
#[derive(Drop)]
pub struct Shelf {
    tables: Vec<Table>,
}

impl Shelf {
    /// So many lists.
    pub fn of(alloc: Global, count: usize) -> Result<Self, AllocError>
        ensures { IfOk result (λ shelf. length shelf.tables.items ≡ count) }
    {
        let mut tables = Vec::new(alloc);
        for _ in 0..count {
            let table = Table::new(alloc)?;
            tables.push(table)?;
        }
        Ok(Shelf { tables })
    }

    /// Takes a list, of so many places with 0.
    pub fn zeros(&mut self, count: usize) -> Table
        requires { 0 < length self.old.tables.items }
        ensures { length self.new.tables.items + 1 ≡ length self.old.tables.items }
    {
        let mut table = self.tables.pop().unwrap();
        table.widen(count);
        table
    }

    /// Takes a list, of so many places, each with its own number.
    pub fn numbered(&mut self, count: usize) -> Table
        requires { 0 < length self.old.tables.items }
        ensures { length self.new.tables.items + 1 ≡ length self.old.tables.items }
    {
        let mut table = self.zeros(0);
        table.number(count);
        table
    }

    /// Takes a list, with the numbers of another one.
    pub fn copy(&mut self, other: &Table) -> Table
        requires { 0 < length self.old.tables.items }
        ensures { length self.new.tables.items + 1 ≡ length self.old.tables.items }
    {
        let mut table = self.zeros(0);
        table.take_over(other);
        table
    }
}
