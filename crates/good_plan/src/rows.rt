//! Short lists of places, one behind another.

ghost use Rattle.std.specs.Prelude.{◌≡◌, ◌<◌, ◌+◌, length};

use crate::shelf::Shelf;
use crate::table::Table;
use std::ops::Range;

/// Rows of places, numbered from 0. A row that isn't there is empty.
#[derive(Drop)]
pub struct Rows {
    items: Table,
    ends: Table,
}

impl Rows {
    /// So many rows of these items, each in the row that stands at its place in the other list.
    pub fn of(shelf: &mut Shelf, count: usize, items: &Table, rows_of_items: &Table) -> Self
        requires { 1 < length shelf.old.tables.items }
        ensures { length shelf.new.tables.items + 2 ≡ length shelf.old.tables.items }
    {
        let mut rows = Rows::none(shelf);
        for row in 0..count {
            rows.add(row, items, rows_of_items);
        }
        rows
    }

    /// No rows.
    pub fn none(shelf: &mut Shelf) -> Self
        requires { 1 < length shelf.old.tables.items }
        ensures { length shelf.new.tables.items + 2 ≡ length shelf.old.tables.items }
    {
        Rows {
            items: shelf.zeros(0),
            ends: shelf.zeros(0),
        }
    }

    /// Adds a row.
    fn add(&mut self, row: usize, items: &Table, rows_of_items: &Table) {
        for k in 0..items.len() {
            if rows_of_items.place_at(k) == row {
                self.items.push(items.at(k));
            }
        }
        self.ends.push(self.items.len() as u64);
    }

    pub fn row(&self, row: usize) -> &[u64] {
        let places = self.places(row);
        self.items.part(places.start, places.end)
    }

    /// Where a row stands among all places.
    pub fn places(&self, row: usize) -> Range<usize> {
        let next = row.saturating_add(1);
        self.begin(row)..self.begin(next)
    }

    /// All rows, one behind another.
    pub fn all(&self) -> &Table {
        &self.items
    }

    /// Where a row begins among all places.
    fn begin(&self, row: usize) -> usize {
        if row == 0 {
            0
        } else {
            self.ends.place_at(row - 1)
        }
    }
}
