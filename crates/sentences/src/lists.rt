//! How is a list told?

use std::fmt;

/// How many items of a list are told, at most.
pub const MOST_ITEMS: usize = 12;

/// How many of them stand in a line.
const LINE_ITEMS: usize = 4;

/// The first items of a list, four in a line, and how many more there are.
#[derive(Clone, Copy)]
pub struct Listed<'a, T> {
    pub items: &'a [T],
}

impl<'a, T: fmt::Display> fmt::Display for Listed<'a, T> {
    fn fmt<W: fmt::Write>(&self, f: &mut fmt::Formatter<W>) -> fmt::Result {
        let items = self.items;
        let count = items.len();
        for k in 0..count.min(MOST_ITEMS) {
            let before = separator(k);
            let item = &items[k];
            write!(f, "{before}{item}")?;
        }
        if MOST_ITEMS < count {
            let more = count - MOST_ITEMS;
            write!(f, ", and {more} more")?;
        }
        Ok(())
    }
}

/// What stands before an item.
fn separator(k: usize) -> &'static str {
    if k == 0 {
        ""
    } else if k % LINE_ITEMS == 0 {
        ",\n    "
    } else {
        ", "
    }
}
