//! How are numbers told with what they count?

use std::fmt;

/// So many of something, of which there is a word for one and a word for more.
#[derive(Clone, Copy)]
pub struct Counted {
    pub number: u64,
    pub one: &'static str,
    pub many: &'static str,
}

impl fmt::Display for Counted {
    fn fmt<W: fmt::Write>(&self, f: &mut fmt::Formatter<W>) -> fmt::Result {
        let number = self.number;
        let unit = if number == 1 { self.one } else { self.many };
        write!(f, "{number} {unit}")
    }
}

/// So many ticks.
#[derive(Clone, Copy)]
pub struct Ticks(pub u64);

impl fmt::Display for Ticks {
    fn fmt<W: fmt::Write>(&self, f: &mut fmt::Formatter<W>) -> fmt::Result {
        let counted = Counted {
            number: self.0,
            one: "tick",
            many: "ticks",
        };
        write!(f, "{counted}")
    }
}

/// So many bytes.
#[derive(Clone, Copy)]
pub struct Bytes(pub u64);

impl fmt::Display for Bytes {
    fn fmt<W: fmt::Write>(&self, f: &mut fmt::Formatter<W>) -> fmt::Result {
        let counted = Counted {
            number: self.0,
            one: "byte",
            many: "bytes",
        };
        write!(f, "{counted}")
    }
}
