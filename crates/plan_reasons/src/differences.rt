//! By how much is a number another than the right one?

ghost use Rattle.std.specs.Prelude.{◌≢◌};
ghost use Rattle.plan_reasons.specs.Differences.{IsDifference};

use sentences::Word::{Number, Text};
use sentences::{Member, tell};
use std::fmt;

/// By how much a number is too large or too small: by 1 at least.
#[derive(Clone, Copy)]
pub enum Difference {
    TooMany(u64),
    TooFew(u64),
}

/// By how much a number is another than the right one.
pub fn difference_of(number: u64, right: u64) -> Difference
    requires { number ≢ right }
    ensures { IsDifference number right result }
{
    if right < number {
        Difference::TooMany(number - right)
    } else {
        Difference::TooFew(right.saturating_sub(number))
    }
}

impl Difference {
    /// As a member of an object.
    pub fn member(self) -> Member<'static> {
        match self {
            Difference::TooMany(by) => Member::NumberOf("too_many", by),
            Difference::TooFew(by) => Member::NumberOf("too_few", by),
        }
    }

    /// The difference alone.
    pub fn by(self) -> u64 {
        match self {
            Difference::TooMany(by) | Difference::TooFew(by) => by,
        }
    }

    /// In which direction it goes, behind what it counts.
    pub fn side(self) -> &'static str {
        match self {
            Difference::TooMany(_) => "too many",
            Difference::TooFew(_) => "too few",
        }
    }
}

impl fmt::Display for Difference {
    fn fmt<W: fmt::Write>(&self, f: &mut fmt::Formatter<W>) -> fmt::Result {
        tell(f, "{} {}", &[Number(self.by()), Text(self.side())])
    }
}
