//! Which of two branches has less freedom?

ghost use Rattle.std.specs.Prelude.{◌≡◌, ◌⊎◌, Some};

use ttp_model::Kind;

/// A branch on a conflict, and how much freedom what is in conflict has.
#[derive(Clone, Copy)]
pub struct Candidate {
    pub kind: Kind,
    pub freedom: u64,
}

/// The one with less freedom: the earlier one, where both have the same.
pub fn tighter(known: Option<Candidate>, next: Candidate) -> Candidate
    ensures { (result ≡ next) ⊎ (known ≡ Some result) }
{
    match known {
        Some(earlier) if earlier.freedom <= next.freedom => earlier,
        _ => next,
    }
}
