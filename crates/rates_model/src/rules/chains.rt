//! Which process of a chain reads nothing of the one before it.

ghost use Rattle.std.specs.Prelude.{◌≡◌, ◌<◌, ◌≤◌, ◌↔◌, ℕ, IsTrue, MatchOption, length};
ghost use Rattle.ttp_model.specs.Lists.{EachBelow};
ghost use Rattle.rates_model.specs.Rates.{chain_at};
ghost use Rattle.rates_model.specs.Parts.{rates_of};
ghost use Rattle.rates_model.specs.Rules.{IsChain, KeepsRatesLimits, IsOfFewProcesses, ReadsAt, ReadsOf};
ghost use Rattle.rates_model.specs.Refusals.{IsFirstUnread};
ghost use Rattle.rates_model.specs.Searches.{FindsUnread};

use crate::leading::leads;
use crate::parts::RatesParts;

/// Whether q reads something of p.
fn reads_of(parts: &RatesParts, p: u32, q: u32) -> bool
    ensures { IsTrue result ↔ ReadsOf (rates_of parts.now) p q }
{
    leads(parts, p, q, 0) || leads(parts, p, q, 1)
}

/// The first place of a chain whose process reads nothing of the one before it.
fn unread_at(parts: &RatesParts, c: usize) -> Option<u32>
    requires inside { c < length parts.now.chains.items }
    requires few { IsOfFewProcesses (rates_of parts.now) c }
    ensures { FindsUnread (rates_of parts.now) c result }
{
    let through = parts.chains[c].through.as_slice();
    let count = through.len();
    for place in 1..count {
        if !reads_of(parts, through[place - 1], through[place]) {
            return Some(place as u32);
        }
    }
    None
}

/// The first chain with such a place, and its first.
pub fn unread(parts: &RatesParts) -> Option<(u32, u32)>
    requires limits { KeepsRatesLimits (rates_of parts.now) }
    requires few { EachBelow (length parts.now.chains.items) (IsOfFewProcesses (rates_of parts.now)) }
    ensures { MatchOption result
        (EachBelow (length parts.now.chains.items) (IsChain (rates_of parts.now)))
        (λ found. IsFirstUnread (rates_of parts.now) found.0 found.1) }
{
    for c in 0..parts.chains.len() {
        if let Some(place) = unread_at(parts, c) {
            return Some((c as u32, place));
        }
    }
    None
}
