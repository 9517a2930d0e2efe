//! Which chain does a name mean?

ghost use Rattle.std.specs.Prelude.{◌≡◌, MatchOption};
ghost use Rattle.question_commands.specs.AgeChains.{HasName, NamesNone};

use rates_model::Rates;

/// The index of the chain of a name.
pub fn chain_named(rates: &Rates, name: &str) -> Option<usize>
    ensures { MatchOption result (NamesNone rates.now name.now) (HasName rates.now name.now) }
{
    for x in 0..rates.chains().len() {
        if rates.chain_at(x).name.as_bytes() == name.as_bytes() {
            return Some(x);
        }
    }
    None
}
