//! How does `age` end, and with which status?

ghost use Rattle.std.specs.Prelude.{◌≡◌};
ghost use Rattle.question_commands.specs.AgeEndings.{age_status_of};

use command_streams::{End, status};
use rates_command::{RatesEnd, rates_status};

/// How it ends.
#[derive(Drop)]
pub enum AgeEnd {
    /// What was asked for was searched, and is told or refused at this end.
    Searched(End),
    /// No chain has the name.
    NoSuchChain,
    /// The cluster is refused.
    OfRates(RatesEnd),
}

/// The program's exit status.
pub fn age_status(end: &AgeEnd) -> u8
    ensures { result ≡ age_status_of end.now }
{
    match end {
        AgeEnd::Searched(end) => status(end),
        AgeEnd::NoSuchChain => 5,
        AgeEnd::OfRates(end) => rates_status(end),
    }
}
