//! Clusters whose processes have periods of their own: what they are, which job reads which, and what makes them lawful.
#![tactic(auto)]

mod cycles;
mod error;
mod finer;
mod laws;
mod leading;
mod limits;
mod parts;
mod rates;
mod reading;
mod rules;

pub use error::{RatesError, RatesPart, RatesPlace};
pub use finer::{make_finer, rounds_are_as_asked};
pub use laws::{cycle_is_whole_periods, reads_are_of_all_cycles};
pub use limits::{LEAST_THROUGH, MOST_CHAINS, MOST_DELAY, MOST_THROUGH};
pub use parts::{
    Chain, RatesCluster, RatesLink, RatesMessage, RatesNode, RatesParts, RatesProcess,
};
pub use rates::Rates;
