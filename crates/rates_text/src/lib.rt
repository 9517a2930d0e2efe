//! Reads the cluster of several rates that a TOML text states, or names its first fault.
#![tactic(auto)]

mod chains;
mod cluster;
mod error;
mod fields;
mod keys;
mod links;
mod messages;
mod names;
mod nodes;
mod processes;
mod text;
mod top;
mod values;

pub use error::{RatesKey, RatesTable, RatesTextError};
pub use keys::{has_key, keys_at};
pub use text::{read, stated_parts};
