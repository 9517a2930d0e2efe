//! Reads the instance that a TOML text states, or names its first fault, and prints an instance as a text that states it.
#![tactic(auto)]

mod cluster;
mod error;
mod fields;
mod keys;
mod links;
mod messages;
mod names;
mod nodes;
mod printing;
mod processes;
mod same;
mod text;
mod top;
mod values;
mod written_tables;

pub use error::{Key, Place, TextError};
pub use keys::{has_key, keys_at};
pub use printing::{PrintFault, print};
pub use text::{document, read, stated_parts};
