//! The best delay that any worker has found so far, as one word that threads share.
#![tactic(auto)]

mod word;

pub use ttp_model::MemoryFault;
pub use word::{Incumbent, View, Watch};
