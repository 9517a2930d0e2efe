//! What a node's software, a build and a viewer of traces take of a valid plan, as one text: constant arrays in C, one object of JSON, or
//! events of a trace.
#![tactic(auto)]

mod c_text;
mod counts;
mod export;
mod flows;
mod json_text;
mod loads;
mod origin;
mod trace_text;

pub use counts::{MOST_SLOTS, slots_of};
pub use export::{Export, ExportFault, print};
pub use origin::{Origin, sum_of};
