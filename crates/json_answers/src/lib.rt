//! How is what a command answers written as one JSON object, at the end that it has?
#![tactic(auto)]

mod answers;
mod commands;
mod members;
mod places;
mod rows;
mod words;

pub use answers::{Ended, ObjectFault, end_in_memory, end_or, tell, untold, write_object};
pub use commands::{
    AGE, COMPARE, CommandLines, EXPLAIN, JUDGE, LIMIT, MARGIN, REPEAT, VERIFY, WHY,
};
pub use members::{Members, Reasons};
pub use rows::LineRow;
