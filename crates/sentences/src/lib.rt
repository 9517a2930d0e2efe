//! The pieces that sentences are made of, and how sentences are put into a text: whatever they say, no byte of them does anything to a
//! terminal.
#![tactic(auto)]

mod counts;
mod lists;
mod members;
mod shown;
mod telling;

pub use counts::{Bytes, Counted, Ticks};
pub use line_text::Told;
pub use lists::{Listed, MOST_ITEMS};
pub use members::{
    Member, Members, long_number_if_any, number_if_any, piece_if_any, put_members, told_if_any,
    write_kind, write_member, write_members, write_members_and, write_members_of,
};
pub use shown::put;
pub use telling::{Word, tell};
