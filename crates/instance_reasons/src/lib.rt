//! Why is an instance refused, or its text? The reason is a value, whose numbers are the model's or the text's own and whose names
//! stand there; `Display` tells it in sentences.
#![tactic(auto)]

mod capacities;
mod circles;
mod counts;
mod described;
mod grammar;
mod joins;
mod keys;
mod known;
mod laws;
mod malformed;
mod near;
mod parts;
mod ranges;
mod reason;
mod rules;
mod shared;
mod spots;
mod tables;
mod texts;
mod times;
mod values;

pub use capacities::{CapacityFault, WrongCapacities};
pub use circles::{Circle, CircleStep, Join};
pub use counts::{NoReceiver, WrongCount, entry_words};
pub use described::{LargeMessage, Sizes, sizes_of};
pub use grammar::{NotToml, not_toml};
pub use joins::{BothOfOne, ReceiverThere, ReceiverTwice, WrongLink};
pub use known::{Known, list_named_at, names_under, unknown_name};
pub use laws::{
    large_messages_leave_no_plan, near_names_are_there, odd_keys_are_unknown,
    odd_names_are_unknown, what_is_wanted_is_read,
};
pub use malformed::{MalformedName, NameFault, name_fault};
pub use near::{NearName, near_name, nearest};
pub use parts::{link_at, message_name, node_name, process_name};
pub use ranges::{Outside, OutsideRange};
pub use reason::{InstanceReason, ReadAgain, reason_of, reread};
pub use rules::{NoSuchIndex, RuleReason, rule_reason};
pub use shared::SharedName;
pub use spots::{Spot, index_of, table_word, text_name};
pub use tables::{name_of, table_at};
pub use texts::{
    MissingKey, OddKey, OddName, TextReason, UnfitNumber, WrongKind, found_at, name_of_none,
    near_key, near_of, number_at, text_reason,
};
pub use times::{NoTime, ShortLead, ShortTrail};
pub use values::{Found, Kind, Shape, found_of, unfit_of, wanted_node, wanted_to};
