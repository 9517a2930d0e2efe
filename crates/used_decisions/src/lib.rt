//! Which subtrees needn't be worked, by the decisions that closed ones use?
#![tactic(auto)]

mod branch;
mod branches;
mod children;
mod copies;
mod dropped_laws;
mod dropping;
mod flags;
mod given;
mod heights;
mod laws;
mod levels;
mod manner;
mod mirrors;
mod needs;
mod orders;
mod others;
mod parts;
mod pass;
mod path;
mod reader;
mod rows;
mod spans;
mod spared;
mod standing;
mod tables;
mod tree_parts;
mod turn;
mod uses;
mod way;

pub use branches::branches_among;
pub use copies::copy_of_leaf;
pub use dropped_laws::ruled_out_choices_have_proofs;
pub use dropping::{accepted, proof_of, without_unused};
pub use laws::{
    proved_subtrees_are_ruled_out, the_last_decision_counts, told_places_are_kept,
    used_decisions_rule_out,
};
pub use levels::Levels;
pub use manner::{Manner, usual_manner};
pub use needs::Needs;
pub use path::Path;
pub use reader::Reader;
pub use spared::left_out;
pub use standing::Standing;
pub use turn::{Cut, OnChannel, Placed, Turn};
