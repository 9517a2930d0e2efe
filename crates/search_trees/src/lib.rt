//! The subtrees of a search as tasks: where each stands, which are below it, and whether propagation closes it; and the tree that their
//! pieces make, with what it proves.
#![tactic(auto)]

mod children;
mod fault;
mod gathering;
mod laws;
mod name;
mod names;
mod order;
mod piece;
mod shared_list;
mod task;
mod tree_laws;
mod trial;

pub use children::child_tasks;
pub use fault::GatherFault;
pub use gathering::{gather, gather_whole};
pub use laws::{names_stand_once, one_choice_stands};
pub use name::Name;
pub use path_bounds::{Agenda, Propagator, best_goal, leaf_by};
pub use piece::Piece;
pub use task::Task;
pub use tree_laws::{
    gathered_certificates_have_texts, leaves_close_a_tree, names_make_one_tree, whole_trees_prove,
};
pub use trial::{Trial, tried};
