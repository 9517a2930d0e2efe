//! The search for the shortest plan, and its tree as a certificate.
#![tactic(auto)]

mod aiming;
mod begun;
mod closing;
mod collecting;
mod crew;
mod end_tree;
mod fault;
mod joining;
mod laws;
mod leaner;
mod muster;
mod onward;
mod parting;
mod parts;
mod raised;
mod replay;
mod reserve;
mod sharp;
mod solving;
mod spared;

pub use begun::{Begun, begin};
pub use fault::BeginFault;
pub use laws::{answers_have_certificate_texts, answers_show, searches_answer};
pub use onward::{OnFault, Onward, solve_on, solve_wide};
pub use parts::{Dealt, Portion, part_of};
pub use search_workers::{
    FoundPlan, FreeGate, Gate, GatherFault, Manner, Name, Options, Outcome, Site, SolveFault, Why,
    gather, gathered_certificates_have_texts, leaves_close_a_tree, names_make_one_tree, root_bound,
    whole_trees_prove,
};
pub use sharp::sharp_leaf;
pub use solving::{solve, solve_towards, solve_with};
pub use spared::spared_leaves;
