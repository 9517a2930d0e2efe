//! Proved callers: each calls one function of another crate, or none, and its contract is the right answer at a place where a likely
//! mistake would give another one.
#![tactic(auto)]

pub mod commands;
pub mod model;
pub mod reasons;
