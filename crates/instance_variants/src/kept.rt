//! Which constraints of an instance are kept, and what do they make of it?

mod constraints;
mod flags;
mod laws;
mod only;

pub use constraints::{Constraint, Constraints};
pub use flags::Flags;
pub use laws::{
    fewer_constraints_keep_the_plans, kept_constraints_are_listed, kept_constraints_make_instances,
    what_is_left_is_fewer,
};
pub use only::with_only;
