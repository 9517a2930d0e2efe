//! Plans as text, both ways.
#![tactic(auto)]

mod channels;
mod column;
mod fault;
mod laws;
mod line;
mod order;
mod printing;
mod reading;

pub use column::{Column, keyword_of, part_of};
pub use fault::{LineFault, PlanTextError};
pub use laws::{
    faults_of_two_channels, spelling_is_of_one_plan, text_of_two_channels,
    word_is_a_name_by_the_model,
};
pub use printing::{print, push_value};
pub use reading::read;
