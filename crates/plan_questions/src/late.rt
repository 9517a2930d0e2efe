//! How many ticks later would all have to end for there to be a plan?

mod answer;
mod late_cut;
mod least;

pub use answer::Lateness;
pub use least::least_lateness;
