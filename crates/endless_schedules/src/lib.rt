//! Plans of clusters of several rates, in all cycles: what a plan of the instance of one cycle means for ever, and how old
//! what chains carry is.
#![tactic(auto)]

mod age_laws;
mod ages;
mod aging;
mod aging_laws;
mod bounds;
mod carrying;
mod deadlines;
mod fault;
mod first_jobs;
mod jobs;
mod laws;
mod links;
mod messages;
mod names;
mod places;
mod spreads;
mod stores;
mod tables;
mod unrolling;
mod windows;
mod worked;

pub use age_laws::{ages_are_bounds, chains_have_one_age};
pub use ages::{chain_age, greatest_age};
pub use aging::{Aging, with_age};
pub use aging_laws::ages_take_ticks;
pub use bounds::with_bound;
pub use carrying::{carried_release, waits_along};
pub use fault::TableFault;
pub use first_jobs::first_job;
pub use laws::{
    earlier_cycles_are_stored, jobs_start_behind_frames, plans_repeat_as_they_are_valid,
};
pub use spreads::{Spread, spread_of};
pub use tables::tables_of;
pub use unrolling::{UnrollFault, Unrollable, unroll};
pub use windows::{first_without_room, window_age};
pub use worked::late_pair_repeats;
