//! A good plan before the search: many climbs to short schedules.
#![tactic(auto)]

mod bus;
mod chains;
mod chance;
mod change;
mod climb;
mod climbs;
mod draft;
mod finish;
mod network;
mod path;
mod rows;
mod shelf;
mod table;
mod timetable;

pub use finish::good_plan;
