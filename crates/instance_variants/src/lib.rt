//! Which instances differ from a given one in times, ends or parts, and what do their plans say?
#![tactic(auto)]

mod build;
mod copies;
mod cut;
mod cut_laws;
mod ends;
mod grown_laws;
mod kept;
mod late;
mod later;
mod later_laws;
mod laws;
mod longer;
mod longer_laws;
mod margins;
mod scale;
mod slack;
mod within;
mod within_laws;

pub use build::built;
pub use copies::{copies_of_messages, copies_of_nodes, copies_of_processes};
pub use cut::with_deadlines;
pub use cut_laws::{
    cut_deadlines_end_by, cut_instances_keep_the_rules, delays_are_kept, ends_are_by,
    least_delays_are_kept, no_plan_is_a_later_end,
};
pub use ends::last_end;
pub use grown_laws::{all_slack_is_had_at_once, grown_instances_keep_the_rules};
pub use kept::{
    Constraint, Constraints, Flags, fewer_constraints_keep_the_plans, kept_constraints_are_listed,
    kept_constraints_make_instances, what_is_left_is_fewer, with_only,
};
pub use late::lateness;
pub use later::with_later;
pub use later_laws::{
    lateness_is_enough, later_ends_keep_plans, later_ends_keep_the_rules, no_plan_however_late,
};
pub use laws::{
    instances_are_their_own_variants, plans_are_valid_by_their_times, rules_are_kept_with_windows,
};
pub use longer::{longer_by, with_longer};
pub use longer_laws::{
    own_margins_are_had_at_once, shorter_runs_keep_plans, windows_bound_margins,
};
pub use margins::{first_without_room, own_margin, window_margin};
pub use scale::{Scale, number_of, ticks_of};
pub use slack::slack_of;
pub use within::with_horizon;
pub use within_laws::{instances_within_keep_the_rules, plans_end_within};
