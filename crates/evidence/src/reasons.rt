//! Proved callers of what tells in words: each states what is said at one place.

mod certificates;
mod chains;
mod faults;
mod plan_texts;
mod plans;
mod processes;
mod refusals;
mod steps;

pub use certificates::{
    horizon_and_one_tick_is_the_greatest_bound, leaf_is_no_branch_above_itself,
};
pub use chains::all_ticks_of_a_transfer_are_told;
pub use faults::{
    first_name_in_byte_order_is_told, item_of_a_list_is_told, key_that_is_odd_is_told,
    nearer_name_is_meant, node_of_a_process_is_told, number_past_the_largest_is_told,
};
pub use plan_texts::{line_at_fault_is_told, stranger_is_told_as_a_word};
pub use plans::{
    copying_in_is_counted, own_delay_is_told_as_such, second_channel_has_its_own_load,
};
pub use processes::{
    deadline_at_the_horizon_is_told, second_of_a_link_waits, start_stands_before_the_end,
};
pub use refusals::{
    both_of_a_name_are_told, first_waits_for_the_last, lead_lacks_twice_the_precision,
    receiver_that_stands_twice_is_told, too_little_is_told_as_such,
};
pub use steps::{latest_start_leaves_time, steps_more_than_are_told, what_was_known_is_told};
