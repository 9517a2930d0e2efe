//! What the lower crates answer just where a wrong answer would differ: each function calls one of
//! theirs, and its contract doesn't follow from a weaker one. Those of `edges` and most of `two_channels` call nothing, and say which
//! plans are valid; one of `variants` says of which instance the rules are kept.

mod ages;
mod changes;
mod choices;
mod decisions;
mod edges;
mod figures;
mod lines;
mod loads;
mod membership;
mod names;
mod node_tables;
mod pictures;
mod plans;
mod printing;
mod rules;
mod schedules;
mod slots;
mod starts;
mod steps;
mod texts;
mod two_channels;
mod variants;
mod windows;

pub use ages::just_as_old_as_its_bound;
pub use changes::starts_before_and_after;
pub use choices::{
    both_orders_of_a_pair, channel_taken_back, channel_that_was_fixed, channels_of_a_free_message,
    decision_taken_back, latest_slot_of_a_node, least_of_free_capacities, message_on_a_channel,
    node_that_was_placed, order_that_was_put, pair_of_the_other_order,
};
pub use decisions::{choice_without_decisions, decision_made_and_taken_back};
pub use edges::{plan_that_just_keeps_the_rules, plans_that_just_break_a_rule};
pub use figures::{
    children_of_a_message, children_of_a_pair, delay_of_first_process, slot_without_bytes,
};
pub use lines::{lengths_of_parts, number_past_the_last};
pub use loads::{fact_of_link, interval_that_is_not_full, interval_that_is_too_short};
pub use membership::{lost_at_sender, lost_everywhere, without_agreement};
pub use names::{index_of_the_first_name, name_past_the_last_node};
pub use node_tables::{tables_of_frames, tables_of_own_messages, text_with_rows};
pub use pictures::{
    picture_with_deliveries, picture_with_empty_slots, picture_with_processes, slots_just_too_many,
};
pub use plans::{
    end_past_the_horizon, first_node_once_more, frame_that_is_full, link_without_a_gap,
    processes_that_touch, start_before_the_message, start_past_its_release,
};
pub use printing::text_that_is_handed_out_states_its_instance;
pub use rules::{
    Tables, linked_both_ways, one_process_too_many, received_at_home, received_by_nobody,
    with_short_lead,
};
pub use schedules::{
    processes_by_rising_starts, slack_up_to_a_linked_start, slack_up_to_a_slot,
    slack_up_to_the_last_end,
};
pub use slots::{begins_at_or_after, cycle_past_delay, first_slot_of_round};
pub use starts::{plan_of_choice_with_plans, plan_that_ends_first, plan_with_room_in_frames};
pub use steps::{
    arrival_in_the_least_round, end_after_the_greatest_wait, end_before_the_last_slot,
    goal_of_turned_facts, order_that_is_not_known, order_that_is_supposed,
    ring_that_does_not_close, rounds_left_at_first, rounds_that_reach_a_receiver,
    silent_nodes_in_order, span_that_is_just_full, window_just_long_enough,
};
pub use texts::{
    node_of_first_process, precision_past_32_bits, process_without_node_and_time, unknown_key,
};
pub use two_channels::{faults_on_two_channels, frames_on_two_channels, plans_on_two_channels};
pub use variants::{
    all_messages_are_copied, horizon_is_put_off_too, longer_process_keeps_the_rules,
    only_these_deadlines_are_cut, plan_in_time_is_not_late,
};
pub use windows::permits_its_end;
