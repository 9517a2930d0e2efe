//! Proved callers of the commands and of what they stand on: each states one right answer.

mod answers;
mod bundles;
mod certificates;
mod checks;
mod events;
mod held;
mod judgements;
mod limits;
mod names;
mod plans;
mod propagations;
mod questions;
mod searches;
mod smaller_trees;
mod streams;
mod tellings;
mod verdicts;
mod words;
mod workers;

pub use answers::{
    answer_waits_for_the_certificate, best_plan_stands_behind_the_line, certificate_is_written,
    search_ends_at_no_stated_delay,
};
pub use bundles::{instance_is_unread_only_before_the_mark, mark_is_a_line};
pub use certificates::{
    first_version_is_read_without_channels, gathered_first_version_has_no_channels,
    gathered_goals_reach_the_bound, gathered_tree_is_that_of_the_pieces, printed_text_spells_it,
    text_spells_what_is_read, what_is_read_is_a_whole_tree,
};
pub use checks::{
    branch_that_is_not_open_is_refused, byte_past_the_limit_is_refused,
    fault_of_bytes_is_the_first, leaf_without_steps_is_refused, one_byte_past_the_limit_is_taken,
    rest_is_read_behind_a_fault, unlawful_first_step_is_refused, yes_is_a_proof,
    yes_of_bytes_is_a_proof,
};
pub use events::{
    leaf_is_closed_at_what_was_seen, look_sees_the_best_delay, pop_takes_the_last_name,
};
pub use held::{no_more_leaves_wait_than_may, proved_branch_leaves_no_plan};
pub use judgements::{bounds_are_told_in_order, delay_told_is_the_least, none_is_told_of_no_plan};
pub use limits::{limits_of_texts, workers_asked_for_search};
pub use names::{child_is_told_behind_its_parent, linked_processes_are_no_twins};
pub use plans::{
    printed_text_spells_the_plan, settled_frames_are_not_turned, settled_frames_fit,
    settled_messages_arrive, text_spells_the_plan,
};
pub use propagations::{
    bound_counts_a_transfer, closed_is_told_of_steps_that_close, log_of_an_order_leads_there,
    refused_decision_is_not_kept, supposed_order_is_not_known, what_was_known_is_known_again,
};
pub use questions::{
    absence_is_told_of_no_plan, any_plan_is_valid, none_ends_before_the_least_end,
    none_has_more_than_the_margin, none_is_less_late, unknown_lateness_is_a_tick_at_least,
};
pub use searches::{
    answer_is_no_later_than_the_start, bound_is_no_lower_than_before, found_plan_is_settled,
    leaf_of_a_find_is_below_the_goal, least_is_told_of_a_least_delay,
    task_left_is_closed_at_the_path_bound,
};
pub use smaller_trees::{
    bound_is_the_one_asked_for, branches_are_few_enough, tree_that_is_given_is_a_proof,
};
pub use streams::{
    both_texts_are_written, end_is_told_of_all_bytes, late_message_is_told_as_late,
    what_is_over_its_limit_is_refused,
};
pub use tellings::{
    bound_told_is_the_certificates, named_frames_are_lost, wrong_loss_is_of_the_word_told,
};
pub use verdicts::{
    plan_is_unread_only_behind_an_instance, stated_delay_is_the_plans_own, tables_end_with_windows,
};
pub use words::certificate_is_another_file;
pub use workers::{no_task_is_dropped, spent_budget_was_worked};
