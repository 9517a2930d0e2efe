//! Inference: steps that sharpen what is known of the plans that are sought.
#![tactic(auto)]

mod fact;
mod fact_set;
mod facts;
mod fault;
mod indices;
mod known_values;
mod laws;
mod limit;
mod line;
mod read_facts;
mod read_laws;
mod rules;
mod source;
mod worked;

pub use fact::{Fact, link_after, link_before, sender, sending_node};
pub use fact_set::FactSet;
pub use facts::Facts;
pub use fault::StepFault;
pub use indices::receives;
pub use known_values::value;
pub use laws::{
    first_facts_hold, leaves_rule_out, rules_are_sound, rules_conclude, steps_are_determined,
    steps_are_sound, steps_lead_as_far_inside, steps_only_sharpen,
};
pub use limit::Limit;
pub use line::{FewNumbers, Line, LineNumbers, channel_line, plain_line};
pub use read_facts::{add_reads, add_source};
pub use read_laws::{needed_decisions_rule_out, steps_rest_on_what_they_read};
pub use rules::{
    line_of, link_steps, load_of, message_closers, message_steps, pair_steps, process_closers,
    process_steps, reads, step_with, target, transfer_steps,
};
pub use sought_plans::{copies, counts_on, leads};
pub use source::{Reads, Source};
pub use worked::{
    messages_lead_on_the_first_channel, messages_of_two_channels_close, one_message_closes_at_9,
    one_message_closes_inside, one_message_is_not_sent_late, silent_twins_stand_in_order,
    three_alike_close_at_6, three_alike_end_by_2_4_6,
};
