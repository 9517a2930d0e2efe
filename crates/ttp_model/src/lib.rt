//! Clusters, process graphs and plans: what they are, and what makes them lawful.
#![tactic(auto)]

mod ends;
mod error;
mod fault;
mod flags;
mod frames;
mod graph;
mod groups;
mod instance;
mod laws;
mod limits;
mod links;
mod name;
mod naming;
mod network;
mod numbers;
mod parts;
mod plan;
mod rules;
mod slots;
mod step;
mod worked;

pub use ends::{delay, end_of};
pub use error::{MemoryFault, ModelError, Part, Place};
pub use fault::{PlanFault, PlanPart};
pub use flags::{has_flag, put_flag};
pub use frames::{bytes_in, bytes_on, is_in_frame_on, is_on};
pub use instance::Instance;
pub use laws::{
    delay_is_an_end, each_instance_has_a_path_bound, every_node_has_a_slot,
    faulty_plans_are_not_valid, frames_fit, lower_bound_past_horizon, path_bound_is_lower_bound,
    valid_numbers_are_small,
};
pub use limits::{
    BOTH_CHANNELS, MOST_BUS_TICKS, MOST_BYTES, MOST_CAPACITIES, MOST_CHANNELS, MOST_DURATION,
    MOST_HEAD, MOST_LINKS, MOST_MESSAGES, MOST_NAME_BYTES, MOST_NODES, MOST_PER_BYTE,
    MOST_PROCESSES, MOST_ROUND, MOST_TICKS,
};
pub use links::has_link;
pub use name::{Name, begins_name, continues_name, is_name};
pub use numbers::Numbers;
pub use parts::{Cluster, Link, Message, Node, Parts, Process};
pub use plan::Plan;
pub use slots::slot_duration;
pub use step::{Kind, Leaf, Ring, Step, Steps};
pub use worked::{
    figures_of_one_message, move_of_two_messages, moves_of_three_alike, path_bound_of_one_message,
    plan_of_one_message_is_valid, slots_of_one_message, where_moves_of_three_alike_lead,
};
