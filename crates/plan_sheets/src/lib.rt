//! What people and programs are told of a plan, as tables of comma-separated values: when each process is dispatched and
//! by how much it may run longer, what each slot carries, and when each message is ready, sent and there.
#![tactic(auto)]

mod deliveries;
mod dispatch;
mod laws;
mod order;
pub mod pictures;
mod sheet;
mod slots;
mod table;

pub use instance_variants::slack_of;
pub use laws::{
    dispatch_has_each_process, frames_are_used_within_capacity, messages_are_in_time,
    slack_is_exact,
};
pub use order::order_of;
pub use plan_facts::must_end_by;
pub use slots::{Slot, slot_of};
pub use table::{Table, print};
pub use ttp_model::MemoryFault;
