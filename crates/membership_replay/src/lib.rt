//! What membership does in one cycle when frames are lost.
#![tactic(auto)]

mod cycle;
mod events;
mod fault;
mod loss;
mod losses;
mod node;
mod state;
mod text;
mod trace;
mod worked;

pub use cycle::replay;
pub use fault::ReplayFault;
pub use loss::Loss;
pub use state::{NodeState, Phase, Step};
pub use text::print;
pub use trace::{Event, Events, Slot, Trace};
pub use worked::{first_frame_of_three_nodes_is_lost, messages_of_two_channels_are_told_once};
