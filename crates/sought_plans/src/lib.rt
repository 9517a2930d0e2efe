//! Which plans are sought, what is known of them, and when their slots can be.
#![tactic(auto)]

mod ahead;
mod frames;
mod known;
mod late;
mod mirror;
mod rooms;
mod setting;
mod slots;
mod times;
mod wait;

pub use ahead::{is_ahead, leads};
pub use frames::{bytes_in_frames, bytes_on_channel, copies, counts_on};
pub use known::Known;
pub use late::{bytes_in_frame, could_be_earlier, ready_by};
pub use mirror::is_mirrored;
pub use setting::Setting;
pub use times::{least_end, least_ready, most_start};
pub use wait::greatest_wait;
