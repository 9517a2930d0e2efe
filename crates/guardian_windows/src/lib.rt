//! When a guardian lets its node's frames on the bus.
#![tactic(auto)]

mod cycle;
mod text;
mod window;

pub use cycle::windows;
pub use text::print;
pub use ttp_model::MemoryFault;
pub use window::Window;
