//! What goes with each search of a question?

use planner::{Gate, Options};
use std::alloc::Global;

/// What goes with each search of a question: its memory, what it may use, and who follows it. Once the gate says that it doesn't go on, the search
/// at hand is stopped, and each further one as soon as it begins.
#[derive(Drop)]
pub struct Asking<'a, G: Gate> {
    pub alloc: Global,
    pub options: Options,
    pub gate: &'a G,
}
