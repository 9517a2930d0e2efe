//! On which node is a process, and which sends a message?

use ttp_model::Instance;

/// The node of a process, if it is there.
pub fn home(instance: &Instance, p: u32) -> Option<u32> {
    if (p as usize) < instance.processes().len() {
        Some(instance.node_of(p as usize))
    } else {
        None
    }
}

/// The node that sends a message, if it is there.
pub fn source(instance: &Instance, m: u32) -> Option<u32> {
    if (m as usize) < instance.messages().len() {
        Some(instance.source_of(m as usize))
    } else {
        None
    }
}
