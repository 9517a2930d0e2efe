//! How large may a certificate be?

use ttp_model::{MOST_MESSAGES, MOST_NODES, MOST_PROCESSES, MOST_TICKS};

/// The pairs of processes.
pub const MOST_PAIRS: usize = MOST_PROCESSES * (MOST_PROCESSES - 1) / 2;

/// How often the rounds of a message can be halved until one is left: the binary digits of a round,
/// which is below the horizon.
pub const MOST_HALVINGS: usize = (u32::BITS - u32::leading_zeros(MOST_TICKS - 1)) as usize;

/// The branches above any node of a certificate's tree: one for each place of the slot order, for each
/// capacity and for each pair, and for each message as many as its rounds can be halved, and one for its channel.
pub const MOST_BRANCHES_ABOVE: usize = MOST_NODES
    + MOST_NODES
    + MOST_PAIRS
    + MOST_MESSAGES * MOST_HALVINGS
    + MOST_MESSAGES;

/// The bytes of a certificate's text that are taken of a reader.
pub const MOST_TEXT_BYTES: usize = 268_435_456;
