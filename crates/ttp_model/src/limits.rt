//! How large the parts of an instance may be.

/// The nodes of a cluster.
pub const MOST_NODES: usize = 32;

/// The processes of an instance.
pub const MOST_PROCESSES: usize = 256;

/// The links of an instance.
pub const MOST_LINKS: usize = 1_024;

/// The messages of an instance.
pub const MOST_MESSAGES: usize = 512;

/// The capacities that a node's slot can be given.
pub const MOST_CAPACITIES: usize = 8;

/// The bytes of a name.
pub const MOST_NAME_BYTES: usize = 32;

/// The ticks of the horizon, a worst-case execution time, a release or a deadline.
pub const MOST_TICKS: u32 = 1_000_000;

/// The ticks of the precision, a lead, a trail, or a copy out of or into a controller.
pub const MOST_BUS_TICKS: u32 = 10_000;

/// The ticks of a frame beside those of its bytes.
pub const MOST_HEAD: u32 = 10_000;

/// The ticks of a byte.
pub const MOST_PER_BYTE: u32 = 1_000;

/// The bytes of a capacity or of a message.
pub const MOST_BYTES: u32 = 1_000;

/// The channels of a cluster.
pub const MOST_CHANNELS: u32 = 2;

/// The number that stands in a plan for both channels.
pub const BOTH_CHANNELS: u32 = 2;

/// The ticks of a slot: the frame between lead and trail.
pub const MOST_DURATION: u64 = 2 * MOST_BUS_TICKS as u64
    + MOST_HEAD as u64
    + MOST_PER_BYTE as u64 * MOST_BYTES as u64;

/// The ticks of a round: a slot for each node.
pub const MOST_ROUND: u64 = MOST_NODES as u64 * MOST_DURATION;
