//! How large the parts of a cluster of several rates may be, where an instance has none such.

/// The chains of a cluster.
pub const MOST_CHAINS: usize = 64;

/// The fewest processes of a chain.
pub const LEAST_THROUGH: usize = 2;

/// The most processes of a chain.
pub const MOST_THROUGH: usize = 32;

/// By how many periods later than it could a link or a message is read.
pub const MOST_DELAY: u32 = 1;
