//! How many bytes of a text are read, at most?

/// Of that of a cluster of several rates.
pub const RATES_LIMIT: usize = 8_388_608;
