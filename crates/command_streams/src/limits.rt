//! How many bytes of a text are read, at most?

/// Of an instance's.
pub const INSTANCE_LIMIT: usize = 8_388_608;

/// Of a plan's.
pub const PLAN_LIMIT: usize = 131_072;

/// Of a certificate's.
pub const CERTIFICATE_LIMIT: usize = certificate::MOST_TEXT_BYTES;

/// Of a certificate's from which a search goes on, or that is joined with others: it grows with each step of a long search.
pub const LONG_CERTIFICATE_LIMIT: usize = 1_099_511_627_776;
