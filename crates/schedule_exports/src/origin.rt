//! Which texts was it made of?

ghost use Rattle.std.specs.Prelude.{◌≡◌};
ghost use Rattle.sha2.specs.Sha256.{sha256};

use sha2::{Digest, Sha256};
use std::fmt;

/// The texts of an instance and of a plan, each by its SHA-256, and the plan's delay.
#[derive(Clone, Copy)]
pub struct Origin {
    /// In ticks.
    pub delay: u64,
    pub instance: [u8; 32],
    pub plan: [u8; 32],
}

/// The SHA-256 of these bytes.
pub fn sum_of(bytes: &[u8]) -> [u8; 32]
    ensures { result ≡ sha256 bytes.now }
{
    Sha256::digest(bytes)
}

/// Tells a sum, as `sha256sum` prints it.
pub fn tell_sum<W: fmt::Write>(f: &mut fmt::Formatter<W>, sum: &[u8; 32]) -> fmt::Result {
    for byte in sum {
        write!(f, "{byte:02x}")?;
    }
    Ok(())
}
