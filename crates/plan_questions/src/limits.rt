//! How early can the last of some processes end, and which plan does it?

mod chains;
mod end_cut;
mod laws;
mod least;
mod limit;

pub use laws::limits_have_certificate_texts;
pub use least::least_end;
pub use limit::{EndLimit, cert_of, tick_of};
