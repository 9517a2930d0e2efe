//! What does `join` say of an instance and of certificates of it?

mod ending;
mod reading;
mod run;
mod writing;

pub use ending::{JoinEnd, join_status, report_join};
pub use run::join_run;
