//! What a command reads and writes, and how it ends.
#![tactic(auto)]

mod ending;
mod input;
mod instance;
mod limits;
mod lines;
mod output;
mod reporting;
mod texts;
mod words;

pub use ending::{End, Fault, Release, Rounds, SearchFault, Sink, Source, status, status_of_fault};
pub use input::{Stop, Taken, instance_of_text, read_all, read_instance, take_input};
pub use instance::instance_text;
pub use limits::{CERTIFICATE_LIMIT, INSTANCE_LIMIT, LONG_CERTIFICATE_LIMIT, PLAN_LIMIT};
pub use lines::{part_word, table_words};
pub use output::{WriteFault, end_with, write_text};
pub use reporting::report;
pub use texts::{Texts, write_texts};
pub use words::{PlaceWords, Words};
