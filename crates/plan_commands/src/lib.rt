//! The commands that judge what is given: plans, certificates, what follows of a valid plan, and two releases.
#![tactic(auto)]

mod bundle;
mod certified;
mod comparing;
mod exports;
mod front;
mod join;
mod judge;
mod laws;
mod loads;
mod losses;
mod node_tables;
mod objects;
mod period;
mod picture;
mod printed;
mod proof;
mod replay;
mod sheets;
mod verdict;

pub use bundle::verify_bundle;
pub use certified::{check_run, read_bound};
pub use comparing::compare_run;
pub use exports::export_run;
pub use front::{Front, front_of};
pub use join::{JoinEnd, join_run, join_status, report_join};
pub use judge::judge_run;
pub use laws::{
    answer_lines_are_short, between_has_the_least_delay, least_is_the_least_delay,
    none_is_that_there_is_no_plan, texts_are_judged, texts_are_judged_by_what_they_say,
    texts_are_judged_once,
};
pub use loads::tables_run;
pub use node_tables::tables;
pub use objects::{compare_json, judge_json, verify_json};
pub use period::period_run;
pub use picture::draw_run;
pub use printed::{bare_fault, printed_of_readers, read_printed};
pub use proof::read_proof;
pub use replay::replay_run;
pub use sheets::schedule_run;
pub use verdict::{Verified, verified_of_readers, verify};
