//! The commands that ask several searches: why an instance has no plan, how early processes can end, and how much longer they may run.
#![tactic(auto)]

mod age_answer;
mod age_ending;
mod age_naming;
mod age_objects;
mod age_reporting;
mod age_texts;
mod ages;
mod answer;
mod certificates;
mod limit_texts;
mod limits;
mod margin_answer;
mod margin_texts;
mod margins;
mod meant;
mod names;
mod objects;
mod telling;
mod why;
mod why_texts;
mod words;

pub use age_ending::{AgeEnd, age_status};
pub use age_objects::{age_json, tell_age};
pub use age_reporting::report_age;
pub use ages::age_run;
pub use json_answers::{AGE, LIMIT, MARGIN, WHY};
pub use limit_texts::Beside;
pub use limits::limit_run;
pub use margins::{Terms, margin_run};
pub use objects::{limit_json, margin_json, why_json};
pub use plan_questions::{Asking, Gate, Options, Scale};
pub use why::why_run;
pub use why_texts::Wanted;
