//! The command that explains: why an instance, a plan or a certificate is refused, and why a valid plan ends when it does.
#![tactic(auto)]

mod certificates;
mod explaining;
mod instances;
mod members;
mod mistaken;
mod objects;
mod plans;
mod refusal_values;
mod step_values;
mod telling;
mod values;

pub use explaining::{explain_certificate, explain_instance, explain_plan};
pub use json_answers::{COMPARE, CommandLines, EXPLAIN, JUDGE, Reasons, VERIFY, tell};
pub use objects::{explain_certificate_json, explain_instance_json, explain_plan_json};
