//! The commands on clusters of several rates: the instance of a cycle, how it and a plan of it repeat, and why one is refused.
#![tactic(auto)]

mod cycle;
mod cycle_text;
mod ending;
mod explaining;
mod keys;
mod limits;
mod lines;
mod named;
mod objects;
mod parts;
mod plan;
mod reading;
mod reason;
mod refused;
mod repeat;
mod reporting;
mod rules;
mod sentence;
mod sizes;
mod spots;
mod tables;
mod texts;
mod unroll;
mod wanted;

pub use ending::{RatesEnd, RatesFault, rates_status};
pub use explaining::explain_rates;
pub use limits::RATES_LIMIT;
pub use objects::{repeat_json, repeat_plan_json, tell_repeat};
pub use reading::read_rates;
pub use reason::{RatesAgain, RatesReason, rates_reason_of, reread_rates};
pub use repeat::{repeat_plan_run, repeat_run};
pub use reporting::report_rates;
pub use rules::{RatesRuleReason, rates_rule_reason};
pub use texts::rates_text_reason;
pub use unroll::unroll_run;
