//! The commands that search nothing, on files of the system, and the files of those that search.
#![tactic(auto)]

pub mod files;
pub mod hints;
pub mod joining;
pub mod judging;
pub mod rates;

pub use explain_command::{
    explain_certificate, explain_certificate_json, explain_instance, explain_instance_json,
    explain_plan, explain_plan_json,
};
pub use plan_commands::{
    JoinEnd, check_run, compare_json, compare_run, draw_run, export_run, join_run, join_status,
    judge_json, judge_run, period_run, replay_run, report_join, schedule_run, tables, tables_run,
    verify, verify_bundle, verify_json,
};
pub use rates_command::{
    RatesEnd, RatesFault, explain_rates, rates_status, repeat_plan_run, repeat_run, report_rates,
    unroll_run,
};
