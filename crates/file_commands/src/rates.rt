//! What is told of the cluster of several rates of a file? All files of a command are open before one is read, in the order of its words.

use crate::hints::hint_at_file;
use command_line::AnswerForm;
use command_streams::{Fault, Source};
use rates_command::{
    RatesEnd, RatesFault, explain_rates, rates_status, repeat_json, repeat_plan_json,
    repeat_plan_run, repeat_run, report_rates, tell_repeat, unroll_run,
};
use std::fs::File;

/// Says on standard error why a cluster was refused, or a plan of it, and which file it is where that can't be read, and gives the
/// status.
fn told(rt: &HostRuntime, end: &RatesEnd, rates: &str, plan: &str) -> u8 {
    let _ = report_rates(end, &mut rt.stderr());
    match end {
        RatesEnd::Refused(RatesFault::Unread) => hint_at_file(rt, "can't be opened or read", rates),
        RatesEnd::Refused(RatesFault::TooLong) => hint_at_file(rt, "has too many bytes", rates),
        RatesEnd::Refused(RatesFault::OfPlan(Fault::Unread(_))) => {
            hint_at_file(rt, "can't be opened or read", plan)
        }
        RatesEnd::Refused(RatesFault::OfPlan(Fault::TooLong(_))) => {
            hint_at_file(rt, "has too many bytes", plan)
        }
        _ => {}
    }
    rates_status(end)
}

/// Writes the instance of one cycle of the cluster of a file.
fn run_unroll(rt: &HostRuntime, rates: &str) -> RatesEnd {
    match File::open(rt, rates) {
        Ok(mut rates) => unroll_run(rt.alloc(), &mut rates, &mut rt.stdout()),
        Err(_) => RatesEnd::Refused(RatesFault::Unread),
    }
}

/// Writes it, says why that was refused, and gives the status.
pub fn unroll(rt: &HostRuntime, rates: &str) -> u8 {
    told(rt, &run_unroll(rt, rates), rates, "")
}

/// Ends `repeat` where it is refused before it reads. An object tells so too, where it answers by one.
fn unrepeated(rt: &HostRuntime, form: AnswerForm, fault: RatesFault) -> RatesEnd {
    let end = RatesEnd::Refused(fault);
    match form {
        AnswerForm::Text => end,
        AnswerForm::Json => tell_repeat(rt.alloc(), end, &[], &mut rt.stdout()),
    }
}

/// Tells the cluster of a file in sentences.
fn run_explain(rt: &HostRuntime, rates: &str) -> RatesEnd {
    match File::open(rt, rates) {
        Ok(mut rates) => explain_rates(rt.alloc(), &mut rates, &mut rt.stdout()),
        Err(_) => RatesEnd::Refused(RatesFault::Unread),
    }
}

/// Tells it, says why that was refused, and gives the status.
pub fn explain(rt: &HostRuntime, rates: &str) -> u8 {
    told(rt, &run_explain(rt, rates), rates, "")
}

/// Writes how the cluster of a file repeats.
fn run_repeat(rt: &HostRuntime, rates: &str, form: AnswerForm) -> RatesEnd {
    let Ok(mut rates) = File::open(rt, rates) else {
        return unrepeated(rt, form, RatesFault::Unread);
    };
    match form {
        AnswerForm::Text => repeat_run(rt.alloc(), &mut rates, &mut rt.stdout()),
        AnswerForm::Json => repeat_json(rt.alloc(), &mut rates, &mut rt.stdout()),
    }
}

/// Writes it with what holds of the plan of a second file.
fn run_repeat_plan(rt: &HostRuntime, rates: &str, plan: &str, form: AnswerForm) -> RatesEnd {
    let Ok(mut rates) = File::open(rt, rates) else {
        return unrepeated(rt, form, RatesFault::Unread);
    };
    let Ok(mut plan) = File::open(rt, plan) else {
        return unrepeated(rt, form, RatesFault::OfPlan(Fault::Unread(Source::Plan)));
    };
    let (alloc, mut out) = (rt.alloc(), rt.stdout());
    match form {
        AnswerForm::Text => repeat_plan_run(alloc, &mut rates, &mut plan, &mut out),
        AnswerForm::Json => repeat_plan_json(alloc, &mut rates, &mut plan, &mut out),
    }
}

/// Writes it, of a plan too where there is one, says why that was refused, and gives the status.
pub fn repeat(rt: &HostRuntime, rates: &str, plan: Option<&str>, form: AnswerForm) -> u8 {
    match plan {
        None => told(rt, &run_repeat(rt, rates, form), rates, ""),
        Some(plan) => told(rt, &run_repeat_plan(rt, rates, plan, form), rates, plan),
    }
}
