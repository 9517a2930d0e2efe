//! How is it told of the cluster of several rates of a file how old what a chain carries has to be, and where is that written?

use crate::searches::{lines_for, options_of, patient_for};
use command_line::{Age, AnswerForm, Asks};
use file_commands::files::{FileFault, Files, Named, Sheet};
use file_commands::hints::{Said, hint_at_chain, hint_at_file};
use file_commands::judging::as_json;
use file_commands::{RatesEnd, RatesFault};
use question_commands::{
    AGE, AgeEnd, Asking, Beside, age_json, age_run, age_status, report_age, tell_age,
};
use solve_command::{Follower, FreeGate, Searches};
use std::marker::Sync;
use std::sync::Wait;
use std::thread::Threads;

/// Tells it, and a follower how the searches go on. All files are open before the cluster is read.
fn follow_age<'a>(
    rt: &HostRuntime,
    threads: &(impl Threads + Wait + Sync),
    age: &Age<'a>,
    follower: &(impl Follower + Sync),
) -> Result<AgeEnd, FileFault<'a>> {
    let mut files = Files::open(rt, &Named::of_question(Asks::Age, &age.question))?;
    let asking = &Asking {
        alloc: rt.alloc(),
        options: options_of(&age.question.effort),
        gate: &patient_for(rt, age.question.effort.seconds, follower),
    };
    let beside = Beside {
        certificate: age.question.certificate.is_some(),
        reduced: age.question.reduced.is_some(),
    };
    let (rates, out) = (&mut files.instance, &mut rt.stdout());
    let (cert, reduced) = (&mut Sheet(files.certificate), &mut Sheet(files.reduced));
    Ok(match age.question.form {
        AnswerForm::Text => age_run(
            threads, asking, rates, age.chain, beside, cert, reduced, out,
        ),
        AnswerForm::Json => age_json(
            threads, asking, rates, age.chain, beside, cert, reduced, out,
        ),
    })
}

/// Tells the least age of a chain of the cluster of a file, and says how far it is where that is asked for.
fn run_age<'a>(
    rt: &HostRuntime,
    threads: &(impl Threads + Wait + Sync),
    age: &Age<'a>,
) -> Result<AgeEnd, FileFault<'a>> {
    if !age.question.effort.progress {
        return follow_age(rt, threads, age, &FreeGate);
    }
    let searches = Searches::on(rt, lines_for(rt));
    let end = follow_age(rt, threads, age, &searches);
    searches.end();
    end
}

/// Ends `age` of a file that can't be opened. An object tells so too, where it answers by one.
fn unopened(rt: &HostRuntime, form: AnswerForm) -> AgeEnd {
    let end = AgeEnd::OfRates(RatesEnd::Refused(RatesFault::Unread));
    match form {
        AnswerForm::Text => end,
        AnswerForm::Json => tell_age(rt.alloc(), end, &[], &mut rt.stdout()),
    }
}

/// Says on standard error why that was refused, and what that means at a terminal, and gives the status.
fn told(rt: &HostRuntime, end: &AgeEnd, rates: &str, chain: &str) -> u8 {
    let _ = report_age(end, &mut rt.stderr());
    match end {
        AgeEnd::OfRates(RatesEnd::Refused(RatesFault::Unread)) => {
            hint_at_file(rt, "can't be opened or read", rates)
        }
        AgeEnd::OfRates(RatesEnd::Refused(RatesFault::TooLong)) => {
            hint_at_file(rt, "has too many bytes", rates)
        }
        AgeEnd::NoSuchChain => hint_at_chain(rt, chain),
        _ => {}
    }
    age_status(end)
}

/// Tells it, says why that was refused, and gives the status.
pub fn age(rt: &HostRuntime, threads: &(impl Threads + Wait + Sync), age: &Age) -> u8 {
    let (rates, form) = (age.question.instance, age.question.form);
    match run_age(rt, threads, age) {
        Ok(end) => told(rt, &end, rates, age.chain),
        Err(FileFault::Unread(_)) => told(rt, &unopened(rt, form), rates, age.chain),
        Err(fault) => fault.tell(rt, &Said::files(rates, None, None), as_json(form, &AGE)),
    }
}
