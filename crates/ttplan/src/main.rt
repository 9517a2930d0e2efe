//! The planner's program: which command the words ask for, and on which files it works.
#![tactic(auto)]

ghost use Rattle.command_line.specs.Requests.{IsSound};

mod ages;
mod longer;
mod plan_file;
mod searches;
mod version;

use command_line::{Request, refuse, request_in};
pub use command_streams::{End, Fault, Release, SearchFault, Sink, Source, report, status};
use file_commands::hints::{Said, told};
pub use file_commands::{
    JoinEnd, RatesEnd, RatesFault, check_run, compare_json, compare_run, draw_run,
    explain_certificate, explain_certificate_json, explain_instance, explain_instance_json,
    explain_plan, explain_plan_json, explain_rates, export_run, join_run, join_status, judge_json,
    judge_run, period_run, rates_status, repeat_plan_run, repeat_run, replay_run, report_join,
    report_rates, schedule_run, tables, tables_run, unroll_run, verify, verify_bundle, verify_json,
};
use file_commands::{joining, judging, rates};
pub use question_commands::{
    AgeEnd, Beside, Wanted, age_run, age_status, limit_json, limit_run, margin_json, margin_run,
    report_age, why_json, why_run,
};
pub use solve_command::{Options, solve_run};
use std::io;
use std::marker::Sync;
use std::process::ExitCode;
use std::sync::Wait;
use std::thread::Threads;

/// Does what is asked for, says on standard error why it was refused, and gives the status. A search starts threads and waits for
/// them, and so does the check of a certificate.
fn run(rt: &HostRuntime, threads: &(impl Threads + Wait + Sync), request: Request) -> u8
    requires { IsSound request }
{
    match request {
        Request::OnFiles {
            instance,
            plan,
            task,
        } => judging::on_files(rt, instance, plan, &task),
        Request::OfRounds {
            instance,
            plan,
            task,
        } => judging::of_rounds(rt, instance, plan, task),
        Request::Unroll { rates } => rates::unroll(rt, rates),
        Request::Repeat { rates, plan, form } => rates::repeat(rt, rates, plan, form),
        Request::Solve(search) => searches::solve(rt, threads, &search),
        Request::Why(why) => searches::why(rt, threads, &why),
        Request::Limit(limit) => searches::limit(rt, threads, &limit),
        Request::Margin(margin) => longer::margin(rt, threads, &margin),
        Request::Age(age) => ages::age(rt, threads, &age),
        Request::Check {
            instance,
            certificate,
            is_long,
        } => judging::check(rt, threads, is_long, instance, certificate),
        Request::Join(joining) => joining::join(rt, &joining),
        Request::Judge {
            instance,
            plan,
            certificate,
            is_long,
            form,
        } => judging::judge(rt, threads, is_long, instance, plan, certificate, form),
        Request::Explain {
            instance,
            explained,
            form,
        } => judging::explain(rt, threads, instance, explained, form),
        Request::ExplainRates { rates } => rates::explain(rt, rates),
        Request::Compare {
            old_instance,
            old_plan,
            new_instance,
            new_plan,
            form,
        } => judging::compare(rt, (old_instance, old_plan), (new_instance, new_plan), form),
        Request::VerifyBundle => {
            let end = verify_bundle(rt.alloc(), &mut rt.stdin(), &mut rt.stdout());
            told(rt, &end, &Said::nothing())
        }
        Request::Version => told(rt, &version::version(rt), &Said::nothing()),
    }
}

/// Runs the words' request, says on standard error why it was refused, and gives the status.
fn status_of_words(
    rt: &HostRuntime,
    threads: &(impl Threads + Wait + Sync),
    words: &[String],
) -> u8 {
    match request_in(rt.alloc(), words) {
        Ok(request) => run(rt, threads, request),
        Err(error) => refuse(&error, &mut rt.stderr()),
    }
}

fn main(rt: HostRuntime) -> ExitCode {
    let status = match command_line::all(&rt) {
        Ok(words) => status_of_words(&rt, &rt, words.as_slice()),
        Err(error) if error.kind() == io::ErrorKind::OutOfMemory => {
            told(&rt, &End::Refused(Fault::Memory), &Said::nothing())
        }
        Err(_) => {
            let _ = rt.eprintln("error: a word of the command line is not text");
            2
        }
    };
    ExitCode::from(status)
}
