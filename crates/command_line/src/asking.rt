//! What do the words of the command line ask for?

ghost use Rattle.std.specs.Prelude.{IfOk};
ghost use Rattle.command_line.specs.Requests.{IsSound};

use crate::commands::program;
use crate::given::Given;
use crate::joining::join_request;
use crate::misuse::Misuse;
use crate::options::{
    ANY_PLAN, CERTIFICATE, EXPLAINED_CERT, EXPLAINED_PLAN, EXPLAINED_RATES, FORMAT, INSTANCE, LONG,
    NEW_INSTANCE, NEW_PLAN, OLD_INSTANCE, OLD_PLAN, RATES, UNROLLED_PLAN,
};
use crate::searching::{age_request, limit_request, margin_request, solve_request, why_request};
use crate::table::{Asks, COMMANDS, row_of};
use crate::tasks::{
    draw_request, period_request, replay_request, schedule_request, tables_request, unused,
    verify_request,
};
use crate::words::{AnswerForm, Explained, Request};
use clap::error::ErrorKind;
use clap::{ArgMatches, Error};
use std::alloc::Global;

/// What is to be explained.
fn explained_of<'a>(given: Given<'_, 'a>) -> Explained<'a> {
    if let Some(plan) = given.text_if_any(EXPLAINED_PLAN) {
        return Explained::Plan(plan);
    }
    match given.text_if_any(EXPLAINED_CERT) {
        Some(certificate) => Explained::Certificate(certificate),
        None => Explained::Instance,
    }
}

/// That nothing stands beside a cluster of several rates, and that it is told as text.
fn by_itself<'a>(given: Given<'_, 'a>, form: AnswerForm) -> Result<(), Misuse<'a>> {
    let why = "a cluster of several rates is explained by itself";
    unused(given, EXPLAINED_PLAN, why)?;
    unused(given, EXPLAINED_CERT, why)?;
    match form {
        AnswerForm::Text => Ok(()),
        AnswerForm::Json => unused(
            given,
            FORMAT,
            "a cluster of several rates is explained in `--format text` alone",
        ),
    }
}

/// An explanation of a cluster of several rates.
fn rates_request<'a>(
    given: Given<'_, 'a>,
    rates: &'a str,
    form: AnswerForm,
) -> Result<Request<'a>, Misuse<'a>>
    ensures { IfOk result IsSound }
{
    by_itself(given, form)?;
    Ok(Request::ExplainRates { rates })
}

/// An explanation of an instance, of a plan or of a certificate, or of a cluster of several rates.
fn explain_request<'a>(given: Given<'_, 'a>) -> Result<Request<'a>, Misuse<'a>>
    ensures { IfOk result IsSound }
{
    let instance = given.text(INSTANCE)?;
    let form = given.form(FORMAT)?;
    if given.flag(EXPLAINED_RATES) {
        return rates_request(given, instance, form);
    }
    let explained = explained_of(given);
    Ok(Request::Explain {
        instance,
        explained,
        form,
    })
}

/// The instance of one cycle of a cluster of several rates.
fn unroll_request<'a>(given: Given<'_, 'a>) -> Result<Request<'a>, Misuse<'a>>
    ensures { IfOk result IsSound }
{
    let rates = given.text(RATES)?;
    Ok(Request::Unroll { rates })
}

/// How a cluster of several rates repeats, with a plan where there is one.
fn repeat_request<'a>(given: Given<'_, 'a>) -> Result<Request<'a>, Misuse<'a>>
    ensures { IfOk result IsSound }
{
    let rates = given.text(RATES)?;
    let plan = given.text_if_any(UNROLLED_PLAN);
    let form = given.form(FORMAT)?;
    Ok(Request::Repeat { rates, plan, form })
}

/// The check of a certificate.
fn check_request<'a>(given: Given<'_, 'a>) -> Result<Request<'a>, Misuse<'a>>
    ensures { IfOk result IsSound }
{
    let instance = given.text(INSTANCE)?;
    let certificate = given.text(CERTIFICATE)?;
    Ok(Request::Check {
        instance,
        certificate,
        is_long: given.flag(LONG),
    })
}

/// The judgement of a plan by a certificate.
fn judge_request<'a>(given: Given<'_, 'a>) -> Result<Request<'a>, Misuse<'a>>
    ensures { IfOk result IsSound }
{
    let instance = given.text(INSTANCE)?;
    let plan = given.text(ANY_PLAN)?;
    let certificate = given.text(CERTIFICATE)?;
    let form = given.form(FORMAT)?;
    Ok(Request::Judge {
        instance,
        plan,
        certificate,
        is_long: given.flag(LONG),
        form,
    })
}

/// The comparison of two instances and their plans.
fn compare_request<'a>(given: Given<'_, 'a>) -> Result<Request<'a>, Misuse<'a>>
    ensures { IfOk result IsSound }
{
    let old_instance = given.text(OLD_INSTANCE)?;
    let old_plan = given.text(OLD_PLAN)?;
    let new_instance = given.text(NEW_INSTANCE)?;
    let new_plan = given.text(NEW_PLAN)?;
    let form = given.form(FORMAT)?;
    Ok(Request::Compare {
        old_instance,
        old_plan,
        new_instance,
        new_plan,
        form,
    })
}

/// What the words of a command ask for.
fn request_of<'a>(
    alloc: Global,
    asks: Asks,
    given: Given<'_, 'a>,
) -> Result<Request<'a>, Misuse<'a>>
    ensures { IfOk result IsSound }
{
    match asks {
        Asks::Solve => solve_request(alloc, given),
        Asks::Why => why_request(alloc, given),
        Asks::Limit => limit_request(alloc, given),
        Asks::Margin => margin_request(alloc, given),
        Asks::Verify => verify_request(given),
        Asks::Check => check_request(given),
        Asks::Join => join_request(alloc, given),
        Asks::Judge => judge_request(given),
        Asks::Explain => explain_request(given),
        Asks::Tables => tables_request(given),
        Asks::Period => period_request(given),
        Asks::Unroll => unroll_request(given),
        Asks::Repeat => repeat_request(given),
        Asks::Age => age_request(alloc, given),
        Asks::Replay => replay_request(alloc, given),
        Asks::Schedule => schedule_request(given),
        Asks::Draw => draw_request(given),
        Asks::Compare => compare_request(given),
    }
}

/// The command of a name.
fn command_named(name: &str) -> Option<Asks> {
    for asks in COMMANDS {
        if row_of(*asks).name == name {
            return Some(*asks);
        }
    }
    None
}

/// Why the words of a command ask for nothing, as an error of `clap`.
fn misused<'a>(alloc: Global, asks: Asks, misuse: Misuse<'_>) -> Result<Request<'a>, Error>
    ensures { IfOk result IsSound }
{
    let error = misuse.error(alloc, row_of(asks))?;
    Err(error)
}

/// What the words of the command of this name ask for.
fn request_named<'a>(
    alloc: Global,
    name: &str,
    matches: &ArgMatches<'a>,
) -> Result<Request<'a>, Error>
    ensures { IfOk result IsSound }
{
    let Some(asks) = command_named(name) else {
        return misused(alloc, Asks::Solve, Misuse::Missing);
    };
    match request_of(alloc, asks, Given { matches }) {
        Ok(request) => Ok(request),
        Err(misuse) => misused(alloc, asks, misuse),
    }
}

/// What the words ask for, as `clap` parts them.
fn request_of_matches<'a>(alloc: Global, matches: &ArgMatches<'a>) -> Result<Request<'a>, Error>
    ensures { IfOk result IsSound }
{
    match matches.subcommand() {
        Some((name, matches)) => request_named(alloc, name, matches),
        None => Ok(Request::VerifyBundle),
    }
}

/// The words, as `clap` parts them.
fn matches_of<'a>(alloc: Global, words: &'a [String]) -> Result<ArgMatches<'a>, Error> {
    let mut program = program(alloc)?;
    program.try_get_matches_from_mut(words)
}

/// What the words ask for, of which the first is the program's own name.
pub fn request_in<'a>(alloc: Global, words: &'a [String]) -> Result<Request<'a>, Error>
    ensures { IfOk result IsSound }
{
    match matches_of(alloc, words) {
        Ok(matches) => request_of_matches(alloc, &matches),
        Err(error) if error.kind() == ErrorKind::DisplayVersion => Ok(Request::Version),
        Err(error) => Err(error),
    }
}
