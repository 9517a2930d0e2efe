//! Which search do the words of a command ask for?

ghost use Rattle.std.specs.Prelude.{◌≤◌, length, IfOk};
ghost use Rattle.command_line.specs.Requests.{IsSound, IsSoundEffort, IsSoundQuestion, IsSoundSearch};

use crate::given::Given;
use crate::misuse::Misuse;
use crate::onward::{apart_from, onward_of};
use crate::options::{
    BUDGET, CERT, CERT_OF_LAST, CERT_OF_LESS, CERT_OF_MORE, CERT_OF_NONE, CHAIN, FORMAT, GAP,
    INSTANCE, KEEP, LATE, PERMILLE, PROCESSES, PROGRESS, RATES, REDUCED, RUNNERS, SEARCH_BUDGET,
    SEARCHED, SECONDS, START, UNTIL, WIDE, WITH_LESS, WITH_MORE, WITHIN, WORKERS,
};
use crate::rows::Row;
use crate::words::{Age, AnswerForm, Effort, Limit, Margin, Question, Request, Search, Why};
use std::alloc::Global;

/// How much searches may take, of which each has the budget of this row.
fn effort_of<'a>(given: Given<'_, 'a>, budget: &'static Row) -> Result<Effort, Misuse<'a>>
    ensures { IfOk result IsSoundEffort }
{
    let workers = given.u32(WORKERS)?;
    let budget = given.number(budget)?;
    let seconds = given.number_if_any(SECONDS)?;
    Ok(Effort {
        workers,
        budget,
        seconds,
        progress: given.flag(PROGRESS),
    })
}

/// A search with its numbers, each in its range, and files to be written that aren't those which it reads, but that a plan may be kept in
/// the file of the one to begin with.
fn search_of<'a>(alloc: Global, given: Given<'_, 'a>) -> Result<Search<'a>, Misuse<'a>>
    ensures { IfOk result IsSoundSearch }
{
    let instance = given.text(INSTANCE)?;
    let start = given.text_if_any(START);
    let from = onward_of(given)?;
    let certificate = given.written(alloc, CERT, instance, start)?;
    apart_from(alloc, CERT, certificate, &from)?;
    let kept = given.written(alloc, KEEP, instance, certificate)?;
    apart_from(alloc, KEEP, kept, &from)?;
    let effort = effort_of(given, BUDGET)?;
    let until = given.u32_if_any(UNTIL)?;
    let gap = given.u32(GAP)?;
    Ok(Search {
        instance,
        start,
        from,
        is_wide: given.flag(WIDE),
        certificate,
        kept,
        effort,
        until,
        gap,
    })
}

/// A search for a shortest plan.
pub fn solve_request<'a>(alloc: Global, given: Given<'_, 'a>) -> Result<Request<'a>, Misuse<'a>>
    ensures { IfOk result IsSound }
{
    let search = search_of(alloc, given)?;
    Ok(Request::Solve(search))
}

/// A question with its numbers, each in its range, and files to be written, by the rows of both, that aren't the one which it reads, by
/// the first row.
fn question_of<'a>(
    alloc: Global,
    given: Given<'_, 'a>,
    read: &'static Row,
    certificate: &'static Row,
    reduced: &'static Row,
    form: AnswerForm,
) -> Result<Question<'a>, Misuse<'a>>
    ensures { IfOk result IsSoundQuestion }
{
    let instance = given.text(read)?;
    let certificate = given.written(alloc, certificate, instance, None)?;
    let reduced = given.written(alloc, reduced, instance, certificate)?;
    let effort = effort_of(given, SEARCH_BUDGET)?;
    Ok(Question {
        instance,
        certificate,
        reduced,
        effort,
        form,
    })
}

/// A search for what leaves no plan.
pub fn why_request<'a>(alloc: Global, given: Given<'_, 'a>) -> Result<Request<'a>, Misuse<'a>>
    ensures { IfOk result IsSound }
{
    let form = given.form(FORMAT)?;
    let question = question_of(alloc, given, INSTANCE, CERT_OF_NONE, REDUCED, form)?;
    let late = given.flag(LATE);
    Ok(Request::Why(Why { question, late }))
}

/// The names of processes, of which there is one at least.
fn processes_of<'a>(alloc: Global, given: Given<'_, 'a>) -> Result<Vec<&'a str>, Misuse<'a>>
    ensures { IfOk result (λ names. 1 ≤ length names.items) }
{
    match given.texts(PROCESSES) {
        Some(names) if !names.is_empty() => Ok(Vec::from_slice(alloc, names)?),
        _ => Err(Misuse::Missing),
    }
}

/// A search for early ends.
pub fn limit_request<'a>(alloc: Global, given: Given<'_, 'a>) -> Result<Request<'a>, Misuse<'a>>
    ensures { IfOk result IsSound }
{
    let form = given.form(FORMAT)?;
    let question = question_of(alloc, given, INSTANCE, CERT_OF_LAST, SEARCHED, form)?;
    let processes = processes_of(alloc, given)?;
    Ok(Request::Limit(Limit {
        question,
        processes,
    }))
}

/// A search for longer runs.
pub fn margin_request<'a>(alloc: Global, given: Given<'_, 'a>) -> Result<Request<'a>, Misuse<'a>>
    ensures { IfOk result IsSound }
{
    let form = given.form(FORMAT)?;
    let question = question_of(alloc, given, INSTANCE, CERT_OF_MORE, WITH_MORE, form)?;
    let thousandths = given.flag(PERMILLE);
    let within = given.u32(WITHIN)?;
    let processes = given.list(alloc, RUNNERS)?;
    Ok(Request::Margin(Margin {
        question,
        processes,
        thousandths,
        within,
    }))
}

/// A search for a small age.
pub fn age_request<'a>(alloc: Global, given: Given<'_, 'a>) -> Result<Request<'a>, Misuse<'a>>
    ensures { IfOk result IsSound }
{
    let form = given.form(FORMAT)?;
    let question = question_of(alloc, given, RATES, CERT_OF_LESS, WITH_LESS, form)?;
    let chain = given.text(CHAIN)?;
    Ok(Request::Age(Age { question, chain }))
}
