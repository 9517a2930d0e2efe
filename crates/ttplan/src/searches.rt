//! How is an instance of a file searched, and where is it written what was found?

ghost use Rattle.command_line.specs.Requests.{IsSoundSearch};
ghost use Rattle.solve_command.specs.Onward.{IsSomePart};

use crate::plan_file::shelf_of;
use command_line::{AnswerForm, Asks, Effort, Limit, Part, Search, Why};
use command_streams::End;
use file_commands::files::{FileFault, Files, Named, Sheet, from_of};
use file_commands::hints::{Said, hint_at_none, told};
use file_commands::judging::as_json;
use question_commands::{
    Asking, Beside, LIMIT, WHY, Wanted, limit_json, limit_run, why_json, why_run,
};
use solve_command::{
    Asked, Continuation, Enough, Follower, FreeGate, Keeper, Lines, Options, Patience, Patient,
    Portion, Progress, Searches, kept_end, solve_run_from, solve_run_on, solve_run_with,
};
use std::io::IsTerminal;
use std::marker::Sync;
use std::sync::Wait;
use std::thread::Threads;

/// How lines of progress are written.
pub fn lines_for(rt: &HostRuntime) -> Lines {
    if rt.stderr().is_terminal() {
        Lines::Over
    } else {
        Lines::Apart
    }
}

/// The same beside an answer that is told line by line: none is written over where its lines stand between them.
fn lines_beside(rt: &HostRuntime) -> Lines {
    if rt.stdout().is_terminal() {
        Lines::Apart
    } else {
        lines_for(rt)
    }
}

/// What a search may use.
pub fn options_of(effort: &Effort) -> Options {
    Options {
        workers: effort.workers,
        budget: effort.budget,
    }
}

/// Searches an instance. All files are open before one is read, that of the best plan so far last.
fn run_solve<'a>(
    rt: &HostRuntime,
    threads: &(impl Threads + Wait + Sync),
    search: &Search<'a>,
) -> Result<End, FileFault<'a>>
    requires { IsSoundSearch search.now }
{
    let files = Files::open(rt, &Named::of_search(search))?;
    if !search.effort.progress {
        return search_keeping(rt, threads, search, files, &FreeGate);
    }
    match Progress::on(rt.alloc(), rt, lines_for(rt), search.effort.workers) {
        Ok(progress) => search_keeping(rt, threads, search, files, &progress),
        Err(_) => Err(FileFault::Memory),
    }
}

/// Searches the instance of a file, tells a follower how the search goes on, and keeps the best plan so far where that is asked for.
fn search_keeping<'a>(
    rt: &HostRuntime,
    threads: &(impl Threads + Wait + Sync),
    search: &Search<'a>,
    mut files: Files,
    follower: &(impl Follower + Sync),
) -> Result<End, FileFault<'a>>
    requires { IsSoundSearch search.now }
{
    let Some(name) = search.kept else {
        return Ok(search_files(rt, threads, search, files, follower));
    };
    let shelf = shelf_of(rt, name, &mut files.kept)?;
    let keeper = Keeper::beside(follower, threads, shelf);
    let end = search_files(rt, threads, search, files, &keeper);
    Ok(kept_end(end, keeper.has_failed()))
}

/// How an instance is to be searched.
fn asked_of(search: &Search) -> Asked {
    Asked {
        options: options_of(&search.effort),
        enough: Enough {
            until: search.until,
            gap: search.gap,
        },
        is_wide: search.is_wide,
    }
}

/// The part of the open leaves that is worked, where it isn't all of them.
fn portion_of(search: &Search) -> Option<Portion>
    requires { IsSoundSearch search.now }
    ensures { IsSomePart result }
{
    let Part { number, count } = search.from?.part?;
    Some(Portion { number, count })
}

/// Searches the instance of a file, from the plan of another where there is one, on from the certificate of a third where there is one, and
/// tells a follower how the search goes on.
fn search_files(
    rt: &HostRuntime,
    threads: &(impl Threads + Wait + Sync),
    search: &Search,
    files: Files,
    follower: &(impl Follower + Sync),
) -> End
    requires { IsSoundSearch search.now }
{
    let Files {
        mut instance,
        mut start,
        from,
        mut certificate,
        ..
    } = files;
    let asked = asked_of(search);
    let patience = Patience {
        until: search.until,
        seconds: search.effort.seconds,
    };
    let patient = Patient::beside(follower, rt, patience);
    let certificate = certificate.as_mut();
    let out = &mut rt.stdout();
    if let Some(mut cert) = from {
        let part = portion_of(search);
        let on = Continuation { asked, part };
        return solve_run_on(
            threads,
            rt.alloc(),
            &mut instance,
            &mut start,
            &mut cert,
            on,
            &patient,
            certificate,
            out,
        );
    }
    match start {
        None => solve_run_with(
            threads,
            rt.alloc(),
            &mut instance,
            asked,
            &patient,
            certificate,
            out,
        ),
        Some(mut plan) => solve_run_from(
            threads,
            rt.alloc(),
            &mut instance,
            &mut plan,
            asked,
            &patient,
            certificate,
            out,
        ),
    }
}

/// Searches, says why that was refused, and gives the status.
pub fn solve(rt: &HostRuntime, threads: &(impl Threads + Wait + Sync), search: &Search) -> u8
    requires { IsSoundSearch search.now }
{
    let said = Said::files(search.instance, search.start, from_of(search));
    match run_solve(rt, threads, search) {
        Ok(end) => {
            if let End::Absent = end {
                hint_at_none(rt, search.instance);
            }
            told(rt, &end, &said)
        }
        Err(fault) => fault.tell(rt, &said, None),
    }
}

/// What ends the searches of a question so many seconds after the start, and tells a follower how they go on.
pub fn patient_for<'a, F: Follower>(
    rt: &'a HostRuntime,
    seconds: Option<u64>,
    follower: &'a F,
) -> Patient<'a, HostRuntime, F> {
    let patience = Patience {
        until: None,
        seconds,
    };
    Patient::beside(follower, rt, patience)
}

/// Tells why the instance of a file has no plan, and says how far it is where that is asked for.
fn run_why<'a>(
    rt: &HostRuntime,
    threads: &(impl Threads + Wait + Sync),
    why: &Why<'a>,
) -> Result<End, FileFault<'a>> {
    if !why.question.effort.progress {
        return follow_why(rt, threads, why, &FreeGate);
    }
    let searches = Searches::on(rt, lines_beside(rt));
    let end = follow_why(rt, threads, why, &searches);
    searches.end();
    end
}

/// Tells it, and a follower how the searches go on. All files are open before one is read.
fn follow_why<'a>(
    rt: &HostRuntime,
    threads: &(impl Threads + Wait + Sync),
    why: &Why<'a>,
    follower: &(impl Follower + Sync),
) -> Result<End, FileFault<'a>> {
    let mut files = Files::open(rt, &Named::of_question(Asks::Why, &why.question))?;
    let wanted = Wanted {
        certificate: why.question.certificate.is_some(),
        reduced: why.question.reduced.is_some(),
        late: why.late,
    };
    let asking = &Asking {
        alloc: rt.alloc(),
        options: options_of(&why.question.effort),
        gate: &patient_for(rt, why.question.effort.seconds, follower),
    };
    let (instance, out) = (&mut files.instance, &mut rt.stdout());
    let (cert, reduced) = (&mut Sheet(files.certificate), &mut Sheet(files.reduced));
    Ok(match why.question.form {
        AnswerForm::Text => why_run(threads, asking, instance, wanted, cert, reduced, out),
        AnswerForm::Json => why_json(threads, asking, instance, wanted, cert, reduced, out),
    })
}

/// Tells why there is no plan, says why that was refused, and gives the status.
pub fn why(rt: &HostRuntime, threads: &(impl Threads + Wait + Sync), why: &Why) -> u8 {
    let said = Said::files(why.question.instance, None, None);
    match run_why(rt, threads, why) {
        Ok(end) => told(rt, &end, &said),
        Err(fault) => fault.tell(rt, &said, as_json(why.question.form, &WHY)),
    }
}

/// Tells how early processes of the instance of a file can end, and says how far it is where that is asked for.
fn run_limit<'a>(
    rt: &HostRuntime,
    threads: &(impl Threads + Wait + Sync),
    limit: &Limit<'a>,
) -> Result<End, FileFault<'a>> {
    if !limit.question.effort.progress {
        return follow_limit(rt, threads, limit, &FreeGate);
    }
    let searches = Searches::on(rt, lines_for(rt));
    let end = follow_limit(rt, threads, limit, &searches);
    searches.end();
    end
}

/// Tells it, and a follower how the searches go on. All files are open before the instance is read.
fn follow_limit<'a>(
    rt: &HostRuntime,
    threads: &(impl Threads + Wait + Sync),
    limit: &Limit<'a>,
    follower: &(impl Follower + Sync),
) -> Result<End, FileFault<'a>> {
    let mut files = Files::open(rt, &Named::of_question(Asks::Limit, &limit.question))?;
    let beside = Beside {
        certificate: limit.question.certificate.is_some(),
        reduced: limit.question.reduced.is_some(),
    };
    let asking = &Asking {
        alloc: rt.alloc(),
        options: options_of(&limit.question.effort),
        gate: &patient_for(rt, limit.question.effort.seconds, follower),
    };
    let words = limit.processes.as_slice();
    let (instance, out) = (&mut files.instance, &mut rt.stdout());
    let (cert, reduced) = (&mut Sheet(files.certificate), &mut Sheet(files.reduced));
    Ok(match limit.question.form {
        AnswerForm::Text => limit_run(threads, asking, instance, words, beside, cert, reduced, out),
        AnswerForm::Json => limit_json(
            threads, asking, instance, words, beside, cert, reduced, out,
        ),
    })
}

/// Tells how early processes can end, says why that was refused, and gives the status.
pub fn limit(rt: &HostRuntime, threads: &(impl Threads + Wait + Sync), limit: &Limit) -> u8 {
    let said = Said::files(limit.question.instance, None, None);
    match run_limit(rt, threads, limit) {
        Ok(end) => told(rt, &end, &said.with_words(limit.processes.as_slice())),
        Err(fault) => fault.tell(rt, &said, as_json(limit.question.form, &LIMIT)),
    }
}
