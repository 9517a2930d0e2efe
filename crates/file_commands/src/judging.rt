//! What is done with what is given, on files of the system? All files of a command are open before one is read, in the order of its words.

ghost use Rattle.command_line.specs.Requests.{IsSoundRounds, IsSoundTask};

use crate::hints::{Said, told};
use command_line::{AnswerForm, Explained, RoundsTask, Task};
use command_streams::{End, Fault, Release, Source};
use explain_command::{
    COMPARE, CommandLines, EXPLAIN, JUDGE, Reasons, VERIFY, explain_certificate,
    explain_certificate_json, explain_instance, explain_instance_json, explain_plan,
    explain_plan_json, tell,
};
use plan_commands::{
    check_run, compare_json, compare_run, draw_run, export_run, judge_json, judge_run, period_run,
    replay_run, schedule_run, tables, tables_run, verify, verify_json,
};
use std::fs::File;
use std::marker::Sync;
use std::thread::Threads;

/// An instance's file and a second one, both opened, in the order of the words.
fn open_both(
    rt: &HostRuntime,
    instance: &str,
    name: &str,
    source: Source,
) -> Result<(File, File), Source> {
    let Ok(instance) = File::open(rt, instance) else {
        return Err(Source::Instance);
    };
    let Ok(second) = File::open(rt, name) else {
        return Err(source);
    };
    Ok((instance, second))
}

/// The command where it answers by an object.
pub fn as_json(form: AnswerForm, command: &'static CommandLines) -> Option<&'static CommandLines> {
    match form {
        AnswerForm::Text => None,
        AnswerForm::Json => Some(command),
    }
}

/// Ends a command that is refused before it reads. An object tells so too, where it answers by one.
pub fn refused(rt: &HostRuntime, as_json: Option<&CommandLines>, end: End) -> End {
    match as_json {
        None => end,
        Some(command) => {
            let nothing = Reasons::unasked();
            tell(rt.alloc(), command, end, &[], &nothing, &mut rt.stdout())
        }
    }
}

/// Ends a command of which a file can't be opened.
fn unopened(rt: &HostRuntime, as_json: Option<&CommandLines>, source: Source) -> End {
    refused(rt, as_json, End::Refused(Fault::Unread(source)))
}

/// The form of a task's answer.
fn form_of(task: &Task) -> AnswerForm {
    match task {
        Task::Verify(form) => *form,
        Task::Tables | Task::Replay(_) | Task::Schedule(_) | Task::Export(_) | Task::Draw { .. } =>
            AnswerForm::Text,
    }
}

/// Does what is asked for on two files.
fn run_on_files(rt: &HostRuntime, instance: &str, plan: &str, task: &Task) -> End
    requires { IsSoundTask task.now }
{
    let (mut instance, mut plan) = match open_both(rt, instance, plan, Source::Plan) {
        Ok(files) => files,
        Err(source) => return unopened(rt, as_json(form_of(task), &VERIFY), source),
    };
    let mut out = rt.stdout();
    match task {
        Task::Verify(AnswerForm::Text) => verify(rt.alloc(), &mut instance, &mut plan, &mut out),
        Task::Verify(AnswerForm::Json) => verify_json(
            rt.alloc(),
            &mut instance,
            &mut plan,
            &mut out,
        ),
        Task::Tables => tables(rt.alloc(), &mut instance, &mut plan, &mut out),
        Task::Replay(losses) => replay_run(
            rt.alloc(),
            &mut instance,
            &mut plan,
            losses.as_slice(),
            &mut out,
        ),
        Task::Schedule(table) => {
            schedule_run(rt.alloc(), &mut instance, &mut plan, *table, &mut out)
        }
        Task::Export(export) => {
            export_run(rt.alloc(), &mut instance, &mut plan, *export, &mut out)
        }
        Task::Draw { width, shown } => draw_run(
            rt.alloc(),
            &mut instance,
            &mut plan,
            *width,
            *shown,
            &mut out,
        ),
    }
}

/// The words of a task that aren't names of files.
fn words_of<'t, 'n>(task: &'t Task<'n>) -> &'t [&'n str] {
    match task {
        Task::Replay(losses) => losses.as_slice(),
        Task::Verify(_) | Task::Tables | Task::Schedule(_) | Task::Export(_) | Task::Draw { .. } =>
            &[],
    }
}

/// Does what is asked for on two files, says why it was refused, and gives the status.
pub fn on_files<'n>(rt: &HostRuntime, instance: &'n str, plan: &'n str, task: &Task<'n>) -> u8
    requires { IsSoundTask task.now }
{
    let end = run_on_files(rt, instance, plan, task);
    let said = Said::files(instance, Some(plan), None);
    told(rt, &end, &said.with_words(words_of(task)))
}

/// Tells of the rounds of a plan's cycle.
fn run_of_rounds(rt: &HostRuntime, instance: &str, plan: &str, task: RoundsTask) -> End
    requires { IsSoundRounds task }
{
    let (mut instance, mut plan) = match open_both(rt, instance, plan, Source::Plan) {
        Ok(files) => files,
        Err(source) => return End::Refused(Fault::Unread(source)),
    };
    let mut out = rt.stdout();
    match task {
        RoundsTask::Period(ticks) => {
            period_run(rt.alloc(), &mut instance, &mut plan, ticks, &mut out)
        }
        RoundsTask::Tables(rounds) => {
            tables_run(rt.alloc(), &mut instance, &mut plan, rounds, &mut out)
        }
    }
}

/// Tells of the rounds of a plan's cycle, says why that was refused, and gives the status.
pub fn of_rounds<'n>(rt: &HostRuntime, instance: &'n str, plan: &'n str, task: RoundsTask) -> u8
    requires { IsSoundRounds task }
{
    let end = run_of_rounds(rt, instance, plan, task);
    told(rt, &end, &Said::files(instance, Some(plan), None))
}

/// Checks a certificate, which may be long or not.
fn run_check(
    rt: &HostRuntime,
    threads: &(impl Threads + Sync),
    is_long: bool,
    instance: &str,
    certificate: &str,
) -> End {
    let files = open_both(rt, instance, certificate, Source::Certificate);
    let (mut instance, mut certificate) = match files {
        Ok(files) => files,
        Err(source) => return End::Refused(Fault::Unread(source)),
    };
    check_run(
        threads,
        rt.alloc(),
        is_long,
        &mut instance,
        &mut certificate,
        &mut rt.stdout(),
    )
}

/// Checks a certificate, which may be long or not, says why that was refused, and gives the status.
pub fn check<'n>(
    rt: &HostRuntime,
    threads: &(impl Threads + Sync),
    is_long: bool,
    instance: &'n str,
    certificate: &'n str,
) -> u8 {
    let end = run_check(rt, threads, is_long, instance, certificate);
    told(rt, &end, &Said::files(instance, None, Some(certificate)))
}

/// Judges a plan by a certificate, which may be long or not.
fn run_judge(
    rt: &HostRuntime,
    threads: &(impl Threads + Sync),
    is_long: bool,
    instance: &str,
    plan: &str,
    certificate: &str,
    form: AnswerForm,
) -> End {
    let (mut instance, mut plan) = match open_both(rt, instance, plan, Source::Plan) {
        Ok(files) => files,
        Err(source) => return unopened(rt, as_json(form, &JUDGE), source),
    };
    let Ok(mut certificate) = File::open(rt, certificate) else {
        return unopened(rt, as_json(form, &JUDGE), Source::Certificate);
    };
    let (alloc, mut out) = (rt.alloc(), rt.stdout());
    let (instance, plan, certificate) = (&mut instance, &mut plan, &mut certificate);
    match form {
        AnswerForm::Text => judge_run(
            threads,
            alloc,
            is_long,
            instance,
            plan,
            certificate,
            &mut out,
        ),
        AnswerForm::Json => judge_json(
            threads,
            alloc,
            is_long,
            instance,
            plan,
            certificate,
            &mut out,
        ),
    }
}

/// Judges a plan by a certificate, which may be long or not, says why that was refused, and gives the status.
pub fn judge<'n>(
    rt: &HostRuntime,
    threads: &(impl Threads + Sync),
    is_long: bool,
    instance: &'n str,
    plan: &'n str,
    certificate: &'n str,
    form: AnswerForm,
) -> u8 {
    let end = run_judge(rt, threads, is_long, instance, plan, certificate, form);
    told(
        rt,
        &end,
        &Said::files(instance, Some(plan), Some(certificate)),
    )
}

/// Explains an instance.
fn run_explain_instance(rt: &HostRuntime, instance: &str, form: AnswerForm) -> End {
    let Ok(mut instance) = File::open(rt, instance) else {
        return unopened(rt, as_json(form, &EXPLAIN), Source::Instance);
    };
    let (alloc, mut out) = (rt.alloc(), rt.stdout());
    match form {
        AnswerForm::Text => explain_instance(
            alloc,
            &mut instance,
            &mut Reasons::unasked(),
            &mut out,
        ),
        AnswerForm::Json => explain_instance_json(alloc, &mut instance, &mut out),
    }
}

/// Explains a plan.
fn run_explain_plan(rt: &HostRuntime, instance: &str, plan: &str, form: AnswerForm) -> End {
    let (mut instance, mut plan) = match open_both(rt, instance, plan, Source::Plan) {
        Ok(files) => files,
        Err(source) => return unopened(rt, as_json(form, &EXPLAIN), source),
    };
    let (alloc, mut out) = (rt.alloc(), rt.stdout());
    let (instance, plan) = (&mut instance, &mut plan);
    match form {
        AnswerForm::Text => explain_plan(alloc, instance, plan, &mut Reasons::unasked(), &mut out),
        AnswerForm::Json => explain_plan_json(alloc, instance, plan, &mut out),
    }
}

/// Explains a certificate.
fn run_explain_certificate(
    rt: &HostRuntime,
    threads: &(impl Threads + Sync),
    instance: &str,
    certificate: &str,
    form: AnswerForm,
) -> End {
    let files = open_both(rt, instance, certificate, Source::Certificate);
    let (mut instance, mut certificate) = match files {
        Ok(files) => files,
        Err(source) => return unopened(rt, as_json(form, &EXPLAIN), source),
    };
    let (alloc, mut out) = (rt.alloc(), rt.stdout());
    let (instance, certificate) = (&mut instance, &mut certificate);
    match form {
        AnswerForm::Text => explain_certificate(
            threads,
            alloc,
            instance,
            certificate,
            &mut Reasons::unasked(),
            &mut out,
        ),
        AnswerForm::Json => explain_certificate_json(
            threads,
            alloc,
            instance,
            certificate,
            &mut out,
        ),
    }
}

/// Explains an instance, or a plan or a certificate for it.
fn run_explain(
    rt: &HostRuntime,
    threads: &(impl Threads + Sync),
    instance: &str,
    explained: Explained,
    form: AnswerForm,
) -> End {
    match explained {
        Explained::Instance => run_explain_instance(rt, instance, form),
        Explained::Plan(plan) => run_explain_plan(rt, instance, plan, form),
        Explained::Certificate(certificate) => {
            run_explain_certificate(rt, threads, instance, certificate, form)
        }
    }
}

/// Explains an instance, or a plan or a certificate for it, says why that was refused, and gives the status.
pub fn explain<'n>(
    rt: &HostRuntime,
    threads: &(impl Threads + Sync),
    instance: &'n str,
    explained: Explained<'n>,
    form: AnswerForm,
) -> u8 {
    let said = match explained {
        Explained::Instance => Said::files(instance, None, None),
        Explained::Plan(plan) => Said::files(instance, Some(plan), None),
        Explained::Certificate(certificate) => Said::files(instance, None, Some(certificate)),
    };
    told(
        rt,
        &run_explain(rt, threads, instance, explained, form),
        &said,
    )
}

/// Compares two instances, each with a plan of it.
fn run_compare(rt: &HostRuntime, old: (&str, &str), new: (&str, &str), form: AnswerForm) -> End {
    let (mut old_instance, mut old_plan) = match open_both(rt, old.0, old.1, Source::Plan) {
        Ok(files) => files,
        Err(source) => return unopened_release(rt, form, Release::Old, source),
    };
    let (mut new_instance, mut new_plan) = match open_both(rt, new.0, new.1, Source::Plan) {
        Ok(files) => files,
        Err(source) => return unopened_release(rt, form, Release::New, source),
    };
    let (alloc, mut out) = (rt.alloc(), rt.stdout());
    let (old, old_plan) = (&mut old_instance, &mut old_plan);
    let (new, new_plan) = (&mut new_instance, &mut new_plan);
    match form {
        AnswerForm::Text => compare_run(alloc, old, old_plan, new, new_plan, &mut out),
        AnswerForm::Json => compare_json(alloc, old, old_plan, new, new_plan, &mut out),
    }
}

/// Ends a comparison of which a file of this release can't be opened.
fn unopened_release(rt: &HostRuntime, form: AnswerForm, release: Release, source: Source) -> End {
    let end = End::RefusedOf(release, Fault::Unread(source));
    refused(rt, as_json(form, &COMPARE), end)
}

/// Compares two instances, each with a plan of it, says why that was refused, and gives the status.
pub fn compare<'n>(
    rt: &HostRuntime,
    old: (&'n str, &'n str),
    new: (&'n str, &'n str),
    form: AnswerForm,
) -> u8 {
    let end = run_compare(rt, old, new, form);
    let said = match &end {
        End::RefusedOf(Release::Old, _) => Said::files(old.0, Some(old.1), None),
        _ => Said::files(new.0, Some(new.1), None),
    };
    told(rt, &end, &said)
}
