//! How is it told of the instance of a file by how much longer its processes may run, and where is that written?

ghost use Rattle.std.specs.Prelude.{◌≤◌};

use crate::searches::{lines_for, options_of, patient_for};
use command_line::{AnswerForm, Asks, Margin};
use command_streams::End;
use file_commands::files::{FileFault, Files, Named, Sheet};
use file_commands::hints::{Said, told};
use file_commands::judging::as_json;
use question_commands::{Asking, Beside, MARGIN, Scale, Terms, margin_json, margin_run};
use solve_command::{Follower, FreeGate, Searches};
use std::marker::Sync;
use std::sync::Wait;
use std::thread::Threads;

/// What is asked, in the words of the command.
fn terms_of(margin: &Margin) -> Terms
    requires { 1 ≤ margin.now.within }
    ensures { 1 ≤ result.within }
{
    let scale = if margin.thousandths {
        Scale::Thousandths
    } else {
        Scale::Ticks
    };
    Terms {
        scale,
        within: margin.within,
        beside: Beside {
            certificate: margin.question.certificate.is_some(),
            reduced: margin.question.reduced.is_some(),
        },
    }
}

/// Tells it, and a follower how the searches go on. All files are open before the instance is read.
fn follow_margin<'a>(
    rt: &HostRuntime,
    threads: &(impl Threads + Wait + Sync),
    margin: &Margin<'a>,
    follower: &(impl Follower + Sync),
) -> Result<End, FileFault<'a>>
    requires { 1 ≤ margin.now.within }
{
    let mut files = Files::open(rt, &Named::of_question(Asks::Margin, &margin.question))?;
    let asking = &Asking {
        alloc: rt.alloc(),
        options: options_of(&margin.question.effort),
        gate: &patient_for(rt, margin.question.effort.seconds, follower),
    };
    let (words, terms) = (margin.processes.as_slice(), terms_of(margin));
    let (instance, out) = (&mut files.instance, &mut rt.stdout());
    let (cert, reduced) = (&mut Sheet(files.certificate), &mut Sheet(files.reduced));
    Ok(match margin.question.form {
        AnswerForm::Text => margin_run(threads, asking, instance, words, terms, cert, reduced, out),
        AnswerForm::Json => margin_json(
            threads, asking, instance, words, terms, cert, reduced, out,
        ),
    })
}

/// Tells by how much longer processes of the instance of a file may run, and says how far it is where that is asked for.
fn run_margin<'a>(
    rt: &HostRuntime,
    threads: &(impl Threads + Wait + Sync),
    margin: &Margin<'a>,
) -> Result<End, FileFault<'a>>
    requires { 1 ≤ margin.now.within }
{
    if !margin.question.effort.progress {
        return follow_margin(rt, threads, margin, &FreeGate);
    }
    let searches = Searches::on(rt, lines_for(rt));
    let end = follow_margin(rt, threads, margin, &searches);
    searches.end();
    end
}

/// Tells it, says why that was refused, and gives the status.
pub fn margin(rt: &HostRuntime, threads: &(impl Threads + Wait + Sync), margin: &Margin) -> u8
    requires { 1 ≤ margin.now.within }
{
    let said = Said::files(margin.question.instance, None, None);
    match run_margin(rt, threads, margin) {
        Ok(end) => told(rt, &end, &said.with_words(margin.processes.as_slice())),
        Err(fault) => fault.tell(rt, &said, as_json(margin.question.form, &MARGIN)),
    }
}
