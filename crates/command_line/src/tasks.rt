//! What do the words of a command ask for of an instance and a plan?

ghost use Rattle.std.specs.Prelude.{IfOk};
ghost use Rattle.command_line.specs.Requests.{IsSound, IsSoundRounds, IsSoundTask};

use crate::given::Given;
use crate::misuse::Misuse;
use crate::options::{
    FORMAT, INSTANCE, LOSSES, NODE, PERIOD_TICKS, PLAN, ROUNDS, SCHEDULE_FORMAT, TABLE, USED, WIDTH,
};
use crate::rows::Row;
use crate::words::{Request, RoundsTask, Task};
use plan_sheets::Table;
use plan_sheets::pictures::Shown;
use schedule_exports::Export;
use std::alloc::Global;

/// The files of an instance and of its plan.
type Pair<'a> = (&'a str, &'a str);

/// The names of these files.
fn pair_of<'a>(given: Given<'_, 'a>) -> Result<Pair<'a>, Misuse<'a>> {
    let instance = given.text(INSTANCE)?;
    let plan = given.text(PLAN)?;
    Ok((instance, plan))
}

/// A task on these files.
fn on_pair<'a>(files: Pair<'a>, task: Task<'a>) -> Request<'a>
    requires { IsSoundTask task }
    ensures { IsSound result }
{
    let (instance, plan) = files;
    Request::OnFiles {
        instance,
        plan,
        task,
    }
}

/// A task on the rounds of these files.
fn of_rounds<'a>(files: Pair<'a>, task: RoundsTask) -> Request<'a>
    requires { IsSoundRounds task }
    ensures { IsSound result }
{
    let (instance, plan) = files;
    Request::OfRounds {
        instance,
        plan,
        task,
    }
}

/// The verification of a plan.
pub fn verify_request<'a>(given: Given<'_, 'a>) -> Result<Request<'a>, Misuse<'a>>
    ensures { IfOk result IsSound }
{
    let files = pair_of(given)?;
    let form = given.form(FORMAT)?;
    Ok(on_pair(files, Task::Verify(form)))
}

/// Tables of the rounds of a plan's cycle, or of so many.
pub fn tables_request<'a>(given: Given<'_, 'a>) -> Result<Request<'a>, Misuse<'a>>
    ensures { IfOk result IsSound }
{
    let files = pair_of(given)?;
    match given.u32_if_any(ROUNDS)? {
        None => Ok(on_pair(files, Task::Tables)),
        Some(rounds) => Ok(of_rounds(files, RoundsTask::Tables(rounds))),
    }
}

/// What a plan's rounds are in a period.
pub fn period_request<'a>(given: Given<'_, 'a>) -> Result<Request<'a>, Misuse<'a>>
    ensures { IfOk result IsSound }
{
    let files = pair_of(given)?;
    let ticks = given.number(PERIOD_TICKS)?;
    Ok(of_rounds(files, RoundsTask::Period(ticks)))
}

/// The replay of a cycle, in which the frames that are named are lost.
pub fn replay_request<'a>(alloc: Global, given: Given<'_, 'a>) -> Result<Request<'a>, Misuse<'a>>
    ensures { IfOk result IsSound }
{
    let files = pair_of(given)?;
    let losses = given.list(alloc, LOSSES)?;
    Ok(on_pair(files, Task::Replay(losses)))
}

/// The tables of a plan.
const TABLES: &[Table] = &[Table::Processes, Table::Slots, Table::Messages];

/// What a table is called.
fn name_of_table(table: Table) -> &'static str {
    match table {
        Table::Processes => "processes",
        Table::Slots => "slots",
        Table::Messages => "messages",
    }
}

/// The table of a name.
fn table_named(name: &str) -> Option<Table> {
    for table in TABLES {
        if name_of_table(*table) == name {
            return Some(*table);
        }
    }
    None
}

/// The table that is named, or that of processes.
fn table_of<'a>(given: Given<'_, 'a>) -> Result<Table, Misuse<'a>> {
    let Some(name) = given.text_if_any(TABLE) else {
        return Ok(Table::Processes);
    };
    match table_named(name) {
        Some(table) => Ok(table),
        None => Err(Misuse::Missing),
    }
}

/// In which form a schedule is written.
#[derive(Clone, Copy)]
enum Format {
    Csv,
    C,
    Json,
    Trace,
}

/// These forms.
const FORMATS: &[Format] = &[Format::Csv, Format::C, Format::Json, Format::Trace];

/// What such a form is called.
fn name_of_format(format: Format) -> &'static str {
    match format {
        Format::Csv => "csv",
        Format::C => "c",
        Format::Json => "json",
        Format::Trace => "trace",
    }
}

/// The form of a name.
fn format_named(name: &str) -> Option<Format> {
    for format in FORMATS {
        if name_of_format(*format) == name {
            return Some(*format);
        }
    }
    None
}

/// The form that is asked for.
fn format_of<'a>(given: Given<'_, 'a>) -> Result<Format, Misuse<'a>> {
    let name = given.text(SCHEDULE_FORMAT)?;
    match format_named(name) {
        Some(format) => Ok(format),
        None => Err(Misuse::Missing),
    }
}

/// That an option isn't used, of which this is said where it is.
pub fn unused<'a>(
    given: Given<'_, 'a>,
    row: &'static Row,
    why: &'static str,
) -> Result<(), Misuse<'a>> {
    match given.text_if_any(row) {
        Some(word) => Err(Misuse::Unserved(row, why, word)),
        None => Ok(()),
    }
}

/// That no table is named: one by itself is served in `csv` alone.
fn without_table<'a>(given: Given<'_, 'a>) -> Result<(), Misuse<'a>> {
    unused(given, TABLE, "a table is served in `--format csv` alone")
}

/// That no node is named: one by itself is served in what nodes are loaded with.
fn without_node<'a>(given: Given<'_, 'a>) -> Result<(), Misuse<'a>> {
    unused(
        given,
        NODE,
        "a node by itself is served in `--format c` and `--format json` alone",
    )
}

/// A table of comma-separated values.
fn csv_task<'a>(given: Given<'_, 'a>) -> Result<Task<'a>, Misuse<'a>>
    ensures { IfOk result IsSoundTask }
{
    without_node(given)?;
    let table = table_of(given)?;
    Ok(Task::Schedule(table))
}

/// What nodes are loaded with, or a trace.
fn export_of<'a>(given: Given<'_, 'a>, format: Format) -> Result<Export<'a>, Misuse<'a>> {
    without_table(given)?;
    let node = given.text_if_any(NODE);
    match format {
        Format::C => Ok(Export::C(node)),
        Format::Json => Ok(Export::Json(node)),
        Format::Csv | Format::Trace => {
            without_node(given)?;
            Ok(Export::Trace)
        }
    }
}

/// The task of writing a schedule in a form.
fn schedule_task<'a>(given: Given<'_, 'a>) -> Result<Task<'a>, Misuse<'a>>
    ensures { IfOk result IsSoundTask }
{
    let format = format_of(given)?;
    if let Format::Csv = format {
        return csv_task(given);
    }
    let export = export_of(given, format)?;
    Ok(Task::Export(export))
}

/// A schedule in a form.
pub fn schedule_request<'a>(given: Given<'_, 'a>) -> Result<Request<'a>, Misuse<'a>>
    ensures { IfOk result IsSound }
{
    let files = pair_of(given)?;
    let task = schedule_task(given)?;
    Ok(on_pair(files, task))
}

/// Which slots are drawn.
fn shown_of(given: Given<'_, '_>) -> Shown {
    if given.flag(USED) {
        Shown::Used
    } else {
        Shown::All
    }
}

/// A picture.
pub fn draw_request<'a>(given: Given<'_, 'a>) -> Result<Request<'a>, Misuse<'a>>
    ensures { IfOk result IsSound }
{
    let files = pair_of(given)?;
    let width = given.u32(WIDTH)?;
    let shown = shown_of(given);
    Ok(on_pair(files, Task::Draw { width, shown }))
}
