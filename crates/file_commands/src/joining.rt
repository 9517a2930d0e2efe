//! On which files are certificates joined?

ghost use Rattle.std.specs.Prelude.{◌≡◌, ◌≤◌, length, IfOk};

use crate::files::{
    FileFault, Sheet, Sources, empty, file_of, file_to_read, file_to_write, take_back,
};
use crate::hints::{Said, hint_at_fault};
use command_line::{Asks, Joining};
use command_streams::{End, Fault, Sink, Source};
use plan_commands::{JoinEnd, join_run, join_status, report_join};
use std::fs::File;

/// Why a join can't have its files.
enum JoinFault<'a> {
    /// When the certificate of this number can't be opened.
    Certificate(usize),
    /// When another file can't be had.
    File(FileFault<'a>),
}

impl<'a> From<FileFault<'a>> for JoinFault<'a> {
    fn from(fault: FileFault<'a>) -> Self {
        JoinFault::File(fault)
    }
}

/// The certificates of these names, opened.
fn open_certificates<'a>(rt: &HostRuntime, names: &[&str]) -> Result<Vec<File>, JoinFault<'a>>
    ensures { IfOk result (λ files. length files.items ≡ length names.now) }
{
    let mut files = Vec::new(rt.alloc());
    for name in names {
        let Ok(file) = File::open(rt, *name) else {
            return Err(JoinFault::Certificate(files.len()));
        };
        if files.push(file).is_err() {
            return Err(JoinFault::File(FileFault::Memory));
        }
    }
    Ok(files)
}

/// The file of a joined certificate, which is emptied once it is known to be none that is read, by whatever name, way or link.
fn joined_of<'a>(
    rt: &HostRuntime,
    name: Option<&'a str>,
    sources: &Sources,
) -> Result<Option<File>, FileFault<'a>> {
    let made = file_to_write(rt, Sink::Certificate, name)?;
    if let Some(fault) = sources.fault_of_certificate(Asks::Join, &made) {
        take_back(rt, &made);
        return Err(fault);
    }
    empty(Sink::Certificate, &made)?;
    Ok(file_of(made))
}

/// Joins the certificates of files. All files are open before one is read, in the order of the words.
fn run_join<'a>(rt: &HostRuntime, joining: &Joining<'a>) -> Result<JoinEnd, JoinFault<'a>>
    requires { 2 ≤ length joining.now.certificates.items }
{
    let instance = file_to_read(rt, Source::Instance, joining.instance)?;
    let certificates = open_certificates(rt, joining.certificates.as_slice())?;
    let mut sources = Sources {
        instance,
        start: None,
        certificates,
    };
    let joined = joined_of(rt, joining.joined, &sources)?;
    Ok(join_run(
        rt.alloc(),
        &mut sources.instance,
        sources.certificates.as_mut_slice(),
        &mut Sheet(joined),
        &mut rt.stdout(),
    ))
}

/// Says on standard error why certificates weren't joined, and what that means at a terminal, and gives the status.
fn told(rt: &HostRuntime, joining: &Joining, end: &JoinEnd) -> u8 {
    let _ = report_join(end, &mut rt.stderr());
    match end {
        JoinEnd::Ended(End::Refused(fault)) => {
            hint_at_fault(rt, &Said::files(joining.instance, None, None), fault)
        }
        JoinEnd::RefusedAt(number, fault) => {
            let certificate = joining.certificates.get(*number).copied();
            hint_at_fault(rt, &Said::files(joining.instance, None, certificate), fault)
        }
        JoinEnd::Ended(_) => {}
    }
    join_status(end)
}

/// Joins certificates, says why that was refused, and gives the status.
pub fn join(rt: &HostRuntime, joining: &Joining) -> u8
    requires { 2 ≤ length joining.now.certificates.items }
{
    match run_join(rt, joining) {
        Ok(end) => told(rt, joining, &end),
        Err(JoinFault::Certificate(number)) => {
            let fault = Fault::Unread(Source::Certificate);
            told(rt, joining, &JoinEnd::RefusedAt(number, fault))
        }
        Err(JoinFault::File(fault)) => {
            fault.tell(rt, &Said::files(joining.instance, None, None), None)
        }
    }
}
