//! What is a person at a terminal told beside a line of codes?

use command_line::{EXPLAINED_CERT, USED};
use command_streams::{End, Fault, Source, read_instance, report, status, status_of_fault};
use instance_reasons::nearest;
use line_text::Told;
use std::alloc::Global;
use std::fmt;
use std::fs::{self, File};
use std::io::{self, IsTerminal, Write};
use ttp_model::Instance;

/// The status of a command to which memory was refused, whatever text it was for.
const WANT_OF_MEMORY: u8 = 4;

/// A word of the command line, as it can be written there again, and without a control byte.
#[derive(Clone, Copy)]
struct Word<'a>(&'a str);

/// Whether a byte stands for itself in a shell.
fn is_plain(byte: u8) -> bool {
    byte.is_ascii_alphanumeric() || b"/._-+,:@%".contains(&byte)
}

impl fmt::Display for Word<'_> {
    fn fmt<W: fmt::Write>(&self, f: &mut fmt::Formatter<W>) -> fmt::Result {
        let bytes = self.0.as_bytes();
        let is_quoted = bytes.is_empty() || !bytes.iter().all(|byte| is_plain(*byte));
        if is_quoted {
            write!(f, "'")?;
        }
        for byte in bytes.chunks(1) {
            if byte == b"'".as_slice() {
                write!(f, "'\\''")?;
            } else {
                write!(f, "{}", Told { bytes: byte })?;
            }
        }
        if is_quoted {
            write!(f, "'")?;
        }
        Ok(())
    }
}

/// The words of a command line that a refusal is about.
#[derive(Clone, Copy)]
pub struct Said<'a, 'w> {
    pub instance: Option<&'a str>,
    pub plan: Option<&'a str>,
    pub certificate: Option<&'a str>,
    /// Lost frames, or names of processes.
    pub words: &'w [&'a str],
}

impl<'a, 'w> Said<'a, 'w> {
    /// These files are named.
    pub fn files(instance: &'a str, plan: Option<&'a str>, certificate: Option<&'a str>) -> Self {
        Said {
            instance: Some(instance),
            plan,
            certificate,
            words: &[],
        }
    }

    /// The same, beside these words.
    pub fn with_words<'v>(self, words: &'v [&'a str]) -> Said<'a, 'v> {
        Said {
            instance: self.instance,
            plan: self.plan,
            certificate: self.certificate,
            words,
        }
    }

    /// Nothing is named.
    pub fn nothing() -> Self {
        Said {
            instance: None,
            plan: None,
            certificate: None,
            words: &[],
        }
    }

    /// The word of this index.
    fn word(&self, index: usize) -> Word<'a> {
        Word(self.words.get(index).copied().unwrap_or(""))
    }

    /// Whether this word stands before the one of this index.
    fn is_repeated(&self, index: usize) -> bool {
        match (self.words.get(index), self.words.get(..index)) {
            (Some(word), Some(before)) => before.contains(word),
            _ => false,
        }
    }

    /// The name of a file that is read.
    fn file(&self, source: Source) -> Option<Word<'a>> {
        let name = match source {
            Source::Instance => self.instance,
            Source::Plan => self.plan,
            Source::Certificate => self.certificate,
        };
        name.map(Word)
    }
}

/// Says on standard error why a command was refused, and what that means at a terminal, and gives the status.
pub fn told(rt: &HostRuntime, end: &End, said: &Said) -> u8 {
    let _ = report(end, &mut rt.stderr());
    match end {
        End::Refused(fault) | End::RefusedOf(_, fault) => hint_at_fault(rt, said, fault),
        End::Done | End::Different | End::Absent | End::Stopped => {}
    }
    status(end)
}

/// Says beside the line of a fault which command explains it, or what it means, where standard error is a terminal.
pub fn hint_at_fault(rt: &HostRuntime, said: &Said, fault: &Fault) {
    let mut err = rt.stderr();
    if err.is_terminal() && status_of_fault(fault) != WANT_OF_MEMORY {
        let _ = write_hint(&mut err, said, fault);
        match fault {
            Fault::NoSuchProcess(index) | Fault::NoSuchRunner(index) if !said.is_repeated(*index) =>
                {
                    let _ = write_near(rt, &mut err, said, *index);
                }
            _ => {}
        }
    }
}

/// The instance of a plain file, read once more.
fn instance_again(rt: &HostRuntime, name: &str) -> Option<Instance> {
    let is_plain = match fs::metadata(rt, name) {
        Ok(found) => found.is_file(),
        Err(_) => false,
    };
    if !is_plain {
        return None;
    }
    let mut file = File::open(rt, name).ok()?;
    read_instance(rt.alloc(), &mut file).ok()
}

/// The name of a process that is nearest to a word, where one is near.
fn near_process<'a>(alloc: Global, instance: &'a Instance, word: &str) -> Option<&'a str> {
    let mut names = Vec::new(alloc);
    for process in instance.processes() {
        names.push(process.name.as_str()).ok()?;
    }
    nearest(alloc, word, names.as_slice()).ok()?
}

/// Asks whether the process was meant whose name is nearest to the word of this index, where that names none.
fn write_near(rt: &HostRuntime, out: &mut impl Write, said: &Said, index: usize) -> io::Result<()> {
    let (Some(name), Some(word)) = (said.instance, said.words.get(index)) else {
        return Ok(());
    };
    let Some(instance) = instance_again(rt, name) else {
        return Ok(());
    };
    let asked = match near_process(rt.alloc(), &instance, *word) {
        Some(near) => writeln!(out, "did you mean {}?", Word(near)),
        None => Ok(()),
    };
    drop(instance);
    asked
}

/// Says which command tells why there is no plan, where standard error is a terminal.
pub fn hint_at_none(rt: &HostRuntime, instance: &str) {
    let mut err = rt.stderr();
    if err.is_terminal() {
        let _ = writeln!(
            err,
            "which constraints leave none: ttplan why {}",
            Word(instance)
        );
    }
}

/// Says beside the line of a file that can't be read which one it is, where standard error is a terminal.
pub fn hint_at_file(rt: &HostRuntime, what: &str, name: &str) {
    let mut err = rt.stderr();
    if err.is_terminal() {
        let _ = write_of_file(&mut err, what, Some(Word(name)));
    }
}

/// Says which name no chain has, where standard error is a terminal.
pub fn hint_at_chain(rt: &HostRuntime, name: &str) {
    let mut err = rt.stderr();
    if err.is_terminal() {
        let _ = writeln!(err, "no chain has this name: {}", Word(name));
    }
}

/// The line beside that of a fault.
fn write_hint(out: &mut impl Write, said: &Said, fault: &Fault) -> io::Result<()> {
    match fault {
        Fault::InstanceText(_) => write_explained(out, said.instance, None, None),
        Fault::PlanText(_) | Fault::Plan(_) | Fault::StatedDelay(_) => {
            write_explained(out, said.instance, said.plan, None)
        }
        Fault::CertificateText(_) | Fault::Certificate(_) => {
            write_explained(out, said.instance, None, said.certificate)
        }
        Fault::Unread(source) => write_of_file(out, "can't be opened or read", said.file(*source)),
        Fault::TooLong(source) => write_of_file(out, "has too many bytes", said.file(*source)),
        Fault::DeepCertificate(line) => writeln!(
            out,
            "a search below the branch on line {line} could come to more branches, one below another, than a certificate may have"
        ),
        Fault::LossForm(index) => writeln!(
            out,
            "a lost frame is ROUND/SLOT/NODE, three numbers from 0, or ROUND/SLOT/* for all receivers, and this is neither: {}",
            said.word(*index)
        ),
        Fault::WrongLoss(index) => writeln!(
            out,
            "no such frame is received: the slot is outside the cycle, or the node isn't there or is the sender: {}",
            said.word(*index)
        ),
        Fault::NoSuchProcess(index) | Fault::NoSuchRunner(index) if said.is_repeated(*index) => {
            writeln!(out, "this process is named before: {}", said.word(*index))
        }
        Fault::NoSuchProcess(index) | Fault::NoSuchRunner(index) => {
            writeln!(out, "no process has this name: {}", said.word(*index))
        }
        Fault::TooManySlots(slots) => writeln!(
            out,
            "a picture of each slot of the cycle would show {slots} of them, more than 100000; {USED} leaves out those that carry nothing"
        ),
        Fault::LongSchedule(slots) => writeln!(
            out,
            "this text would tell {slots} slots, more than 100000; of one node's loads it tells fewer"
        ),
        Fault::NoSuchNode => writeln!(out, "no node has this name"),
        Fault::ShortPeriod(rounds) => writeln!(
            out,
            "the plan's cycle has {} rounds, and the period holds {} whole ones",
            rounds.needed, rounds.held
        ),
        Fault::ShortTables(rounds) => writeln!(
            out,
            "the plan's cycle has {} rounds, and tables of {} would lack some",
            rounds.needed, rounds.held
        ),
        Fault::LongTables(slots) => writeln!(
            out,
            "so many rounds have {slots} slots, and tables have 1000000 at most"
        ),
        Fault::TooFewNodes => writeln!(out, "membership is defined for three nodes or more"),
        Fault::NoMark => writeln!(
            out,
            "without words an instance, a line %% and a plan are read from standard input; the commands: ttplan --help"
        ),
        Fault::Memory | Fault::Search(_) | Fault::Unwritten(_) => Ok(()),
    }
}

/// What is wrong with a file, and its name; without one it is standard input.
fn write_of_file(out: &mut impl Write, what: &str, name: Option<Word<'_>>) -> io::Result<()> {
    match name {
        Some(name) => writeln!(out, "this file {what}: {name}"),
        None => writeln!(out, "standard input {what}"),
    }
}

/// The command that explains why a file is refused, where all its files are named.
fn write_explained(
    out: &mut impl Write,
    instance: Option<&str>,
    plan: Option<&str>,
    certificate: Option<&str>,
) -> io::Result<()> {
    let Some(instance) = instance else {
        return Ok(());
    };
    write!(out, "what is wrong: ttplan explain {}", Word(instance))?;
    if let Some(plan) = plan {
        write!(out, " {}", Word(plan))?;
    }
    if let Some(certificate) = certificate {
        write!(out, " --{} {}", EXPLAINED_CERT.name, Word(certificate))?;
    }
    writeln!(out)
}
