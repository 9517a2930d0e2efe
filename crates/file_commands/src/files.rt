//! Which files has a command that searches, and is one that it writes another one of them?

use crate::hints::{Said, told};
use crate::judging::refused;
use command_line::{Asks, Question, Search, refuse, written_over};
use command_streams::{End, Fault, Sink, Source};
use explain_command::CommandLines;
use std::fs::{self, File, OpenOptions};
use std::io;
use std::os::unix::fs::{FileTypeExt, MetadataExt};

/// A command that searches, and the names of its files.
#[derive(Clone, Copy)]
pub struct Named<'a> {
    command: Asks,
    instance: &'a str,
    start: Option<&'a str>,
    from: Option<&'a str>,
    certificate: Option<&'a str>,
    reduced: Option<&'a str>,
    kept: Option<&'a str>,
}

/// The file of the certificate from which a search goes on, where it does.
pub fn from_of<'a>(search: &Search<'a>) -> Option<&'a str> {
    match search.from {
        Some(onward) => Some(onward.certificate),
        None => None,
    }
}

impl<'a> Named<'a> {
    /// The names in a request of `solve`.
    pub fn of_search(search: &Search<'a>) -> Self {
        Named {
            command: Asks::Solve,
            instance: search.instance,
            start: search.start,
            from: from_of(search),
            certificate: search.certificate,
            reduced: None,
            kept: search.kept,
        }
    }

    /// The names in a question of this command.
    pub fn of_question(command: Asks, question: &Question<'a>) -> Self {
        Named {
            command,
            instance: question.instance,
            start: None,
            from: None,
            certificate: question.certificate,
            reduced: question.reduced,
            kept: None,
        }
    }
}

/// Why a command can't have its files.
#[derive(Clone, Copy)]
pub enum FileFault<'a> {
    /// When this one can't be opened.
    Unread(Source),
    /// When this one can't be made.
    Unwritten(Sink),
    /// When this one, by this name, is one that is read, as which it is told, or another one that is written.
    Overwriting(Asks, Sink, &'a str, Option<Source>),
    /// When memory was wanted, and refused.
    Memory,
}

impl FileFault<'_> {
    /// Says it on standard error, and by an object where a command answers by one, and gives the status.
    pub fn tell(&self, rt: &HostRuntime, said: &Said, as_json: Option<&CommandLines>) -> u8 {
        let fault = match self {
            FileFault::Unread(source) => Fault::Unread(*source),
            FileFault::Unwritten(sink) => Fault::Unwritten(*sink),
            FileFault::Overwriting(command, sink, file, over) => {
                let error = written_over(rt.alloc(), *command, *sink, file, *over);
                return refuse(&error, &mut rt.stderr());
            }
            FileFault::Memory => Fault::Memory,
        };
        told(rt, &refused(rt, as_json, End::Refused(fault)), said)
    }
}

/// A file that is written.
#[derive(Drop)]
pub struct Made<'a> {
    pub file: File,
    pub name: &'a str,
    /// Whether it wasn't there before.
    is_new: bool,
}

/// What is written beside an answer: to a file, or nowhere.
#[derive(Drop)]
pub struct Sheet(pub Option<File>);

impl io::Write for Sheet {
    fn write(&mut self, buf: &[u8]) -> io::Result<usize> {
        match &mut self.0 {
            Some(file) => file.write(buf),
            None => Ok(buf.len()),
        }
    }

    fn flush(&mut self) -> io::Result<()> {
        match &mut self.0 {
            Some(file) => file.flush(),
            None => Ok(()),
        }
    }
}

/// The file itself, where one is written.
pub fn file_of(made: Option<Made<'_>>) -> Option<File> {
    match made {
        Some(made) => Some(made.file),
        None => None,
    }
}

/// The files of a command that searches: those that it reads are open, and those that it writes are empty.
#[derive(Drop)]
pub struct Files {
    pub instance: File,
    pub start: Option<File>,
    /// The certificate from which it goes on, if it does.
    pub from: Option<File>,
    pub certificate: Option<File>,
    pub reduced: Option<File>,
    /// The file in which the best plan so far is kept, where it is there: a plan that stands in it is read.
    pub kept: Option<File>,
}

impl Files {
    /// Opens what a command reads, in the order of its words, then makes what it writes, and then empties that. No file that was there is
    /// emptied before it is known that none of these is another one of the command, by whatever name, way or link.
    pub fn open<'a>(rt: &HostRuntime, named: &Named<'a>) -> Result<Self, FileFault<'a>> {
        let opened = Opened::of(rt, named)?;
        opened.emptied(rt, named)?;
        Ok(opened.files())
    }
}

/// The files that a command reads.
#[derive(Drop)]
pub struct Sources {
    pub instance: File,
    pub start: Option<File>,
    /// Those that are joined, or that from which a search goes on, if it does.
    pub certificates: Vec<File>,
}

impl Sources {
    /// Opens those of a command that searches, in the order of the words.
    fn of<'a>(rt: &HostRuntime, named: &Named<'a>) -> Result<Self, FileFault<'a>> {
        let instance = file_to_read(rt, Source::Instance, named.instance)?;
        let start = file_if_any(rt, Source::Plan, named.start)?;
        let from = file_if_any(rt, Source::Certificate, named.from)?;
        let mut certificates = Vec::new(rt.alloc());
        if let Some(file) = from {
            if certificates.push(file).is_err() {
                return Err(FileFault::Memory);
            }
        }
        Ok(Sources {
            instance,
            start,
            certificates,
        })
    }

    /// Whether a file is one of the certificates.
    fn is_certificate(&self, file: &File) -> bool {
        self.certificates.iter().any(|other| is_one(other, file))
    }

    /// As what a file is read, where it is.
    fn read_as(&self, file: &File) -> Option<Source> {
        if is_one(&self.instance, file) {
            return Some(Source::Instance);
        }
        if self.is_certificate(file) {
            return Some(Source::Certificate);
        }
        match &self.start {
            Some(start) if is_one(start, file) => Some(Source::Plan),
            _ => None,
        }
    }

    /// Why the file of a certificate is one that is read, where it is.
    pub fn fault_of_certificate<'a>(
        &self,
        command: Asks,
        made: &Option<Made<'a>>,
    ) -> Option<FileFault<'a>> {
        let made = made.as_ref()?;
        let over = self.read_as(&made.file)?;
        Some(FileFault::Overwriting(command, Sink::Certificate, made.name, Some(over)))
    }
}

/// The files that a command writes beside its answer, which hold what they held.
#[derive(Drop)]
struct Sheets<'a> {
    certificate: Option<Made<'a>>,
    reduced: Option<Made<'a>>,
}

impl<'a> Sheets<'a> {
    /// Makes them where they aren't there.
    fn of(rt: &HostRuntime, named: &Named<'a>) -> Result<Self, FileFault<'a>> {
        let certificate = file_to_write(rt, Sink::Certificate, named.certificate)?;
        let reduced = file_to_write(rt, Sink::Reduced, named.reduced)?;
        Ok(Sheets {
            certificate,
            reduced,
        })
    }

    /// Whether a file is the certificate's.
    fn is_certificate(&self, file: &File) -> bool {
        match &self.certificate {
            Some(made) => is_one(&made.file, file),
            None => false,
        }
    }

    /// Takes those away that weren't there before.
    fn take_back(&self, rt: &HostRuntime) {
        take_back(rt, &self.certificate);
        take_back(rt, &self.reduced);
    }

    /// Empties them.
    fn empty(&self) -> Result<(), FileFault<'a>> {
        empty(Sink::Certificate, &self.certificate)?;
        empty(Sink::Reduced, &self.reduced)
    }
}

/// All files of a command.
#[derive(Drop)]
struct Opened<'a> {
    sources: Sources,
    sheets: Sheets<'a>,
    kept: Option<File>,
}

impl<'a> Opened<'a> {
    /// Opens what a command reads, in the order of its words, and then what it writes, which is made where it isn't there.
    fn of(rt: &HostRuntime, named: &Named<'a>) -> Result<Self, FileFault<'a>> {
        let sources = Sources::of(rt, named)?;
        let sheets = Sheets::of(rt, named)?;
        let kept = kept(rt, named.kept)?;
        Ok(Opened {
            sources,
            sheets,
            kept,
        })
    }

    /// Empties what is written, once it is known that none of it is another file of the command.
    fn emptied(&self, rt: &HostRuntime, named: &Named<'a>) -> Result<(), FileFault<'a>> {
        match self.fault(named) {
            Some(fault) => {
                self.sheets.take_back(rt);
                Err(fault)
            }
            None => self.sheets.empty(),
        }
    }

    /// The files themselves.
    fn files(self) -> Files {
        let Sources {
            instance,
            start,
            mut certificates,
        } = self.sources;
        Files {
            instance,
            start,
            from: certificates.pop(),
            certificate: file_of(self.sheets.certificate),
            reduced: file_of(self.sheets.reduced),
            kept: self.kept,
        }
    }

    /// Why a file that is written is another one of the command, where one is.
    fn fault(&self, named: &Named<'a>) -> Option<FileFault<'a>> {
        let certificate = &self.sheets.certificate;
        if let Some(fault) = self
            .sources
            .fault_of_certificate(named.command, certificate)
        {
            return Some(fault);
        }
        if let Some(fault) = self.fault_of_reduced(named.command) {
            return Some(fault);
        }
        match (named.kept, &self.kept) {
            (Some(name), Some(file)) if self.is_spoilt(file) => {
                Some(FileFault::Overwriting(named.command, Sink::Plan, name, None))
            }
            _ => None,
        }
    }

    /// The same of the file of the instance beside the answer.
    fn fault_of_reduced(&self, command: Asks) -> Option<FileFault<'a>> {
        let made = self.sheets.reduced.as_ref()?;
        let over = self.sources.read_as(&made.file);
        if over.is_none() && !self.sheets.is_certificate(&made.file) {
            return None;
        }
        Some(FileFault::Overwriting(command, Sink::Reduced, made.name, over))
    }

    /// Whether a plan that is kept in a file would take the place of the instance or of a certificate.
    fn is_spoilt(&self, file: &File) -> bool {
        is_one(&self.sources.instance, file)
            || self.sources.is_certificate(file)
            || self.sheets.is_certificate(file)
    }
}

/// Whether two files are one, by the device and the number that the system knows each by. A terminal isn't emptied, nor is a device that
/// is like one, so two of its names may be used.
fn is_one(a: &File, b: &File) -> bool {
    match (a.metadata(), b.metadata()) {
        (Ok(a), Ok(b)) => {
            !a.file_type().is_char_device() && a.dev() == b.dev() && a.ino() == b.ino()
        }
        _ => false,
    }
}

/// The file in which the best plan so far is to be kept, as it is there: only a plain file is replaced.
fn kept<'a>(rt: &HostRuntime, name: Option<&str>) -> Result<Option<File>, FileFault<'a>> {
    let Some(name) = name else {
        return Ok(None);
    };
    let found = match fs::metadata(rt, name) {
        Ok(found) if found.is_file() => File::open(rt, name),
        Ok(_) => Err(io::ErrorKind::InvalidInput.into()),
        Err(error) if error.kind() == io::ErrorKind::NotFound => return Ok(None),
        Err(error) => Err(error),
    };
    match found {
        Ok(file) => Ok(Some(file)),
        Err(_) => Err(FileFault::Unwritten(Sink::Plan)),
    }
}

/// The file of this name, opened to be read.
pub fn file_to_read<'a>(
    rt: &HostRuntime,
    source: Source,
    name: &str,
) -> Result<File, FileFault<'a>> {
    match File::open(rt, name) {
        Ok(file) => Ok(file),
        Err(_) => Err(FileFault::Unread(source)),
    }
}

/// The file that an option names, opened to be read, where one is named.
fn file_if_any<'a>(
    rt: &HostRuntime,
    source: Source,
    name: Option<&str>,
) -> Result<Option<File>, FileFault<'a>> {
    let Some(name) = name else {
        return Ok(None);
    };
    let file = file_to_read(rt, source, name)?;
    Ok(Some(file))
}

/// The file that an option names, opened to be written: where it is there, as it is.
pub fn file_to_write<'a>(
    rt: &HostRuntime,
    sink: Sink,
    name: Option<&'a str>,
) -> Result<Option<Made<'a>>, FileFault<'a>> {
    let Some(name) = name else {
        return Ok(None);
    };
    if let Ok(file) = File::create_new(rt, name) {
        let is_new = true;
        return Ok(Some(Made { file, name, is_new }));
    }
    let mut options = OpenOptions::new();
    match options.write(true).create(true).open(rt, name) {
        Ok(file) => {
            let is_new = false;
            Ok(Some(Made { file, name, is_new }))
        }
        Err(_) => Err(FileFault::Unwritten(sink)),
    }
}

/// Takes a file away that wasn't there before.
pub fn take_back(rt: &HostRuntime, made: &Option<Made<'_>>) {
    if let Some(made) = made {
        if made.is_new {
            let _ = fs::remove_file(rt, made.name);
        }
    }
}

/// Empties a file; a pipe and a device hold nothing.
pub fn empty<'a>(sink: Sink, made: &Option<Made<'a>>) -> Result<(), FileFault<'a>> {
    let Some(made) = made else {
        return Ok(());
    };
    let is_plain = match made.file.metadata() {
        Ok(found) => found.is_file(),
        Err(_) => false,
    };
    if is_plain && made.file.set_len(0).is_err() {
        return Err(FileFault::Unwritten(sink));
    }
    Ok(())
}
