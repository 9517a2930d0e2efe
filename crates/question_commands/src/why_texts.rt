//! Which texts are written beside the lines, and how?

ghost use Rattle.std.specs.Prelude.{IfOk, MatchBool};
ghost use Rattle.certificate.specs.Versions.{Allows};
ghost use Rattle.question_commands.specs.Answers.{AreFilesOf, AreFilesWritten, IsReducedCut, IsReducedText, IsReducedWritten};

use crate::certificates::certificate_text;
use command_streams::{End, Fault, Sink, instance_text, write_text};
use instance_variants::with_only;
use plan_questions::Conflict;
use std::alloc::Global;
use std::io::Write;
use ttp_model::{Instance, MemoryFault};

/// What is to be told beside the constraints.
#[derive(Clone, Copy, PartialEq, Eq)]
pub struct Wanted {
    pub certificate: bool,
    /// The instance by the constraints that leave no plan.
    pub reduced: bool,
    /// How many ticks later all would have to end.
    pub late: bool,
}

/// What is written beside the lines, each to a writer of its own; what isn't wanted is empty.
#[derive(Drop)]
pub struct FileTexts {
    pub certificate: Vec<u8>,
    /// None where no text of the instance reads back.
    pub reduced: Option<Vec<u8>>,
}

/// The text of the instance by the constraints that leave no plan; none where no text of it reads back.
fn reduced_text(
    alloc: Global,
    instance: &Instance,
    conflict: &Conflict,
    wanted: bool,
) -> Result<Option<Vec<u8>>, MemoryFault>
    ensures { IfOk result (IsReducedText wanted instance.now conflict.now.kept) }
{
    if wanted {
        let reduced = with_only(alloc, instance, &conflict.kept)?;
        instance_text(alloc, &reduced)
    } else {
        Ok(Some(Vec::new(alloc)))
    }
}

/// Both texts.
pub fn files_of(
    alloc: Global,
    instance: &Instance,
    conflict: &Conflict,
    wanted: Wanted,
) -> Result<FileTexts, MemoryFault>
    requires { Allows conflict.now.cert.version conflict.now.cert.tree }
    ensures { IfOk result (AreFilesOf wanted instance.now conflict.now.kept conflict.now.cert) }
{
    let certificate = certificate_text(alloc, &conflict.cert, wanted.certificate)?;
    let reduced = reduced_text(alloc, instance, conflict, wanted.reduced)?;
    Ok(FileTexts {
        certificate,
        reduced,
    })
}

/// Writes the text of the instance, where there is one.
fn write_reduced<S: Write>(text: &Option<Vec<u8>>, reduced: &mut S) -> bool
    ensures { MatchBool result
        (IsReducedWritten text.now (S.contents reduced.old) (S.contents reduced.new))
        (IsReducedCut text.now (S.contents reduced.old) (S.contents reduced.new)) }
{
    match text {
        Some(text) => write_text(reduced, text.as_slice()).is_ok(),
        None => false,
    }
}

/// Writes both texts, the certificate first, which ends the command.
pub fn write_files<C: Write, S: Write>(
    files: &FileTexts,
    certificate: &mut C,
    reduced: &mut S,
) -> End
    ensures { AreFilesWritten files.now
        (C.contents certificate.old) (C.contents certificate.new) (S.contents reduced.old) (S.contents reduced.new) result }
{
    if write_text(certificate, files.certificate.as_slice()).is_err() {
        return End::Refused(Fault::Unwritten(Sink::Certificate));
    }
    if !write_reduced(&files.reduced, reduced) {
        return End::Refused(Fault::Unwritten(Sink::Reduced));
    }
    End::Absent
}
