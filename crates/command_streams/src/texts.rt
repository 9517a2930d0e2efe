//! How are an answer and the texts beside it written?

ghost use Rattle.std.specs.Prelude.{◌≡◌};
ghost use Rattle.command_streams.specs.Writing.{IsToldAt, IsWritingOf, bytes_of};

use crate::ending::{End, Fault, Sink};
use crate::output::write_text;
use std::io::Write;

/// What is written: an answer, and beside it what is wanted, each to a writer of its own. What isn't wanted is empty.
#[derive(Drop)]
pub struct Texts {
    pub certificate: Vec<u8>,
    /// The instance that the certificate is for; none where no text of it reads back.
    pub reduced: Option<Vec<u8>>,
    pub answer: Vec<u8>,
}

/// The bytes of a text that there may be.
fn bytes_of(text: &Option<Vec<u8>>) -> &[u8]
    ensures { result.now ≡ bytes_of text.now }
{
    match text {
        Some(text) => text.as_slice(),
        None => &[],
    }
}

/// Writes the certificate, then the instance, and then the answer, and ends at `last`. Where a writer fails nothing is written to those
/// behind it. Where there is no text of the instance that is told by the end, once the answer is written.
#[tactic(auto, using(crate::proofs::WrittenBeside::none_written, crate::proofs::WrittenBeside::part_written, crate::proofs::WrittenBeside::all_written))]
pub fn write_texts<C: Write, S: Write, W: Write>(
    texts: &Texts,
    last: End,
    certificate: &mut C,
    reduced: &mut S,
    out: &mut W,
) -> End
    requires { IsToldAt last }
    ensures { IsWritingOf texts.now last
        (C.contents certificate.old) (C.contents certificate.new) (S.contents reduced.old) (S.contents reduced.new)
        (W.contents out.old) (W.contents out.new) result }
{
    if write_text(certificate, texts.certificate.as_slice()).is_err() {
        return End::Refused(Fault::Unwritten(Sink::Certificate));
    }
    if write_text(reduced, bytes_of(&texts.reduced)).is_err() {
        return End::Refused(Fault::Unwritten(Sink::Reduced));
    }
    if write_text(out, texts.answer.as_slice()).is_err() {
        return End::Refused(Fault::Unwritten(Sink::Out));
    }
    match texts.reduced {
        Some(_) => last,
        None => End::Refused(Fault::Unwritten(Sink::Reduced)),
    }
}
