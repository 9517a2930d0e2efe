//! What stands in a line of a certificate's text?

ghost use Rattle.certificate_reasons.specs.Lines.{IsCertLine};

use line_text::numbered_line;
use sentences::Word::{Number, Piece};
use sentences::tell;
use std::fmt;

/// A line of a certificate's text.
#[derive(Clone, Copy)]
pub struct CertLine<'a> {
    /// Its number, from 1.
    pub number: u64,
    /// What stands there: nothing where the text ends before it.
    pub text: &'a [u8],
}

/// The line of this number. One pass over the text.
pub fn cert_line(bytes: &[u8], number: u64) -> CertLine<'_>
    ensures { IsCertLine bytes.now number result }
{
    CertLine {
        number,
        text: numbered_line(bytes, number),
    }
}

impl<'a> fmt::Display for CertLine<'a> {
    fn fmt<W: fmt::Write>(&self, f: &mut fmt::Formatter<W>) -> fmt::Result {
        let (number, bytes) = (self.number, self.text);
        if bytes.is_empty() {
            tell(f, "Line {} is empty.\n", &[Number(number)])
        } else {
            tell(f, "Line {} is: {}\n", &[Number(number), Piece(bytes)])
        }
    }
}
