//! Where do the lines of a text come from?

ghost use Rattle.std.specs.Prelude.{◌≡◌, ◌+◌, ℕ, List, [], IfErr, OnOk};
ghost use Rattle.certificate.specs.declared.fault.SourceFault.{SourceFault};
ghost use Rattle.certificate.specs.Reading.{line_at, end_at};
ghost use Rattle.certificate.specs.Sources.{Origin, Says, HasText, IsFaultOn};

use crate::fault::SourceFault;

/// The lines of a text, one after another.
pub trait LineSource {
    /// What may be left of the text, from the next line on.
    ghost may_leave: { Self → List ℕ → Type 0 };

    /// How many lines were passed.
    ghost passed: { Self → ℕ };

    /// The line that was passed last, without its end.
    ghost line: { Self → List ℕ };

    /// Why it stops before the text ends.
    ghost may_stop: { Self → SourceFault → Type 0 };

    /// Which reader its lines come from, and which bytes that had at first.
    ghost may_be_from: { Self → Origin → Type 0 };

    /// Passes a line. A text that ends before the line does is at fault there.
    fn next_line(&mut self) -> Result<(), SourceFault>
        ensures said { OnOk result (Says (may_leave self.old) (may_leave self.new) (line_at (passed self.old + 1)) (line self.new)) }
        ensures has { OnOk result (HasText (may_leave self.new)) }
        ensures passed { OnOk result (passed self.new ≡ passed self.old + 1) }
        ensures err { IfErr result (IsFaultOn (may_stop self.new) (may_leave self.old) (line_at (passed self.old + 1))) }
        ensures from { (origin : Origin) → may_be_from self.old origin → may_be_from self.new origin };

    /// The line that was passed last, without its end.
    fn line(&self) -> &[u8]
        ensures { result.now ≡ line self.now };

    /// The number of the next line.
    fn number(&self) -> u64
        ensures { result ≡ passed self.now + 1 };

    /// Passes the end of the text. A text that goes on is at fault there.
    fn end(&mut self) -> Result<(), SourceFault>
        ensures end { OnOk result (may_leave self.old []) }
        ensures err { IfErr result (IsFaultOn (may_stop self.new) (may_leave self.old) (end_at (passed self.old + 1))) }
        ensures from { (origin : Origin) → may_be_from self.old origin → may_be_from self.new origin };
}
