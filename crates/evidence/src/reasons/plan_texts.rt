//! What is told of a line at fault of a plan's text?

ghost use Rattle.std.specs.Prelude.{◌≡◌, Some, codes, true};
ghost use Rattle.line_text.specs.Parts.{seen_rest};
ghost use Rattle.line_text.specs.TextLines.{numbered_line};
ghost use Rattle.plan_reasons.specs.Orders.{is_stranger};

use plan_format::LineFault;
use plan_reasons::{LineReason, line_reason};
use ttp_model::Instance;

/// The word that is no node is told without the space in front of it.
pub fn stranger_is_told_as_a_word<'a>(instance: &'a Instance, bytes: &'a [u8]) -> LineReason<'a>
    ensures { numbered_line bytes.now 3 ≡ codes "order x" → is_stranger instance.now (codes "x") ≡ true
        → seen_rest result.stranger ≡ Some (codes "x") }
{
    line_reason(instance, bytes, 0, 3, LineFault::Name)
}

/// The line at fault is told, and not the one in front of it.
pub fn line_at_fault_is_told<'a>(instance: &'a Instance, bytes: &'a [u8]) -> LineReason<'a>
    ensures number { result.line ≡ 2 }
    ensures text { numbered_line bytes.now 2 ≡ codes "a" → result.text.now ≡ codes "a" }
{
    line_reason(instance, bytes, 0, 2, LineFault::Form)
}
