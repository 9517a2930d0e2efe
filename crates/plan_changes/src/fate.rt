//! What becomes of a node from one release to the next?

ghost use Rattle.std.specs.Prelude.{◌≡◌, ◌++◌, OnOk};
ghost use Rattle.plan_changes.specs.Units.{fate_line, fate_word};

use line_text::push_word;
use std::alloc::AllocError;

/// What becomes of a node.
#[derive(Clone, Copy, PartialEq, Eq)]
pub enum Fate {
    /// Its table and the windows of its slots are the same, byte for byte, and so is what its dispatcher is told of its processes.
    Same,
    /// They aren't.
    Changed,
    /// Only the new release has it.
    New,
    /// Only the old one has.
    Gone,
}

/// The word for it.
fn fate_word(fate: Fate) -> &'static [u8]
    ensures { result.now ≡ fate_word fate }
{
    match fate {
        Fate::Same => b"same",
        Fate::Changed => b"changed",
        Fate::New => b"new",
        Fate::Gone => b"gone",
    }
}

/// Adds the line of a node.
#[tactic(auto, unfolding(crate::specs::Units::fate_line))]
pub fn push_fate(text: &mut Vec<u8>, fate: Fate, name: &[u8]) -> Result<(), AllocError>
    ensures { OnOk result (text.new.items ≡ text.old.items ++ fate_line fate name.now) }
{
    text.extend_from_slice(fate_word(fate))?;
    push_word(text, name)?;
    text.push(b'\n')?;
    Ok(())
}
