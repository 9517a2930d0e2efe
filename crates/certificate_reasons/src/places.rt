//! Which kind of line has to stand at a place of a certificate's text?

ghost use Rattle.std.specs.Prelude.{◌≡◌, ◌-◌, take};
ghost use Rattle.certificate_reasons.specs.Places.{awaited_at, steps_due, steps_named, due_behind};
ghost use Rattle.line_text.specs.TextLines.{text_lines};

use line_text::{NumberWord, after_keyword, cut, number_word};

/// What has to stand in a line.
#[derive(Clone, Copy, PartialEq, Eq)]
pub enum LinePlace {
    /// The version.
    First,
    /// The bound.
    Low,
    /// A node.
    Node,
    /// A step of a leaf.
    Step,
}

/// How many steps a line says that follow it.
fn steps_named(line: &[u8]) -> u32
    ensures { result ≡ steps_named line.now }
{
    let Some(numbers) = after_keyword(b"leaf ", line) else {
        return 0;
    };
    let Some((_, count)) = cut(b' ', numbers) else {
        return 0;
    };
    match number_word(count) {
        NumberWord::Number(steps) => steps,
        NumberWord::Malformed | NumberWord::TooLarge => 0,
    }
}

/// How many steps are due behind a line, where so many were due in front of it.
fn due_behind(due: u32, line: &[u8]) -> u32
    ensures { result ≡ due_behind due line.now }
{
    if due == 0 { steps_named(line) } else { due - 1 }
}

/// How many steps are due in the line of this number.
fn steps_due(text: &[u8], number: u64) -> u32
    ensures { result ≡ steps_due (take (number - 1) (text_lines text.now)) }
{
    let before = number.saturating_sub(1) as usize;
    text.split(|byte| *byte == b'\n')
        .take(before)
        .fold(0, |due, line| due_behind(due, line))
}

/// What has to stand in the line of this number, from 1, of a text whose lines before it are right.
pub fn awaited_at(text: &[u8], number: u64) -> LinePlace
    ensures { result ≡ awaited_at text.now number }
{
    if number == 1 {
        return LinePlace::First;
    }
    if number == 2 {
        return LinePlace::Low;
    }
    if steps_due(text, number) == 0 {
        LinePlace::Node
    } else {
        LinePlace::Step
    }
}
