//! How does a text in a plan's place begin: as a plan, or as what a search printed that says more or found no plan?

ghost use Rattle.std.specs.Prelude.{◌≡◌, ◌↔◌, IsTrue, MatchOption};
ghost use Rattle.plan_commands.specs.Fronts.{AreBounds, AreStopped, BeginsWith, IsAnswerLine, IsBestWord, IsEnd, IsNumber, IsWhyWord, no_plan_text};
ghost use Rattle.plan_commands.specs.declared.front.Front.{Front};

use line_text::{NumberWord, after_keyword, cut, number_word};

/// How a text in a plan's place begins.
#[derive(Clone, Copy, PartialEq, Eq)]
pub enum Front {
    /// As a plan does.
    Plan,
    /// With the line of a search that found a plan, which stands behind it.
    Headed,
    /// With the line of a search that was stopped before it found one.
    Bare,
    /// With the word that no plan is valid.
    NoPlan,
}

/// Whether a word says why a search stopped.
fn is_why(word: &[u8]) -> bool
    ensures { IsTrue result ↔ IsWhyWord word.now }
{
    word == b"budget".as_slice()
        || word == b"memory".as_slice()
        || word == b"until".as_slice()
        || word == b"time".as_slice()
        || word == b"gap".as_slice()
        || word == b"part".as_slice()
}

/// Whether a word is a number that fits.
fn is_number(word: &[u8]) -> bool
    ensures { IsTrue result ↔ IsNumber word.now }
{
    matches!(number_word(word), NumberWord::Number(_))
}

/// What follows of the word for the best that is known, where it is one.
fn front_of_best(word: &[u8]) -> Option<Front>
    ensures { MatchOption result ((front : Front) → ¬ IsBestWord front word.now) (λ front. IsBestWord front word.now) }
{
    if word == b"none".as_slice() {
        Some(Front::Bare)
    } else if is_number(word) {
        Some(Front::Headed)
    } else {
        None
    }
}

/// What follows of a tick by which processes end, where the word is one.
fn front_of_end(word: &[u8]) -> Option<Front>
    ensures { MatchOption result ((front : Front) → ¬ IsEnd word.now front) (IsEnd word.now) }
{
    if is_number(word) {
        Some(Front::Headed)
    } else {
        None
    }
}

/// What follows of a bound and the best that is known.
fn front_of_bounds(words: &[u8]) -> Option<Front>
    ensures { MatchOption result ((front : Front) → ¬ AreBounds words.now front) (AreBounds words.now) }
{
    let (low, best) = cut(b' ', words)?;
    if is_number(low) {
        front_of_best(best)
    } else {
        None
    }
}

/// What follows of the words of a search that was stopped.
fn front_of_stopped(words: &[u8]) -> Option<Front>
    ensures { MatchOption result ((front : Front) → ¬ AreStopped words.now front) (AreStopped words.now) }
{
    let (why, rest) = cut(b' ', words)?;
    if is_why(why) {
        front_of_bounds(rest)
    } else {
        None
    }
}

/// What follows of a line that is printed in front of a plan, where it is one. The line's end isn't part of it.
fn front_of_line(line: &[u8]) -> Option<Front>
    ensures { MatchOption result ((front : Front) → ¬ IsAnswerLine line.now front) (IsAnswerLine line.now) }
{
    if let Some(words) = after_keyword(b"stopped ", line) {
        return front_of_stopped(words);
    }
    if let Some(words) = after_keyword(b"between ", line) {
        return front_of_bounds(words);
    }
    let word = after_keyword(b"limit ", line)?;
    front_of_end(word)
}

/// Whether bytes say that no plan is valid.
fn is_no_plan(bytes: &[u8]) -> bool
    ensures { IsTrue result ↔ (bytes.now ≡ no_plan_text) }
{
    bytes == b"none\n".as_slice()
}

/// How the bytes in a plan's place begin, and what stands behind that: for a plan all of them.
pub fn front_of(bytes: &[u8]) -> (Front, &[u8])
    ensures { BeginsWith bytes.now result.0 result.1.now }
{
    if is_no_plan(bytes) {
        let (_, rest) = bytes.split_at(bytes.len());
        return (Front::NoPlan, rest);
    }
    let Some((line, rest)) = cut(b'\n', bytes) else {
        return (Front::Plan, bytes);
    };
    match front_of_line(line) {
        Some(front) => (front, rest),
        None => (Front::Plan, bytes),
    }
}
