//! What stands in one line of a plan text?

ghost use Rattle.std.specs.Prelude.{◌≡◌};
ghost use Rattle.line_text.specs.Numbers.{number_word};
ghost use Rattle.plan_format.specs.Names.{is_name};
ghost use Rattle.plan_format.specs.Reading.{IsAnswer, line_at, number_of, value_of, named_number, number_at};

use crate::channels::channel_in;
use crate::column::{Column, keyword_of};
use crate::fault::{LineFault, PlanTextError};
use line_text::{NumberWord, after_keyword, cut, number_word};
use ttp_model::is_name;

/// The line in front, and the text behind its end.
pub fn line_of(line: u32, text: &[u8]) -> Result<(&[u8], &[u8]), PlanTextError>
    ensures { IsAnswer ⊥ (λ x. (x.0.now, x.1.now)) result (line_at line text.now) }
{
    cut(b'\n', text).ok_or(LineFault::EarlyEnd.at(line))
}

/// The number that a word of this line is.
pub fn number_in(line: u32, word: &[u8]) -> Result<u32, PlanTextError>
    ensures { IsAnswer ⊥ (λ x. x) result (number_of line (number_word word.now)) }
{
    match number_word(word) {
        NumberWord::Malformed => Err(LineFault::Form.at(line)),
        NumberWord::TooLarge => Err(LineFault::Number.at(line)),
        NumberWord::Number(number) => Ok(number),
    }
}

/// Whether a word has the form of a name.
pub fn has_name_form(word: &[u8]) -> bool
    ensures { result ≡ is_name word.now }
{
    is_name(word)
}

/// The number that the word behind a name is.
fn value_in(line: u32, column: Column, word: &[u8]) -> Result<u32, PlanTextError>
    ensures { IsAnswer ⊥ (λ x. x) result (value_of column line word.now) }
{
    match column {
        Column::Capacity | Column::Start | Column::Round => number_in(line, word),
        Column::Channel => channel_in(line, word),
    }
}

#[tactic(auto, unfolding(crate::specs::Reading::named_number))]
fn named_number(line: u32, column: Column, name: &[u8], text: &[u8]) -> Result<u32, PlanTextError>
    ensures { IsAnswer ⊥ (λ x. x) result (named_number line column name.now text.now) }
{
    let Some(rest) = after_keyword(keyword_of(column), text) else {
        return Err(LineFault::Form.at(line));
    };
    let Some((found, word)) = cut(b' ', rest) else {
        return Err(LineFault::Form.at(line));
    };
    if !has_name_form(found) {
        return Err(LineFault::Form.at(line));
    }
    let number = value_in(line, column, word)?;
    if found != name {
        return Err(LineFault::Name.at(line));
    }
    Ok(number)
}

/// The number in the next line, which must be the one of this name, and the text after the line.
#[tactic(auto, unfolding(crate::specs::Reading::number_at))]
pub fn number_of<'a>(
    line: u32,
    column: Column,
    name: &[u8],
    text: &'a [u8],
) -> Result<(u32, &'a [u8]), PlanTextError>
    ensures { IsAnswer ⊥ (λ x. (x.0, x.1.now)) result (number_at line column name.now text.now) }
{
    let (first, after) = line_of(line, text)?;
    let number = named_number(line, column, name, first)?;
    Ok((number, after))
}
