//! Which numbers stand behind a line's keyword?

ghost use Rattle.std.specs.Prelude.{◌≡◌, ◌<◌, length, map, true, IfOk, IfErr, IfSome, MatchOption};
ghost use Rattle.std.specs.List.{list_all};
ghost use Rattle.line_text.specs.Parts.{seen_rest};
ghost use Rattle.certificate.specs.declared.fault.LineFault.TheVariants.{Form};
ghost use Rattle.certificate.specs.Reading.{numbers_of, is_number_word, fits, value_of};
ghost use Rattle.certificate.specs.Numbers.{words_in, numbers_in, words_with};

use crate::fault::{CertTextError, LineFault};
use line_text::{NumberWord, cut, number_word};
use tt_infer::FewNumbers;

/// One to four words, as numbers.
#[derive(Clone, Copy, PartialEq, Eq)]
pub enum FewWords {
    One(NumberWord),
    Two(NumberWord, NumberWord),
    Three(NumberWord, NumberWord, NumberWord),
    Four(NumberWord, NumberWord, NumberWord, NumberWord),
}

/// Whether the word has a number's form.
pub fn is_numeral(word: NumberWord) -> bool
    ensures { result ≡ is_number_word word }
{
    match word {
        NumberWord::Malformed => false,
        _ => true,
    }
}

/// Whether the word is a number that fits.
pub fn fits(word: NumberWord) -> bool
    ensures { result ≡ fits word }
{
    match word {
        NumberWord::Number(_) => true,
        _ => false,
    }
}

/// The number, or 0 where it does not fit.
pub fn value_of(word: NumberWord) -> u32
    ensures { result ≡ value_of word }
{
    match word {
        NumberWord::Number(number) => number,
        _ => 0,
    }
}

/// The first word as a number, and the text behind the space after it, if there is one.
pub fn next_word(text: &[u8]) -> (NumberWord, Option<&[u8]>)
    ensures words { numbers_of text.now ≡ words_with result.0 (seen_rest result.1) }
    ensures shorter { IfSome result.1 (λ more. length more.now < length text.now) }
{
    match cut(b' ', text) {
        None => (number_word(text), None),
        Some((word, more)) => (number_word(word), Some(more)),
    }
}

impl FewWords {
    /// The words of a text, where there are at most four.
    fn of(text: &[u8]) -> Option<FewWords>
        ensures { MatchOption result (4 < length (numbers_of text.now))
            (λ words. numbers_of text.now ≡ words_in words) }
    {
        let (a, more) = next_word(text);
        let Some(text) = more else {
            return Some(FewWords::One(a));
        };
        let (b, more) = next_word(text);
        let Some(text) = more else {
            return Some(FewWords::Two(a, b));
        };
        let (c, more) = next_word(text);
        let Some(text) = more else {
            return Some(FewWords::Three(a, b, c));
        };
        let (d, more) = next_word(text);
        if more.is_some() {
            return None;
        }
        Some(FewWords::Four(a, b, c, d))
    }

    fn are_numerals(self) -> bool
        ensures { result ≡ list_all is_number_word (words_in self) }
    {
        match self {
            FewWords::One(a) => is_numeral(a),
            FewWords::Two(a, b) => is_numeral(a) && is_numeral(b),
            FewWords::Three(a, b, c) => is_numeral(a) && is_numeral(b) && is_numeral(c),
            FewWords::Four(a, b, c, d) => {
                is_numeral(a) && is_numeral(b) && is_numeral(c) && is_numeral(d)
            }
        }
    }

    /// Whether each of the numbers fits.
    pub fn fit(self) -> bool
        ensures { result ≡ list_all fits (words_in self) }
    {
        match self {
            FewWords::One(a) => fits(a),
            FewWords::Two(a, b) => fits(a) && fits(b),
            FewWords::Three(a, b, c) => fits(a) && fits(b) && fits(c),
            FewWords::Four(a, b, c, d) => fits(a) && fits(b) && fits(c) && fits(d),
        }
    }

    /// The numbers, with 0 for each that does not fit.
    pub fn numbers(self) -> FewNumbers
        ensures { numbers_in result ≡ map value_of (words_in self) }
    {
        match self {
            FewWords::One(a) => FewNumbers::One(value_of(a)),
            FewWords::Two(a, b) => FewNumbers::Two(value_of(a), value_of(b)),
            FewWords::Three(a, b, c) => FewNumbers::Three(value_of(a), value_of(b), value_of(c)),
            FewWords::Four(a, b, c, d) => {
                FewNumbers::Four(value_of(a), value_of(b), value_of(c), value_of(d))
            }
        }
    }
}

/// The words behind a keyword in this line: at most four, each with a number's form.
pub fn words_of(line: u64, text: &[u8]) -> Result<FewWords, CertTextError>
    ensures words { IfOk result (λ words. numbers_of text.now ≡ words_in words) }
    ensures numerals { IfOk result (λ _. list_all is_number_word (numbers_of text.now) ≡ true) }
    ensures fault { IfErr result (λ e. e ≡ CertTextError.At line Form) }
    ensures many { IfErr result (λ _. list_all is_number_word (numbers_of text.now) ≡ true →
        4 < length (numbers_of text.now)) }
{
    let Some(words) = FewWords::of(text) else {
        return Err(LineFault::Form.at(line));
    };
    if !words.are_numerals() {
        return Err(LineFault::Form.at(line));
    }
    Ok(words)
}
