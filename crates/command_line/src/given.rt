//! Which values do the words of a command give?

ghost use Rattle.std.specs.Prelude.{◌≡◌, false, IfOk, IfSome};
ghost use Rattle.command_line.specs.Names.{IsOtherFile};
ghost use Rattle.command_line.specs.Rows.{IsIn};

use crate::misuse::Misuse;
use crate::names::name_one_file;
use crate::rows::{Row, Takes};
use crate::words::AnswerForm;
use clap::ArgMatches;
use std::alloc::{AllocError, Global};

/// The words of a command, as `clap` parts them.
#[derive(Clone, Copy)]
pub struct Given<'m, 'a> {
    pub matches: &'m ArgMatches<'a>,
}

/// The forms of an answer.
const FORMS: &[AnswerForm] = &[AnswerForm::Text, AnswerForm::Json];

/// What a form is called.
fn name_of_form(form: AnswerForm) -> &'static str {
    match form {
        AnswerForm::Text => "text",
        AnswerForm::Json => "json",
    }
}

/// The form of a name.
fn form_named(name: &str) -> Option<AnswerForm> {
    for form in FORMS {
        if name_of_form(*form) == name {
            return Some(*form);
        }
    }
    None
}

/// Whether a second word names the same file, where there is one.
pub fn is_named_by(alloc: Global, file: &str, other: Option<&str>) -> Result<bool, AllocError>
    ensures { IfOk result (λ same. same ≡ false → IfSome other.entry (λ name. IsOtherFile file.now name.now)) }
{
    match other {
        Some(other) => name_one_file(alloc, file, other),
        None => Ok(false),
    }
}

/// The number that a word says, which the row takes.
fn number_of<'a>(row: &'static Row, word: &'a str) -> Result<u64, Misuse<'a>>
    ensures { IfOk result (IsIn row.now.takes) }
{
    let Takes::Number(range) = row.takes else {
        return Err(Misuse::Missing);
    };
    match range.read(word) {
        Some(number) => Ok(number),
        None => Err(Misuse::Number(row, range, word)),
    }
}

/// The same of 32 bits.
fn u32_of<'a>(row: &'static Row, word: &'a str) -> Result<u32, Misuse<'a>>
    ensures { IfOk result (IsIn row.now.takes) }
{
    let number = number_of(row, word)?;
    if number > u32::MAX as u64 {
        return Err(Misuse::Missing);
    }
    Ok(number as u32)
}

impl<'m, 'a> Given<'m, 'a> {
    /// Whether a flag is used.
    pub fn flag(self, row: &Row) -> bool {
        self.matches.get_flag(row.name)
    }

    /// The text of a row that need not be given.
    pub fn text_if_any(self, row: &Row) -> Option<&'a str> {
        self.matches.get_str(row.name)
    }

    /// The text of a row.
    pub fn text(self, row: &Row) -> Result<&'a str, Misuse<'a>> {
        match self.text_if_any(row) {
            Some(text) => Ok(text),
            None => Err(Misuse::Missing),
        }
    }

    /// The texts of a row, where there are any.
    pub fn texts(self, row: &Row) -> Option<&'m [&'a str]> {
        self.matches.get_strs(row.name)
    }

    /// The same as a list of its own, empty where there are none.
    pub fn list(self, alloc: Global, row: &Row) -> Result<Vec<&'a str>, AllocError> {
        match self.texts(row) {
            Some(texts) => Vec::from_slice(alloc, texts),
            None => Ok(Vec::new(alloc)),
        }
    }

    /// The number of a row.
    pub fn number(self, row: &'static Row) -> Result<u64, Misuse<'a>>
        ensures { IfOk result (IsIn row.now.takes) }
    {
        match self.text_if_any(row) {
            Some(word) => number_of(row, word),
            None => Err(Misuse::Missing),
        }
    }

    /// The number of a row that need not be given.
    pub fn number_if_any(self, row: &'static Row) -> Result<Option<u64>, Misuse<'a>>
        ensures { IfOk result (λ number. IfSome number (IsIn row.now.takes)) }
    {
        let Some(word) = self.text_if_any(row) else {
            return Ok(None);
        };
        let number = number_of(row, word)?;
        Ok(Some(number))
    }

    /// The number of a row whose range is one of 32 bits.
    pub fn u32(self, row: &'static Row) -> Result<u32, Misuse<'a>>
        ensures { IfOk result (IsIn row.now.takes) }
    {
        match self.text_if_any(row) {
            Some(word) => u32_of(row, word),
            None => Err(Misuse::Missing),
        }
    }

    /// The same of a row that need not be given.
    pub fn u32_if_any(self, row: &'static Row) -> Result<Option<u32>, Misuse<'a>>
        ensures { IfOk result (λ number. IfSome number (IsIn row.now.takes)) }
    {
        let Some(word) = self.text_if_any(row) else {
            return Ok(None);
        };
        let number = u32_of(row, word)?;
        Ok(Some(number))
    }

    /// The form that a row names.
    pub fn form(self, row: &Row) -> Result<AnswerForm, Misuse<'a>> {
        let name = self.text(row)?;
        match form_named(name) {
            Some(form) => Ok(form),
            None => Err(Misuse::Missing),
        }
    }

    /// The name of a file that a row has written, which by its name is neither the instance's nor another one.
    pub fn written(
        self,
        alloc: Global,
        row: &'static Row,
        instance: &str,
        other: Option<&str>,
    ) -> Result<Option<&'a str>, Misuse<'a>>
        ensures instance { IfOk result (λ name. IfSome name (λ file. IsOtherFile file.now instance.now)) }
        ensures other { IfOk result (λ name. IfSome name (λ file. IfSome other.entry (λ one. IsOtherFile file.now one.now))) }
    {
        let Takes::File(written) = row.takes else {
            return Err(Misuse::Missing);
        };
        let Some(file) = self.text_if_any(row) else {
            return Ok(None);
        };
        if name_one_file(alloc, file, instance)? {
            return Err(Misuse::Overwriting(row, written.over_instance, file));
        }
        if is_named_by(alloc, file, other)? {
            return Err(Misuse::Overwriting(row, written.over_other, file));
        }
        Ok(Some(file))
    }
}
