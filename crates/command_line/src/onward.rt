//! From which certificate does a search go on, and on which part of it?

ghost use Rattle.std.specs.Prelude.{IfOk, IfSome, OnOk};
ghost use Rattle.command_line.specs.Requests.{IsNotFrom, IsSoundPart};

use crate::given::{Given, is_named_by};
use crate::misuse::Misuse;
use crate::options::{FROM, PART};
use crate::rows::{Range, Row, Takes};
use crate::words::{Continued, Part};
use std::alloc::Global;

/// How many parts there may be.
const COUNTS: Range = Range {
    least: 1,
    most: 1_000_000,
    default: None,
};

/// Which number one may have.
const NUMBERS: Range = Range {
    least: 0,
    most: 999_999,
    default: None,
};

/// The part of this number and this count, where it is one.
fn part_numbered(number: &str, count: &str) -> Option<Part>
    ensures { IfSome result IsSoundPart }
{
    let number = NUMBERS.read(number)?;
    let count = COUNTS.read(count)?;
    if number >= count {
        return None;
    }
    Some(Part {
        number: number as u32,
        count: count as u32,
    })
}

/// The part that a word names by its number, a slash and their count.
fn part_named(word: &str) -> Option<Part>
    ensures { IfSome result IsSoundPart }
{
    let (number, count) = word.split_once('/')?;
    part_numbered(number, count)
}

/// The part that is asked for, where one is.
fn part_of<'a>(given: Given<'_, 'a>) -> Result<Option<Part>, Misuse<'a>>
    ensures { IfOk result (λ part. IfSome part IsSoundPart) }
{
    let Some(word) = given.text_if_any(PART) else {
        return Ok(None);
    };
    match part_named(word) {
        Some(part) => Ok(Some(part)),
        None => Err(Misuse::Unserved(
            PART,
            "two whole numbers with a slash between them are expected, the first below the second, and that at most 1000000",
            word,
        )),
    }
}

/// That no part is asked for.
fn whole<'a>(given: Given<'_, 'a>) -> Result<(), Misuse<'a>> {
    match given.text_if_any(PART) {
        Some(word) => Err(Misuse::Unserved(
            PART,
            "a part is one of the leaves of the certificate that `--from` names",
            word,
        )),
        None => Ok(()),
    }
}

/// From where a search goes on, if it doesn't begin anew.
pub fn onward_of<'a>(given: Given<'_, 'a>) -> Result<Option<Continued<'a>>, Misuse<'a>>
    ensures { IfOk result (λ from. IfSome from (λ from. IfSome from.part IsSoundPart)) }
{
    let Some(certificate) = given.text_if_any(FROM) else {
        whole(given)?;
        return Ok(None);
    };
    let part = part_of(given)?;
    Ok(Some(Continued { certificate, part }))
}

/// That the file which a row has written isn't, by its name, the certificate from which a search goes on.
pub fn apart_from<'a>(
    alloc: Global,
    row: &'static Row,
    file: Option<&'a str>,
    from: &Option<Continued<'a>>,
) -> Result<(), Misuse<'a>>
    ensures { OnOk result (IfSome file.entry (λ file. IfSome from.now (IsNotFrom file.now))) }
{
    let (Some(file), Some(from)) = (file, from) else {
        return Ok(());
    };
    let Takes::File(written) = row.takes else {
        return Err(Misuse::Missing);
    };
    if is_named_by(alloc, file, Some(from.certificate))? {
        return Err(Misuse::Overwriting(row, written.over_other, file));
    }
    Ok(())
}
