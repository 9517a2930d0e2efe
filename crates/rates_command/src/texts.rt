//! Why does the table of a text state no cluster of several rates?

ghost use Rattle.std.specs.Prelude.{◌≡◌, IfOk};
ghost use Rattle.toml.specs.View.{table_view};
ghost use Rattle.rates_command.specs.Texts.{IsOddKey, IsOddName, IsOfTable, IsRatesTextReason, IsUnfitNumber, IsWrongKind, list_named_at};

use crate::keys::{key_names, unknown_key};
use crate::spots::text_spot;
use crate::tables::value_at;
use crate::wanted::wanted;
use instance_reasons::{
    MissingKey, OddKey, OddName, TextReason, UnfitNumber, WrongKind, found_at, name_of_none,
    names_under, near_key, near_of, number_at,
};
use instance_text::Key;
use rates_text::{RatesKey, RatesTable, RatesTextError, keys_at};
use std::alloc::{AllocError, Global};
use toml::Table;

/// Why a key at a place is refused.
fn odd_key<'a>(alloc: Global, table: &'a Table, place: RatesTable) -> Result<OddKey<'a>, AllocError>
    ensures { IfOk result (IsOddKey (table_view table.now) place) }
{
    let key = unknown_key(table, place);
    let keys = key_names(alloc, keys_at(place))?;
    let near = near_key(alloc, key, keys.as_slice())?;
    Ok(OddKey {
        spot: text_spot(table, place),
        key,
        near,
    })
}

/// Why the kind of the value at a key is refused.
fn wrong_kind<'a>(table: &'a Table, place: RatesTable, key: RatesKey) -> WrongKind<'a>
    ensures { IsWrongKind (table_view table.now) place key result }
{
    let wanted = wanted(place, key);
    WrongKind {
        spot: text_spot(table, place),
        key: key.text(),
        found: found_at(value_at(table, place, key), wanted),
        wanted,
    }
}

/// Why the number at a key is refused.
fn unfit_number<'a>(table: &'a Table, place: RatesTable, key: RatesKey) -> UnfitNumber<'a>
    ensures { IsUnfitNumber (table_view table.now) place key result }
{
    UnfitNumber {
        spot: text_spot(table, place),
        key: key.text(),
        number: number_at(value_at(table, place, key)),
    }
}

/// The list whose entries are named at a place.
fn list_named_at(place: RatesTable) -> Key
    ensures { result ≡ list_named_at place }
{
    match place {
        RatesTable::Of(place) => instance_reasons::list_named_at(place),
        RatesTable::Chain(_) => Key::Process,
    }
}

/// Why a name at a key is refused. Takes memory for the names of the list.
fn odd_name<'a>(
    alloc: Global,
    table: &'a Table,
    place: RatesTable,
    key: RatesKey,
) -> Result<OddName<'a>, AllocError>
    ensures { IfOk result (IsOddName (table_view table.now) place key) }
{
    let list = list_named_at(place);
    let names = names_under(alloc, table, list)?;
    let name = name_of_none(alloc, value_at(table, place, key), names.as_slice())?;
    let near = near_of(alloc, name, names.as_slice())?;
    Ok(OddName {
        spot: text_spot(table, place),
        key: key.text(),
        name,
        list: list.text(),
        near,
    })
}

/// Why a table is refused that has this fault first. Takes memory for names that may be near, and for those that there are.
pub fn rates_text_reason<'a>(
    alloc: Global,
    table: &'a Table,
    fault: RatesTextError,
) -> Result<TextReason<'a>, AllocError>
    requires { IsOfTable fault }
    ensures { IfOk result (IsRatesTextReason (table_view table.now) fault) }
{
    Ok(match fault {
        RatesTextError::UnknownKey { place } => TextReason::OddKey(odd_key(alloc, table, place)?),
        RatesTextError::MissingKey { place, key } => TextReason::MissingKey(MissingKey {
            spot: text_spot(table, place),
            key: key.text(),
        }),
        RatesTextError::WrongKind { place, key } => {
            TextReason::WrongKind(wrong_kind(table, place, key))
        }
        RatesTextError::OutOfRange { place, key } => {
            TextReason::UnfitNumber(unfit_number(table, place, key))
        }
        RatesTextError::UnknownName { place, key } => {
            TextReason::OddName(odd_name(alloc, table, place, key)?)
        }
        RatesTextError::NotToml | RatesTextError::Refused(_) | RatesTextError::OutOfMemory => {
            unreachable!()
        }
    })
}
