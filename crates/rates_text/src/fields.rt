//! What a key of a table states.

ghost use Rattle.std.specs.Prelude.{◌≡◌, None, Some, [], IfOk, IfErr, option_map};
ghost use Rattle.toml.specs.Data.{get_member};
ghost use Rattle.toml.specs.View.{table_view, view};
ghost use Rattle.rates_text.specs.Faults.{IsFaultOfPart};
ghost use Rattle.rates_text.specs.Index.{index_by};
ghost use Rattle.rates_text.specs.Keys.{text_of};
ghost use Rattle.rates_text.specs.Kinds.{table_of, tables_in, number_of, some_number_of, truth_of, bytes_of, index_of, indices_of};
ghost use Rattle.rates_text.specs.Tables.{field_of};
ghost use Rattle.rates_text.specs.Views.{table_views};
ghost use Rattle.rates_text.specs.declared.error.RatesTextError.TheVariants.{MissingKey};

use crate::error::{RatesKey, RatesTable, RatesTextError};
use crate::names::RatesNames;
use crate::values;
use std::alloc::Global;
use toml::{Table, Value};
use ttp_model::{Name, Numbers};

/// The value at a key.
fn value<'a>(table: &'a Table, key: RatesKey) -> Option<&'a Value>
    ensures { option_map (λ v. view v.now) result
        ≡ get_member (text_of key) (table_view table.now) }
{
    table.get(key.text())
}

/// The value at a key that has to be there.
fn needed<'a>(
    table: &'a Table,
    place: RatesTable,
    key: RatesKey,
) -> Result<&'a Value, RatesTextError>
    ensures ok { IfOk result (λ v. get_member (text_of key) (table_view table.now)
        ≡ Some (view v.now)) }
    ensures missing { IfErr result (λ _. get_member (text_of key) (table_view table.now) ≡ None) }
    ensures err { IfErr result (λ e. e ≡ MissingKey place key) }
{
    value(table, key).ok_or(RatesTextError::MissingKey { place, key })
}

/// A table that has to be there.
pub fn table<'a>(
    table: &'a Table,
    place: RatesTable,
    key: RatesKey,
) -> Result<&'a Table, RatesTextError>
    ensures ok { IfOk result (λ t. field_of place key (table_of place key) None
        (table_view table.now) ≡ Ok (table_view t.now)) }
    ensures err { IfErr result (λ e. field_of place key (table_of place key) None
        (table_view table.now) ≡ Err e) }
{
    values::table(needed(table, place, key)?, place, key)
}

/// An array of tables that has to be there.
pub fn tables<'a>(
    alloc: Global,
    table: &'a Table,
    place: RatesTable,
    key: RatesKey,
) -> Result<Vec<&'a Table>, RatesTextError>
    ensures ok { IfOk result (λ ts. field_of place key (tables_in place key) None
        (table_view table.now) ≡ Ok (table_views ts.items)) }
    ensures err { IfErr result (IsFaultOfPart (field_of place key (tables_in place key) None
        (table_view table.now))) }
{
    values::tables(alloc, needed(table, place, key)?, place, key)
}

/// An array of tables, or none where it is missing.
pub fn tables_if_any<'a>(
    alloc: Global,
    table: &'a Table,
    place: RatesTable,
    key: RatesKey,
) -> Result<Vec<&'a Table>, RatesTextError>
    ensures ok { IfOk result (λ ts. field_of place key (tables_in place key) (Some [])
        (table_view table.now) ≡ Ok (table_views ts.items)) }
    ensures err { IfErr result (IsFaultOfPart (field_of place key (tables_in place key) (Some [])
        (table_view table.now))) }
{
    match value(table, key) {
        None => Ok(Vec::new(alloc)),
        Some(value) => values::tables(alloc, value, place, key),
    }
}

/// A whole number that has to be there.
pub fn number(table: &Table, place: RatesTable, key: RatesKey) -> Result<u32, RatesTextError>
    ensures { result ≡ field_of place key (number_of place key) None (table_view table.now) }
{
    values::number(needed(table, place, key)?, place, key)
}

/// A whole number, or this one where it is missing.
pub fn number_or(
    table: &Table,
    place: RatesTable,
    key: RatesKey,
    default: u32,
) -> Result<u32, RatesTextError>
    ensures { result ≡ field_of place key (number_of place key) (Some default)
        (table_view table.now) }
{
    match value(table, key) {
        None => Ok(default),
        Some(value) => values::number(value, place, key),
    }
}

/// A whole number, or none where it is missing.
pub fn number_if_any(
    table: &Table,
    place: RatesTable,
    key: RatesKey,
) -> Result<Option<u32>, RatesTextError>
    ensures { result ≡ field_of place key (some_number_of place key) (Some None)
        (table_view table.now) }
{
    match value(table, key) {
        None => Ok(None),
        Some(value) => match values::number(value, place, key) {
            Ok(number) => Ok(Some(number)),
            Err(error) => Err(error),
        },
    }
}

/// True or false, or this one where it is missing.
pub fn truth_or(
    table: &Table,
    place: RatesTable,
    key: RatesKey,
    default: bool,
) -> Result<bool, RatesTextError>
    ensures { result ≡ field_of place key (truth_of place key) (Some default)
        (table_view table.now) }
{
    match value(table, key) {
        None => Ok(default),
        Some(value) => values::truth(value, place, key),
    }
}

/// A name that has to be there.
pub fn name(
    alloc: Global,
    table: &Table,
    place: RatesTable,
    key: RatesKey,
) -> Result<Name, RatesTextError>
    ensures ok { IfOk result (λ name. field_of place key (bytes_of place key) None
        (table_view table.now) ≡ Ok name) }
    ensures err { IfErr result (IsFaultOfPart (field_of place key (bytes_of place key) None
        (table_view table.now))) }
{
    values::name(alloc, needed(table, place, key)?, place, key)
}

/// The index of what a text names that has to be there.
pub fn index(
    table: &Table,
    place: RatesTable,
    key: RatesKey,
    names: &RatesNames,
) -> Result<u32, RatesTextError>
    ensures { result ≡ field_of place key (index_of place key (index_by names.now)) None
        (table_view table.now) }
{
    values::index(needed(table, place, key)?, place, key, names)
}

/// The indices of what an array of texts names that has to be there.
pub fn indices(
    alloc: Global,
    table: &Table,
    place: RatesTable,
    key: RatesKey,
    names: &RatesNames,
) -> Result<Numbers, RatesTextError>
    ensures ok { IfOk result (λ ns. field_of place key
        (indices_of place key (index_by names.now)) None (table_view table.now) ≡ Ok ns) }
    ensures err { IfErr result (IsFaultOfPart (field_of place key
        (indices_of place key (index_by names.now)) None (table_view table.now))) }
{
    values::indices(alloc, needed(table, place, key)?, place, key, names)
}
