//! What one value of a text states.

ghost use Rattle.std.specs.Prelude.{◌≡◌, IfOk, IfErr};
ghost use Rattle.toml.specs.View.{table_view, view};
ghost use Rattle.rates_text.specs.Kinds.{table_of, tables_in, number_of, truth_of, bytes_of, index_of, indices_of};
ghost use Rattle.rates_text.specs.Faults.{IsFaultOfPart};
ghost use Rattle.rates_text.specs.Index.{index_by};
ghost use Rattle.rates_text.specs.Views.{table_views};

use crate::error::{RatesKey, RatesTable, RatesTextError};
use crate::names::RatesNames;
use std::alloc::Global;
use toml::{Table, Value};
use ttp_model::{Name, Numbers};

/// A table.
pub fn table<'a>(
    value: &'a Value,
    place: RatesTable,
    key: RatesKey,
) -> Result<&'a Table, RatesTextError>
    ensures ok { IfOk result (λ t. table_of place key (view value.now) ≡ Ok (table_view t.now)) }
    ensures err { IfErr result (λ e. table_of place key (view value.now) ≡ Err e) }
{
    value
        .as_table()
        .ok_or(RatesTextError::WrongKind { place, key })
}

/// An array of tables.
pub fn tables<'a>(
    alloc: Global,
    value: &'a Value,
    place: RatesTable,
    key: RatesKey,
) -> Result<Vec<&'a Table>, RatesTextError>
    ensures ok { IfOk result (λ ts. tables_in place key (view value.now)
        ≡ Ok (table_views ts.items)) }
    ensures err { IfErr result (IsFaultOfPart (tables_in place key (view value.now))) }
{
    let Some(items) = value.as_array() else {
        return Err(RatesTextError::WrongKind { place, key });
    };
    let mut tables = Vec::new(alloc);
    for item in items {
        tables.push(table(item, place, key)?)?;
    }
    Ok(tables)
}

/// A whole number that fits.
pub fn number(value: &Value, place: RatesTable, key: RatesKey) -> Result<u32, RatesTextError>
    ensures { result ≡ number_of place key (view value.now) }
{
    match value.as_integer() {
        None => Err(RatesTextError::WrongKind { place, key }),
        Some(z) => u32::try_from(z).map_err(|_| RatesTextError::OutOfRange { place, key }),
    }
}

/// True or false.
pub fn truth(value: &Value, place: RatesTable, key: RatesKey) -> Result<bool, RatesTextError>
    ensures { result ≡ truth_of place key (view value.now) }
{
    match value.as_bool() {
        None => Err(RatesTextError::WrongKind { place, key }),
        Some(truth) => Ok(truth),
    }
}

/// A text, as a name.
pub fn name(
    alloc: Global,
    value: &Value,
    place: RatesTable,
    key: RatesKey,
) -> Result<Name, RatesTextError>
    ensures ok { IfOk result (λ name. bytes_of place key (view value.now) ≡ Ok name) }
    ensures err { IfErr result (IsFaultOfPart (bytes_of place key (view value.now))) }
{
    let Some(text) = value.as_str() else {
        return Err(RatesTextError::WrongKind { place, key });
    };
    Ok(Name::new(String::from_str(alloc, text)?))
}

/// The index of what a text names.
pub fn index(
    value: &Value,
    place: RatesTable,
    key: RatesKey,
    names: &RatesNames,
) -> Result<u32, RatesTextError>
    ensures { result ≡ index_of place key (index_by names.now) (view value.now) }
{
    let Some(text) = value.as_str() else {
        return Err(RatesTextError::WrongKind { place, key });
    };
    names
        .index_of(text)
        .ok_or(RatesTextError::UnknownName { place, key })
}

/// The indices of what the texts of an array name.
pub fn indices(
    alloc: Global,
    value: &Value,
    place: RatesTable,
    key: RatesKey,
    names: &RatesNames,
) -> Result<Numbers, RatesTextError>
    ensures ok { IfOk result (λ ns. indices_of place key (index_by names.now)
        (view value.now) ≡ Ok ns) }
    ensures err { IfErr result (IsFaultOfPart (indices_of place key (index_by names.now)
        (view value.now))) }
{
    let Some(items) = value.as_array() else {
        return Err(RatesTextError::WrongKind { place, key });
    };
    let mut indices = Vec::new(alloc);
    for item in items {
        indices.push(index(item, place, key, names)?)?;
    }
    Ok(Numbers::new(indices))
}
