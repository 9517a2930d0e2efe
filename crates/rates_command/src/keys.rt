//! Which key of a table isn't known, and what are those called that are?

ghost use Rattle.std.specs.Prelude.{◌≡◌, IfOk, map, option_map};
ghost use Rattle.toml.specs.View.{table_view};
ghost use Rattle.instance_reasons.specs.Unknown.{first_unknown};
ghost use Rattle.rates_text.specs.Keys.{text_of};
ghost use Rattle.rates_text.specs.Tables.{has_key};
ghost use Rattle.rates_command.specs.Texts.{unknown_key};

use crate::tables::table_at;
use rates_text::{RatesKey, RatesTable, has_key, keys_at};
use std::alloc::{AllocError, Global};
use toml::Table;

/// The first key of a table, in byte order, that isn't one of these.
fn first_unknown<'a>(table: &'a Table, keys: &[RatesKey]) -> Option<&'a str>
    ensures { option_map (λ s. s.now) result ≡ first_unknown (has_key keys.now) (table_view table.now) }
{
    for text in table.keys() {
        if !has_key(keys, text.as_str()) {
            return Some(text.as_str());
        }
    }
    None
}

/// That of the table at a place.
pub fn unknown_key<'a>(table: &'a Table, place: RatesTable) -> Option<&'a str>
    ensures { option_map (λ s. s.now) result ≡ unknown_key place (table_view table.now) }
{
    first_unknown(table_at(table, place)?, keys_at(place))
}

/// The names of these keys.
pub fn key_names(alloc: Global, keys: &[RatesKey]) -> Result<Vec<&'static str>, AllocError>
    ensures { IfOk result (λ names. map (λ s. s.now) names.items ≡ map text_of keys.now) }
{
    let mut names = Vec::new(alloc);
    for key in keys {
        names.push(key.text())?;
    }
    Ok(names)
}
