//! Which key of a table isn't known?

ghost use Rattle.std.specs.Prelude.{◌≡◌, option_map};
ghost use Rattle.toml.specs.View.{table_view};
ghost use Rattle.instance_text.specs.Tables.{has_key};
ghost use Rattle.instance_reasons.specs.Unknown.{first_unknown, unknown_key};

use crate::tables::table_at;
use instance_text::{Key, Place, has_key, keys_at};
use toml::Table;

/// The first key of a table, in byte order, that isn't one of these.
fn first_unknown<'a>(table: &'a Table, keys: &[Key]) -> Option<&'a str>
    ensures { option_map (λ s. s.now) result ≡ first_unknown (has_key keys.now) (table_view table.now) }
{
    for text in table.keys() {
        if !has_key(keys, text.as_str()) {
            return Some(text.as_str());
        }
    }
    None
}

/// That of the table at a place.
pub fn unknown_key<'a>(table: &'a Table, place: Place) -> Option<&'a str>
    ensures { option_map (λ s. s.now) result ≡ unknown_key place (table_view table.now) }
{
    first_unknown(table_at(table, place)?, keys_at(place))
}
