//! What of a text stands at a place, and at a key of it?

ghost use Rattle.std.specs.Prelude.{◌≡◌, map, option_map};
ghost use Rattle.toml.specs.Data.{as_str, get_member};
ghost use Rattle.toml.specs.View.{table_view, view};
ghost use Rattle.instance_text.specs.Keys.{text_of};
ghost use Rattle.instance_reasons.specs.Tables.{entry_under, items_found, items_of, name_at, name_in, name_of, name_of_found, table_at, table_under, text_or_none, value_at};

use instance_text::{Key, Place};
use toml::{Table, Value};

/// The value at a key of a table.
fn member<'a>(table: &'a Table, key: Key) -> Option<&'a Value>
    ensures { option_map (λ v. view v.now) result ≡ get_member (text_of key) (table_view table.now) }
{
    table.get(key.text())
}

/// The table at a key.
fn table_under<'a>(table: &'a Table, key: Key) -> Option<&'a Table>
    ensures { option_map (λ t. table_view t.now) result ≡ table_under key (table_view table.now) }
{
    member(table, key)?.as_table()
}

/// The table of an index in the array at a key.
fn entry_under<'a>(table: &'a Table, key: Key, index: usize) -> Option<&'a Table>
    ensures { option_map (λ t. table_view t.now) result ≡ entry_under key index (table_view table.now) }
{
    member(table, key)?.get(index)?.as_table()
}

/// The table at a place.
pub fn table_at<'a>(table: &'a Table, place: Place) -> Option<&'a Table>
    ensures { option_map (λ t. table_view t.now) result ≡ table_at place (table_view table.now) }
{
    match place {
        Place::Top => Some(table),
        Place::Cluster => table_under(table, Key::Cluster),
        Place::Node(n) => entry_under(table, Key::Node, n),
        Place::Process(p) => entry_under(table, Key::Process, p),
        Place::Link(l) => entry_under(table, Key::Link, l),
        Place::Message(m) => entry_under(table, Key::Message, m),
    }
}

/// The value at a key there.
pub fn value_at<'a>(table: &'a Table, place: Place, key: Key) -> Option<&'a Value>
    ensures { option_map (λ v. view v.now) result ≡ value_at place key (table_view table.now) }
{
    member(table_at(table, place)?, key)
}

/// The text of a value.
fn text_of_value<'a>(value: &'a Value) -> &'a str
    ensures { result.now ≡ text_or_none (as_str (view value.now)) }
{
    value.as_str().unwrap_or("")
}

/// The name in a table, or an empty one where it has none.
pub fn name_of<'a>(table: &'a Table) -> &'a str
    ensures { result.now ≡ name_of (table_view table.now) }
{
    match member(table, Key::Name) {
        None => "",
        Some(value) => text_of_value(value),
    }
}

/// The name at a place.
pub fn name_at<'a>(table: &'a Table, place: Place) -> &'a str
    ensures { result.now ≡ name_at place (table_view table.now) }
{
    match table_at(table, place) {
        None => "",
        Some(found) => name_of(found),
    }
}

/// The name of an entry of an array.
pub fn name_in<'a>(entry: &'a Value) -> &'a str
    ensures { result.now ≡ name_in (view entry.now) }
{
    match entry.as_table() {
        None => "",
        Some(found) => name_of(found),
    }
}

/// The items of an array, or none of anything else.
fn items_of<'a>(value: &'a Value) -> &'a [Value]
    ensures { map view result.now ≡ items_of (view value.now) }
{
    match value.as_array() {
        Some(items) => items.as_slice(),
        None => &[],
    }
}

/// The items of the array at a key, or none.
pub fn items_under<'a>(table: &'a Table, key: Key) -> &'a [Value]
    ensures { map view result.now ≡ items_found (get_member (text_of key) (table_view table.now)) }
{
    match member(table, key) {
        Some(value) => items_of(value),
        None => &[],
    }
}
