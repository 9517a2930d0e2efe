//! Which names are there, and which isn't?

ghost use Rattle.std.specs.Prelude.{◌≡◌, IfOk, map, option_map};
ghost use Rattle.toml.specs.View.{table_view, view};
ghost use Rattle.instance_text.specs.Keys.{text_of};
ghost use Rattle.instance_reasons.specs.Tables.{names_under};
ghost use Rattle.instance_reasons.specs.Known.{has};
ghost use Rattle.instance_reasons.specs.Unknown.{earlier, earlier_text, earliest_unknown, is_known, list_named_at, unknown_item, unknown_name, unless_has};

use crate::tables::{items_under, name_in};
use indexmap::IndexMap;
use instance_text::{Key, Place};
use std::alloc::{AllocError, Global};
use toml::{Table, Value};

/// The list whose entries are named at a place.
pub fn list_named_at(place: Place) -> Key
    ensures { result ≡ list_named_at place }
{
    match place {
        Place::Process(_) => Key::Node,
        _ => Key::Process,
    }
}

/// The names of the entries of a list.
pub fn names_under<'a>(
    alloc: Global,
    table: &'a Table,
    key: Key,
) -> Result<Vec<&'a str>, AllocError>
    ensures { IfOk result (λ names. map (λ s. s.now) names.items ≡ names_under key (table_view table.now)) }
{
    let mut names = Vec::new(alloc);
    let entries = items_under(table, key);
    for entry in entries {
        names.push(name_in(entry))?;
    }
    Ok(names)
}

/// The names of these keys.
pub fn key_names(alloc: Global, keys: &[Key]) -> Result<Vec<&'static str>, AllocError>
    ensures { IfOk result (λ names. map (λ s. s.now) names.items ≡ map text_of keys.now) }
{
    let mut names = Vec::new(alloc);
    for key in keys {
        names.push(key.text())?;
    }
    Ok(names)
}

/// Names that are looked up, each with a place where it stands.
#[derive(Drop)]
pub struct Known<'a> {
    places: IndexMap<&'a str, usize>,
}

impl<'a> Known<'a> {
    /// These names. Takes time in proportion to their bytes, as far as they spread over their hashes.
    pub fn of(alloc: Global, names: &[&'a str]) -> Result<Known<'a>, AllocError>
        ensures { IfOk result (λ known. has known ≡ is_known (map (λ s. s.now) names.now)) }
    {
        let mut places = IndexMap::new(alloc);
        for index in (0..names.len()).rev() {
            places.insert(names[index], index)?;
        }
        Ok(Known { places })
    }

    /// Whether a name is one of them.
    fn has(&self, text: &str) -> bool
        ensures { result ≡ has self.now text.now }
    {
        self.places.get(text).is_some()
    }
}

/// A name, unless it is known.
fn unless_known<'a>(known: &Known, text: &'a str) -> Option<&'a str>
    ensures { option_map (λ s. s.now) result ≡ unless_has (has known.now) text.now }
{
    if known.has(text) { None } else { Some(text) }
}

/// What an item names that isn't known.
fn unknown_item<'a>(known: &Known, item: &'a Value) -> Option<&'a str>
    ensures { option_map (λ s. s.now) result ≡ unknown_item (has known.now) (view item.now) }
{
    match item {
        Value::String(text) => unless_known(known, text.as_str()),
        _ => None,
    }
}

/// The first of two in byte order.
fn earlier_text<'a>(first: &'a str, second: &'a str) -> &'a str
    ensures { result.now ≡ earlier_text first.now second.now }
{
    if second < first { second } else { first }
}

/// The first of two, where there are two.
fn earlier<'a>(first: Option<&'a str>, second: Option<&'a str>) -> Option<&'a str>
    ensures { option_map (λ s. s.now) result ≡ earlier (option_map (λ s. s.now) first.entry) (option_map (λ s. s.now) second.entry) }
{
    match (first, second) {
        (Some(first), Some(second)) => Some(earlier_text(first, second)),
        (Some(first), None) => Some(first),
        (None, _) => second,
    }
}

/// The first in byte order of all that items name and isn't known.
fn earliest_unknown<'a>(known: &Known, items: &'a [Value]) -> Option<&'a str>
    ensures { option_map (λ s. s.now) result ≡ earliest_unknown (has known.now) (map view items.now) }
{
    let mut found = None;
    for item in items {
        found = earlier(found, unknown_item(known, item));
    }
    found
}

/// What a value, or a list, names that isn't known.
pub fn unknown_name<'a>(known: &Known, value: &'a Value) -> Option<&'a str>
    ensures { option_map (λ s. s.now) result ≡ unknown_name (has known.now) (view value.now) }
{
    match value.as_array() {
        Some(items) => earliest_unknown(known, items.as_slice()),
        None => unknown_item(known, value),
    }
}
