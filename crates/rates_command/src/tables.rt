//! What of a text stands at a place, and at a key of it?

ghost use Rattle.std.specs.Prelude.{◌≡◌, option_map};
ghost use Rattle.toml.specs.Data.{as_table, at};
ghost use Rattle.toml.specs.View.{table_view, view};
ghost use Rattle.instance_reasons.specs.Tables.{and_then};
ghost use Rattle.rates_text.specs.declared.error.RatesKey.TheVariants as key;
ghost use Rattle.rates_command.specs.Tables.{name_at, table_at, value_at, value_in};

use instance_reasons::name_of;
use rates_text::{RatesKey, RatesTable};
use toml::{Table, Value};

/// The value at a key of a table.
fn value_in<'a>(table: &'a Table, key: RatesKey) -> Option<&'a Value>
    ensures { option_map (λ v. view v.now) result ≡ value_in key (table_view table.now) }
{
    table.get(key.text())
}

/// The chain of an index.
fn chain_table<'a>(table: &'a Table, c: usize) -> Option<&'a Table>
    ensures { option_map (λ t. table_view t.now) result
        ≡ and_then (and_then (value_in key.Chain (table_view table.now)) (at c)) as_table }
{
    value_in(table, RatesKey::Chain)?.get(c)?.as_table()
}

/// The table at a place.
pub fn table_at<'a>(table: &'a Table, place: RatesTable) -> Option<&'a Table>
    ensures { option_map (λ t. table_view t.now) result ≡ table_at place (table_view table.now) }
{
    match place {
        RatesTable::Of(place) => instance_reasons::table_at(table, place),
        RatesTable::Chain(c) => chain_table(table, c),
    }
}

/// The value at a key there.
pub fn value_at<'a>(table: &'a Table, place: RatesTable, key: RatesKey) -> Option<&'a Value>
    ensures { option_map (λ v. view v.now) result ≡ value_at place key (table_view table.now) }
{
    value_in(table_at(table, place)?, key)
}

/// The name there, or an empty one.
pub fn name_at<'a>(table: &'a Table, place: RatesTable) -> &'a str
    ensures { result.now ≡ name_at place (table_view table.now) }
{
    match table_at(table, place) {
        None => "",
        Some(found) => name_of(found),
    }
}
