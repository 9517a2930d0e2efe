//! Where in a cluster of several rates or in its text does something stand?

ghost use Rattle.std.specs.Prelude.{◌≡◌};
ghost use Rattle.toml.specs.View.{table_view};
ghost use Rattle.rates_model.specs.Parts.{rates_of};
ghost use Rattle.rates_command.specs.Spots.{IsRatesSpot, IsRatesTextSpot, index_of, name_at, table_of, table_word, text_name};

use crate::parts::{chain_name, message_name, node_name, process_name};
use crate::tables;
use instance_reasons::Spot;
use instance_text::Place;
use rates_model::{RatesParts, RatesPlace};
use rates_text::RatesTable;
use toml::Table;

/// What a table of a text is called.
fn table_word(place: RatesTable) -> &'static str
    ensures { result.now ≡ table_word place }
{
    match place {
        RatesTable::Of(place) => instance_reasons::table_word(place),
        RatesTable::Chain(_) => "chain",
    }
}

/// Its index in its array.
fn index_of(place: RatesTable) -> Option<usize>
    ensures { result ≡ index_of place }
{
    match place {
        RatesTable::Of(place) => instance_reasons::index_of(place),
        RatesTable::Chain(index) => Some(index),
    }
}

/// Which table of a text states what stands at a place.
fn table_of(place: RatesPlace) -> RatesTable
    ensures { result ≡ table_of place }
{
    match place {
        RatesPlace::AtCluster => RatesTable::Of(Place::Cluster),
        RatesPlace::AtNode(n) => RatesTable::Of(Place::Node(n as usize)),
        RatesPlace::AtProcess(p) => RatesTable::Of(Place::Process(p as usize)),
        RatesPlace::AtLink(l) => RatesTable::Of(Place::Link(l as usize)),
        RatesPlace::AtMessage(m) => RatesTable::Of(Place::Message(m as usize)),
        RatesPlace::AtChain(c) => RatesTable::Chain(c as usize),
    }
}

/// The name at a place, or an empty one where it has none.
pub fn name_at(parts: &RatesParts, place: RatesPlace) -> &str
    ensures { result.now ≡ name_at (rates_of parts.now) place }
{
    match place {
        RatesPlace::AtNode(n) => node_name(parts, n),
        RatesPlace::AtProcess(p) => process_name(parts, p),
        RatesPlace::AtMessage(m) => message_name(parts, m),
        RatesPlace::AtChain(c) => chain_name(parts, c),
        RatesPlace::AtCluster | RatesPlace::AtLink(_) => "",
    }
}

/// A place of a cluster.
pub fn spot_at(parts: &RatesParts, place: RatesPlace) -> Spot<'_>
    ensures { IsRatesSpot (rates_of parts.now) place result }
{
    let table = table_of(place);
    Spot {
        table: table_word(table),
        index: index_of(table),
        name: name_at(parts, place),
    }
}

/// The name at a place of a text.
fn text_name(table: &Table, place: RatesTable) -> &str
    ensures { result.now ≡ text_name (table_view table.now) place }
{
    match place {
        RatesTable::Of(place) => instance_reasons::text_name(table, place),
        RatesTable::Chain(_) => tables::name_at(table, place),
    }
}

/// A place of a text.
pub fn text_spot(table: &Table, place: RatesTable) -> Spot<'_>
    ensures { IsRatesTextSpot (table_view table.now) place result }
{
    Spot {
        table: table_word(place),
        index: index_of(place),
        name: text_name(table, place),
    }
}
