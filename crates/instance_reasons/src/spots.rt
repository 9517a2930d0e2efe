//! Where in an instance or in its text does something stand?

ghost use Rattle.std.specs.Prelude.{◌≡◌};
ghost use Rattle.toml.specs.View.{table_view};
ghost use Rattle.ttp_model.specs.Parts.{instance_of};
ghost use Rattle.instance_reasons.specs.Spots.{IsSpot, IsTextSpot, index_of, table_of, table_word, text_name};

use crate::{parts, tables};
use instance_text::Place;
use sentences::Word::{Number, Text, Told};
use sentences::{Member, tell};
use std::fmt;
use std::fmt::Display;
use toml::Table;
use ttp_model::Parts;

/// A place with the name that stands there: an empty one where there is none.
#[derive(Clone, Copy)]
pub struct Spot<'a> {
    /// Which table of a text states it.
    pub table: &'static str,
    /// Which of its array, where there may be several.
    pub index: Option<usize>,
    pub name: &'a str,
}

/// What a table of a text is called.
pub fn table_word(place: Place) -> &'static str
    ensures { result.now ≡ table_word place }
{
    match place {
        Place::Top => "top of the text",
        Place::Cluster => "cluster",
        Place::Node(_) => "node",
        Place::Process(_) => "process",
        Place::Link(_) => "link",
        Place::Message(_) => "message",
    }
}

/// Its index in its array.
pub fn index_of(place: Place) -> Option<usize>
    ensures { result ≡ index_of place }
{
    match place {
        Place::Top | Place::Cluster => None,
        Place::Node(index) | Place::Process(index) | Place::Link(index) | Place::Message(index) => {
            Some(index)
        }
    }
}

/// A place of an instance.
pub fn spot_at(parts: &Parts, place: ttp_model::Place) -> Spot<'_>
    ensures { IsSpot (instance_of parts.now) place result }
{
    let table = table_of(place);
    Spot {
        table: table_word(table),
        index: index_of(table),
        name: parts::name_at(parts, place),
    }
}

/// Which table of a text states what stands there.
fn table_of(place: ttp_model::Place) -> Place
    ensures { result ≡ table_of place }
{
    match place {
        ttp_model::Place::AtCluster => Place::Cluster,
        ttp_model::Place::AtNode(n) => Place::Node(n as usize),
        ttp_model::Place::AtProcess(p) => Place::Process(p as usize),
        ttp_model::Place::AtLink(l) => Place::Link(l as usize),
        ttp_model::Place::AtMessage(m) => Place::Message(m as usize),
    }
}

/// A place of a text.
pub fn text_spot(table: &Table, place: Place) -> Spot<'_>
    ensures { IsTextSpot (table_view table.now) place result }
{
    Spot {
        table: table_word(place),
        index: index_of(place),
        name: text_name(table, place),
    }
}

/// The name that stands there.
pub fn text_name(table: &Table, place: Place) -> &str
    ensures { result.now ≡ text_name (table_view table.now) place }
{
    match place {
        Place::Node(_) => tables::name_at(table, place),
        Place::Process(_) => tables::name_at(table, place),
        Place::Message(_) => tables::name_at(table, place),
        Place::Top | Place::Cluster | Place::Link(_) => "",
    }
}

impl<'a> Spot<'a> {
    /// As a member of an object: the name, where it has one.
    pub fn member(self) -> Member<'a> {
        if self.name.is_empty() {
            Member::Nothing
        } else {
            Member::Told(self.name)
        }
    }

    /// Tells that what follows is within it.
    pub fn tell_within<W: fmt::Write>(self, f: &mut fmt::Formatter<W>) -> fmt::Result {
        f.write_str("In ")?;
        self.fmt(f)?;
        f.write_str(": ")
    }
}

impl<'a> fmt::Display for Spot<'a> {
    fn fmt<W: fmt::Write>(&self, f: &mut fmt::Formatter<W>) -> fmt::Result {
        match self.index {
            None => tell(f, "the {}", &[Text(self.table)])?,
            Some(index) => tell(f, "{} {}", &[Text(self.table), Number(index as u64)])?,
        }
        if self.name.is_empty() {
            return Ok(());
        }
        tell(f, ", {}", &[Told(self.name)])
    }
}
