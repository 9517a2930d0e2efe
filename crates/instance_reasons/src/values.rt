//! What kind is a value, which has to stand, and which item or number is at fault?

ghost use Rattle.std.specs.Prelude.{◌≡◌, map};
ghost use Rattle.toml.specs.View.{view};
ghost use Rattle.instance_reasons.specs.Values.{first_unfit, first_wrong, found_in, found_many, found_of, kind_of, may_stand, unfit, unfit_in, unfit_of, wanted, wanted_node, wanted_to};

use instance_text::{Key, Place};
use sentences::Member;
use toml::Value;

/// What a value of a text is.
#[derive(Clone, Copy, PartialEq, Eq)]
pub enum Kind {
    Text,
    Number,
    Fraction,
    Truth,
    Time,
    Array,
    Table,
}

/// What has to stand at a key.
#[derive(Clone, Copy, PartialEq, Eq)]
pub enum Shape {
    /// A value of this kind.
    One(Kind),
    /// A list of such values.
    Many(Kind),
}

/// What stands there.
#[derive(Clone, Copy, PartialEq, Eq)]
pub enum Found {
    /// A value of this kind.
    Whole(Kind),
    /// A list with an item of this kind, which can't stand in it.
    Item(Kind),
}

/// What a value is.
fn kind_of(value: &Value) -> Kind
    ensures { result ≡ kind_of (view value.now) }
{
    match value {
        Value::String(_) => Kind::Text,
        Value::Integer(_) => Kind::Number,
        Value::Float(_) => Kind::Fraction,
        Value::Boolean(_) => Kind::Truth,
        Value::Datetime(_) => Kind::Time,
        Value::Array(_) => Kind::Array,
        Value::Table(_) => Kind::Table,
    }
}

/// What has to stand at the key `node`.
pub fn wanted_node(place: Place) -> Shape
    ensures { result ≡ wanted_node place }
{
    match place {
        Place::Process(_) => Shape::One(Kind::Text),
        _ => Shape::Many(Kind::Table),
    }
}

/// What has to stand at the key `to`.
pub fn wanted_to(place: Place) -> Shape
    ensures { result ≡ wanted_to place }
{
    match place {
        Place::Message(_) => Shape::Many(Kind::Text),
        _ => Shape::One(Kind::Text),
    }
}

/// What has to stand at a key.
pub fn wanted(place: Place, key: Key) -> Shape
    ensures { result ≡ wanted place key }
{
    match key {
        Key::Cluster => Shape::One(Kind::Table),
        Key::Node => wanted_node(place),
        Key::Process | Key::Link | Key::Message => Shape::Many(Kind::Table),
        Key::Precision
        | Key::Lead
        | Key::Trail
        | Key::Head
        | Key::PerByte
        | Key::CopyOut
        | Key::CopyIn
        | Key::Horizon
        | Key::Channels
        | Key::Wcet
        | Key::Release
        | Key::Deadline
        | Key::Bytes => Shape::One(Kind::Number),
        Key::Name | Key::From => Shape::One(Kind::Text),
        Key::Capacities => Shape::Many(Kind::Number),
        Key::To => wanted_to(place),
        Key::Both => Shape::One(Kind::Truth),
    }
}

/// Whether an item may stand in a list of this kind.
fn may_stand(kind: Kind, item: &Value) -> bool
    ensures { result ≡ may_stand kind (view item.now) }
{
    match kind {
        Kind::Text => item.as_str().is_some(),
        Kind::Number => item.as_integer().is_some(),
        Kind::Table => item.as_table().is_some(),
        Kind::Fraction | Kind::Truth | Kind::Time | Kind::Array => true,
    }
}

/// The kind of the first item that may not.
fn first_wrong(kind: Kind, items: &[Value]) -> Option<Kind>
    ensures { result ≡ first_wrong kind (map view items.now) }
{
    for item in items {
        if !may_stand(kind, item) {
            return Some(kind_of(item));
        }
    }
    None
}

/// A list, or the item of it that is at fault.
fn found_in(wrong: Option<Kind>) -> Found
    ensures { result ≡ found_in wrong }
{
    match wrong {
        None => Found::Whole(Kind::Array),
        Some(kind) => Found::Item(kind),
    }
}

/// What stands in place of a list of this kind.
fn found_many(kind: Kind, value: &Value) -> Found
    ensures { result ≡ found_many kind (view value.now) }
{
    match value.as_array() {
        Some(items) => found_in(first_wrong(kind, items.as_slice())),
        None => Found::Whole(kind_of(value)),
    }
}

/// What stands in place of what has to.
pub fn found_of(shape: Shape, value: &Value) -> Found
    ensures { result ≡ found_of shape (view value.now) }
{
    match shape {
        Shape::One(_) => Found::Whole(kind_of(value)),
        Shape::Many(kind) => found_many(kind, value),
    }
}

/// A whole number, where it isn't from 0 to 4,294,967,295.
fn unfit(number: i64) -> Option<i64>
    ensures { result ≡ unfit number }
{
    if 0 <= number && number < 4_294_967_296 {
        None
    } else {
        Some(number)
    }
}

/// That of a value.
fn unfit_in(value: &Value) -> Option<i64>
    ensures { result ≡ unfit_in (view value.now) }
{
    match value {
        Value::Integer(number) => unfit(*number),
        _ => None,
    }
}

/// The first of some items that is one.
fn first_unfit(items: &[Value]) -> Option<i64>
    ensures { result ≡ first_unfit (map view items.now) }
{
    for item in items {
        if let Some(number) = unfit_in(item) {
            return Some(number);
        }
    }
    None
}

/// The number at fault of a value, or of a list.
pub fn unfit_of(value: &Value) -> Option<i64>
    ensures { result ≡ unfit_of (view value.now) }
{
    match value.as_array() {
        Some(items) => first_unfit(items.as_slice()),
        None => unfit_in(value),
    }
}

impl Kind {
    /// What it is called as a value.
    fn name(self) -> &'static str {
        match self {
            Kind::Text => "text",
            Kind::Number => "number",
            Kind::Fraction => "fraction",
            Kind::Truth => "truth",
            Kind::Time => "time",
            Kind::Array => "array",
            Kind::Table => "table",
        }
    }

    /// What it is called in a sentence.
    fn words(self) -> &'static str {
        match self {
            Kind::Text => "a text",
            Kind::Number => "a number",
            Kind::Fraction => "a fraction",
            Kind::Truth => "a truth value",
            Kind::Time => "a time",
            Kind::Array => "a list",
            Kind::Table => "a table",
        }
    }
}

impl Found {
    /// As a member of an object.
    fn member(self) -> Member<'static> {
        match self {
            Found::Whole(kind) => Member::TextOf("whole", kind.name()),
            Found::Item(kind) => Member::TextOf("item", kind.name()),
        }
    }

    /// What it is called in a sentence.
    pub fn words(self) -> &'static str {
        match self {
            Found::Whole(kind) => kind.words(),
            Found::Item(Kind::Text) => "a list with a text",
            Found::Item(Kind::Number) => "a list with a number",
            Found::Item(Kind::Fraction) => "a list with a fraction",
            Found::Item(Kind::Truth) => "a list with a truth value",
            Found::Item(Kind::Time) => "a list with a time",
            Found::Item(Kind::Array) => "a list with a list",
            Found::Item(Kind::Table) => "a list with a table",
        }
    }
}

/// As a member of an object, where there is one.
pub fn found_if_any(found: Option<Found>) -> Member<'static> {
    match found {
        Some(found) => found.member(),
        None => Member::Nothing,
    }
}

impl Shape {
    /// As a member of an object.
    pub fn member(self) -> Member<'static> {
        match self {
            Shape::One(kind) => Member::TextOf("one", kind.name()),
            Shape::Many(kind) => Member::TextOf("many", kind.name()),
        }
    }

    /// What it is called in a sentence.
    pub fn words(self) -> &'static str {
        match self {
            Shape::One(Kind::Text) => "a name",
            Shape::One(Kind::Number) => "a whole number",
            Shape::One(Kind::Truth) => "true or false",
            Shape::One(kind) => kind.words(),
            Shape::Many(Kind::Text) => "a list of names",
            Shape::Many(Kind::Number) => "a list of whole numbers",
            Shape::Many(Kind::Fraction) => "a list of fractions",
            Shape::Many(Kind::Truth) => "a list of truth values",
            Shape::Many(Kind::Time) => "a list of times",
            Shape::Many(Kind::Array) => "a list of lists",
            Shape::Many(Kind::Table) => "a list of tables",
        }
    }
}
