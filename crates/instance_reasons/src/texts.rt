//! Why does the table of a text state no instance?

ghost use Rattle.std.specs.Prelude.{◌≡◌, IfOk, map, option_map};
ghost use Rattle.toml.specs.View.{table_view, view};
ghost use Rattle.instance_reasons.specs.Near.{nearest};
ghost use Rattle.instance_reasons.specs.NearNames.{AreNear};
ghost use Rattle.instance_reasons.specs.Tables.{and_then};
ghost use Rattle.instance_reasons.specs.Texts.{IsOddKey, IsOddName, IsOfTable, IsTextReason, IsUnfitNumber, IsWrongKind};
ghost use Rattle.instance_reasons.specs.Unknown.{is_known, unknown_name};
ghost use Rattle.instance_reasons.specs.Values.{found_of, unfit_of};

use crate::keys::unknown_key;
use crate::known::{Known, key_names, list_named_at, names_under, unknown_name};
use crate::near::{NearName, near_if_any, near_name, nearest};
use crate::spots::{Spot, text_spot};
use crate::tables::value_at;
use crate::values::{Found, Shape, found_if_any, found_of, unfit_of, wanted};
use instance_text::{Key, Place, TextError, keys_at};
use sentences::Word::{Text, Told};
use sentences::{Member, tell, told_if_any, write_kind, write_members, write_members_and};
use serde::{Described, Serialize, Serializer};
use std::alloc::{AllocError, Global};
use std::fmt;
use std::fmt::Display;
use toml::{Table, Value};

/// A key that can't stand where it does: of several the first in byte order.
#[derive(Clone, Copy)]
pub struct OddKey<'a> {
    pub spot: Spot<'a>,
    /// It is there where the table has such a fault.
    pub key: Option<&'a str>,
    /// The key that is nearest to it, where one is near.
    pub near: Option<&'a str>,
}

/// Why a key at a place is refused.
fn odd_key<'a>(alloc: Global, table: &'a Table, place: Place) -> Result<OddKey<'a>, AllocError>
    ensures { IfOk result (IsOddKey (table_view table.now) place) }
{
    let key = unknown_key(table, place);
    let keys = key_names(alloc, keys_at(place))?;
    let near = near_key(alloc, key, keys.as_slice())?;
    Ok(OddKey {
        spot: text_spot(table, place),
        key,
        near,
    })
}

/// Which of these keys is nearest to another one, where there is that.
pub fn near_key<'a>(
    alloc: Global,
    key: Option<&str>,
    keys: &[&'a str],
) -> Result<Option<&'a str>, AllocError>
    ensures { IfOk result (λ near. option_map (λ s. s.now) near
        ≡ and_then (option_map (λ s. s.now) key.entry) (λ word. nearest word (map (λ s. s.now) keys.now))) }
{
    match key {
        None => Ok(None),
        Some(word) => nearest(alloc, word, keys),
    }
}

impl<'a> Described for OddKey<'a> {}

impl<'a> Serialize for OddKey<'a> {
    fn serialize<S: Serializer>(&self, out: &mut S) -> Result<(), S::Error> {
        write_members(
            &[
                ("spot", self.spot.member()),
                ("key", told_if_any(self.key)),
                ("near", told_if_any(self.near)),
            ],
            out,
        )
    }
}

impl<'a> fmt::Display for OddKey<'a> {
    fn fmt<W: fmt::Write>(&self, f: &mut fmt::Formatter<W>) -> fmt::Result {
        let (spot, Some(key)) = (self.spot, self.key) else {
            return Ok(());
        };
        spot.tell_within(f)?;
        tell(f, "the key {} can't stand there.", &[Told(key)])?;
        if let Some(near) = self.near {
            tell(f, " Did you mean {}?", &[Told(near)])?;
        }
        f.write_str("\n")
    }
}

/// A key that has to be there, and isn't.
#[derive(Clone, Copy)]
pub struct MissingKey<'a> {
    pub spot: Spot<'a>,
    pub key: &'static str,
}

impl<'a> Described for MissingKey<'a> {}

impl<'a> Serialize for MissingKey<'a> {
    fn serialize<S: Serializer>(&self, out: &mut S) -> Result<(), S::Error> {
        write_members(
            &[
                ("spot", self.spot.member()),
                ("key", Member::Text(self.key)),
            ],
            out,
        )
    }
}

impl<'a> fmt::Display for MissingKey<'a> {
    fn fmt<W: fmt::Write>(&self, f: &mut fmt::Formatter<W>) -> fmt::Result {
        self.spot.tell_within(f)?;
        tell(f, "the key {} is missing.\n", &[Text(self.key)])
    }
}

/// A value of another kind than has to stand at its key.
#[derive(Clone, Copy)]
pub struct WrongKind<'a> {
    pub spot: Spot<'a>,
    pub key: &'static str,
    /// What stands there, where the table has such a fault.
    pub found: Option<Found>,
    pub wanted: Shape,
}

/// Why the kind of the value at a key is refused.
fn wrong_kind<'a>(table: &'a Table, place: Place, key: Key) -> WrongKind<'a>
    ensures { IsWrongKind (table_view table.now) place key result }
{
    let wanted = wanted(place, key);
    WrongKind {
        spot: text_spot(table, place),
        key: key.text(),
        found: found_at(value_at(table, place, key), wanted),
        wanted,
    }
}

/// What stands at a key in place of what has to.
pub fn found_at(value: Option<&Value>, wanted: Shape) -> Option<Found>
    ensures { result ≡ option_map (found_of wanted) (option_map (λ v. view v.now) value.entry) }
{
    Some(found_of(wanted, value?))
}

impl<'a> Described for WrongKind<'a> {}

impl<'a> Serialize for WrongKind<'a> {
    fn serialize<S: Serializer>(&self, out: &mut S) -> Result<(), S::Error> {
        write_members(
            &[
                ("spot", self.spot.member()),
                ("key", Member::Text(self.key)),
                ("found", found_if_any(self.found)),
                ("wanted", self.wanted.member()),
            ],
            out,
        )
    }
}

impl<'a> fmt::Display for WrongKind<'a> {
    fn fmt<W: fmt::Write>(&self, f: &mut fmt::Formatter<W>) -> fmt::Result {
        let (spot, Some(found)) = (self.spot, self.found) else {
            return Ok(());
        };
        let (key, found, wanted) = (self.key, found.words(), self.wanted.words());
        spot.tell_within(f)?;
        tell(
            f,
            "{} is {}, where {} has to stand.\n",
            &[Text(key), Text(found), Text(wanted)],
        )
    }
}

/// A number that isn't from 0 to 4,294,967,295: of a list the first.
#[derive(Clone, Copy)]
pub struct UnfitNumber<'a> {
    pub spot: Spot<'a>,
    pub key: &'static str,
    /// It is there where the table has such a fault.
    pub number: Option<i64>,
}

/// Why the number at a key is refused.
fn unfit_number<'a>(table: &'a Table, place: Place, key: Key) -> UnfitNumber<'a>
    ensures { IsUnfitNumber (table_view table.now) place key result }
{
    UnfitNumber {
        spot: text_spot(table, place),
        key: key.text(),
        number: number_at(value_at(table, place, key)),
    }
}

/// The number at fault at a key.
pub fn number_at(value: Option<&Value>) -> Option<i64>
    ensures { result ≡ and_then (option_map (λ v. view v.now) value.entry) unfit_of }
{
    unfit_of(value?)
}

impl<'a> Described for UnfitNumber<'a> {}

impl<'a> Serialize for UnfitNumber<'a> {
    fn serialize<S: Serializer>(&self, out: &mut S) -> Result<(), S::Error> {
        let members = [
            ("spot", self.spot.member()),
            ("key", Member::Text(self.key)),
        ];
        write_members_and(&members, "number", &self.number, out)
    }
}

impl<'a> fmt::Display for UnfitNumber<'a> {
    fn fmt<W: fmt::Write>(&self, f: &mut fmt::Formatter<W>) -> fmt::Result {
        let (spot, Some(number)) = (self.spot, self.number) else {
            return Ok(());
        };
        let key = self.key;
        spot.tell_within(f)?;
        writeln!(
            f,
            "the number {number} of {key} isn't from 0 to 4294967295."
        )
    }
}

/// A name that no node or process has: of a list the first in byte order.
#[derive(Clone, Copy)]
pub struct OddName<'a> {
    pub spot: Spot<'a>,
    pub key: &'static str,
    /// It is there where the table has such a fault.
    pub name: Option<&'a str>,
    /// The list in which it was looked for.
    pub list: &'static str,
    /// The name in that list that is nearest to it, where one is near.
    pub near: Option<NearName<'a>>,
}

/// Why a name at a key is refused. Takes memory for the names of the list.
fn odd_name<'a>(
    alloc: Global,
    table: &'a Table,
    place: Place,
    key: Key,
) -> Result<OddName<'a>, AllocError>
    ensures { IfOk result (IsOddName (table_view table.now) place key) }
{
    let list = list_named_at(place);
    let names = names_under(alloc, table, list)?;
    let name = name_of_none(alloc, value_at(table, place, key), names.as_slice())?;
    let near = near_of(alloc, name, names.as_slice())?;
    Ok(OddName {
        spot: text_spot(table, place),
        key: key.text(),
        name,
        list: list.text(),
        near,
    })
}

/// Which of these names is nearest to another one, where there is that.
pub fn near_of<'a>(
    alloc: Global,
    name: Option<&str>,
    names: &[&'a str],
) -> Result<Option<NearName<'a>>, AllocError>
    ensures { IfOk result (AreNear (and_then (option_map (λ s. s.now) name.entry) (λ word. nearest word (map (λ s. s.now) names.now)))) }
{
    match name {
        None => Ok(None),
        Some(word) => near_name(alloc, word, names),
    }
}

/// What is named at a key and isn't one of these names.
pub fn name_of_none<'a>(
    alloc: Global,
    value: Option<&'a Value>,
    names: &[&str],
) -> Result<Option<&'a str>, AllocError>
    ensures { IfOk result (λ found. option_map (λ s. s.now) found
        ≡ and_then (option_map (λ v. view v.now) value.entry) (unknown_name (is_known (map (λ s. s.now) names.now)))) }
{
    let Some(value) = value else {
        return Ok(None);
    };
    let known = Known::of(alloc, names)?;
    Ok(unknown_name(&known, value))
}

impl<'a> Described for OddName<'a> {}

impl<'a> Serialize for OddName<'a> {
    fn serialize<S: Serializer>(&self, out: &mut S) -> Result<(), S::Error> {
        write_members(
            &[
                ("spot", self.spot.member()),
                ("key", Member::Text(self.key)),
                ("name", told_if_any(self.name)),
                ("list", Member::Text(self.list)),
                ("near", near_if_any(self.near)),
            ],
            out,
        )
    }
}

impl<'a> fmt::Display for OddName<'a> {
    fn fmt<W: fmt::Write>(&self, f: &mut fmt::Formatter<W>) -> fmt::Result {
        let (spot, Some(name)) = (self.spot, self.name) else {
            return Ok(());
        };
        let (key, list) = (self.key, self.list);
        spot.tell_within(f)?;
        tell(
            f,
            "{} names {}, and no {} has that name.",
            &[Text(key), Told(name), Text(list)],
        )?;
        if let Some(near) = self.near {
            f.write_str(" ")?;
            near.fmt(f)?;
        }
        f.write_str("\n")
    }
}

/// What is at fault in the tables of a text, and where.
#[derive(Clone, Copy)]
pub enum TextReason<'a> {
    OddKey(OddKey<'a>),
    MissingKey(MissingKey<'a>),
    WrongKind(WrongKind<'a>),
    UnfitNumber(UnfitNumber<'a>),
    OddName(OddName<'a>),
}

/// Why a table is refused that has this fault first. Takes memory for names that may be near, and for those that there are.
pub fn text_reason<'a>(
    alloc: Global,
    table: &'a Table,
    fault: &TextError,
) -> Result<TextReason<'a>, AllocError>
    requires { IsOfTable fault.now }
    ensures { IfOk result (IsTextReason (table_view table.now) fault.now) }
{
    Ok(match fault {
        TextError::UnknownKey { place } => TextReason::OddKey(odd_key(alloc, table, *place)?),
        TextError::MissingKey { place, key } => TextReason::MissingKey(MissingKey {
            spot: text_spot(table, *place),
            key: key.text(),
        }),
        TextError::WrongKind { place, key } => {
            TextReason::WrongKind(wrong_kind(table, *place, *key))
        }
        TextError::OutOfRange { place, key } => {
            TextReason::UnfitNumber(unfit_number(table, *place, *key))
        }
        TextError::UnknownName { place, key } => {
            TextReason::OddName(odd_name(alloc, table, *place, *key)?)
        }
        TextError::NotToml | TextError::Model(_) | TextError::OutOfMemory => unreachable!(),
    })
}

impl<'a> Described for TextReason<'a> {}

impl<'a> Serialize for TextReason<'a> {
    fn serialize<S: Serializer>(&self, out: &mut S) -> Result<(), S::Error> {
        match self {
            TextReason::OddKey(reason) => write_kind("odd_key", reason, out),
            TextReason::MissingKey(reason) => write_kind("missing_key", reason, out),
            TextReason::WrongKind(reason) => write_kind("wrong_kind", reason, out),
            TextReason::UnfitNumber(reason) => write_kind("unfit_number", reason, out),
            TextReason::OddName(reason) => write_kind("odd_name", reason, out),
        }
    }
}

impl<'a> fmt::Display for TextReason<'a> {
    fn fmt<W: fmt::Write>(&self, f: &mut fmt::Formatter<W>) -> fmt::Result {
        match self {
            TextReason::OddKey(reason) => reason.fmt(f),
            TextReason::MissingKey(reason) => reason.fmt(f),
            TextReason::WrongKind(reason) => reason.fmt(f),
            TextReason::UnfitNumber(reason) => reason.fmt(f),
            TextReason::OddName(reason) => reason.fmt(f),
        }
    }
}
