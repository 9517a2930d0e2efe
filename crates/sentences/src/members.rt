//! How are the members of an object written?

use line_text::Told;
use serde::{Serialize, Serializer};

/// What a member of an object has.
#[derive(Clone, Copy)]
pub enum Member<'a> {
    /// `null`, in the place of what isn't there.
    Nothing,
    /// As it is.
    Text(&'a str),
    /// A name of a refused text, as it is told.
    Told(&'a str),
    /// A piece of a refused text, as it is told.
    Piece(&'a [u8]),
    Number(u64),
    Signed(i64),
    /// An object of one member, which is a text, as it is.
    TextOf(&'static str, &'a str),
    /// An object of one member, which is a name of a refused text, as it is told.
    ToldOf(&'static str, &'a str),
    /// An object of one member, which is a number.
    NumberOf(&'static str, u64),
}

/// Members with their names.
pub type Members<'m, 'a> = &'m [(&'static str, Member<'a>)];

/// A number, where there is one.
pub fn number_if_any(number: Option<u32>) -> Member<'static> {
    match number {
        Some(number) => Member::Number(u64::from(number)),
        None => Member::Nothing,
    }
}

/// A number of 64 bits, where there is one.
pub fn long_number_if_any(number: Option<u64>) -> Member<'static> {
    match number {
        Some(number) => Member::Number(number),
        None => Member::Nothing,
    }
}

/// A name of a refused text, where there is one.
pub fn told_if_any<'a>(name: Option<&'a str>) -> Member<'a> {
    match name {
        Some(name) => Member::Told(name),
        None => Member::Nothing,
    }
}

/// A piece of a refused text, where there is one.
pub fn piece_if_any<'a>(piece: Option<&'a [u8]>) -> Member<'a> {
    match piece {
        Some(piece) => Member::Piece(piece),
        None => Member::Nothing,
    }
}

/// Writes a piece of a refused text, as it is told.
fn write_piece<S: Serializer>(bytes: &[u8], out: &mut S) -> Result<(), S::Error> {
    out.collect_str(&Told { bytes })
}

/// Writes what has no members.
fn write_plain<S: Serializer>(member: Member<'_>, out: &mut S) -> Result<(), S::Error> {
    match member {
        Member::Text(text) => out.str(text),
        Member::Told(name) => write_piece(name.as_bytes(), out),
        Member::Piece(bytes) => write_piece(bytes, out),
        Member::Number(number) => out.u64(number),
        Member::Signed(number) => out.i64(number),
        Member::Nothing | Member::TextOf(..) | Member::ToldOf(..) | Member::NumberOf(..) => {
            out.unit()
        }
    }
}

/// Writes an object of one member, which has no members.
fn write_one<S: Serializer>(name: &str, member: Member<'_>, out: &mut S) -> Result<(), S::Error> {
    out.begin_map(Some(1))?;
    out.key(name)?;
    write_plain(member, out)?;
    out.end_map()
}

/// Writes what a member has.
pub fn write_member<S: Serializer>(member: Member<'_>, out: &mut S) -> Result<(), S::Error> {
    match member {
        Member::TextOf(name, text) => write_one(name, Member::Text(text), out),
        Member::ToldOf(name, text) => write_one(name, Member::Told(text), out),
        Member::NumberOf(name, number) => write_one(name, Member::Number(number), out),
        Member::Nothing
        | Member::Text(_)
        | Member::Told(_)
        | Member::Piece(_)
        | Member::Number(_)
        | Member::Signed(_) => write_plain(member, out),
    }
}

/// Writes a member with its name.
fn write_named<S: Serializer>(name: &str, member: Member<'_>, out: &mut S) -> Result<(), S::Error> {
    out.key(name)?;
    write_member(member, out)
}

/// Writes members into an object that is begun.
pub fn put_members<S: Serializer>(members: Members, out: &mut S) -> Result<(), S::Error> {
    for (name, member) in members {
        write_named(name, *member, out)?;
    }
    Ok(())
}

/// Writes an object with these members. A derived `Serialize` has its steps proved anew at each type, which takes seconds for each member
/// and minutes for a tagged enum; these are proved once.
pub fn write_members<S: Serializer>(members: Members, out: &mut S) -> Result<(), S::Error> {
    out.begin_map(Some(members.len()))?;
    put_members(members, out)?;
    out.end_map()
}

/// Writes an object of one member, which has members.
pub fn write_members_of<S: Serializer>(
    name: &str,
    members: Members,
    out: &mut S,
) -> Result<(), S::Error> {
    out.begin_map(Some(1))?;
    out.key(name)?;
    write_members(members, out)?;
    out.end_map()
}

/// Writes an object whose last member is of another kind, behind these.
pub fn write_members_and<T: Serialize, S: Serializer>(
    members: Members,
    name: &str,
    last: &T,
    out: &mut S,
) -> Result<(), S::Error> {
    out.begin_map(Some(members.len() + 1))?;
    put_members(members, out)?;
    out.key(name)?;
    last.serialize(out)?;
    out.end_map()
}

/// Writes an object that says first of which kind it is, and then has the members of a value.
pub fn write_kind<T: Serialize, S: Serializer>(
    kind: &str,
    value: &T,
    out: &mut S,
) -> Result<(), S::Error> {
    out.begin_map(None)?;
    out.key("kind")?;
    out.str(kind)?;
    out.flatten_next()?;
    value.serialize(out)?;
    out.end_map()
}
