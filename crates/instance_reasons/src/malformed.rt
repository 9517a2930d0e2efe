//! Why is the form of a name refused?

ghost use Rattle.std.specs.Prelude.{◌≡◌, ◌<◌, IfOk, length, string_bytes};
ghost use Rattle.ttp_model.specs.Lists.{FindsFailure, IsFirstFailure};
ghost use Rattle.ttp_model.specs.Rules.{IsName, IsNamed};
ghost use Rattle.ttp_model.specs.Parts.{instance_of};
ghost use Rattle.instance_reasons.specs.Malformed.{HasStanding, IsMalformedName, IsNameFault, mended_name, standing_at, stands_at};

use crate::parts::name_at;
use crate::spots::{Spot, spot_at};
use line_text::put_told;
use sentences::Word::{Number, Piece, Text};
use sentences::{Member, tell, write_members, write_members_and};
use serde::{Described, Serialize, Serializer};
use std::alloc::{AllocError, Global};
use std::fmt;
use ttp_model::{MOST_NAME_BYTES, Parts, Place, begins_name, continues_name};

/// What is wrong with the bytes of a name.
#[derive(Drop)]
pub enum NameFault {
    /// When it has none.
    Empty,
    /// When it has more than there may be.
    TooLong {
        bytes: u64,
        most: u64,
        by: u64,
    },
    /// When one can't stand where it does, of several the first.
    WrongByte {
        /// Where, counted from 1.
        number: u64,
        byte: u8,
        /// The name with `_` in place of each such byte.
        instead: String,
    },
}

/// A name that isn't one.
#[derive(Drop)]
pub struct MalformedName<'a> {
    pub spot: Spot<'a>,
    pub fault: NameFault,
}

/// Why the name at a place is refused. Takes memory for one that may stand.
pub fn malformed_name<'a>(
    alloc: Global,
    parts: &'a Parts,
    place: Place,
) -> Result<MalformedName<'a>, AllocError>
    requires { ¬ IsNamed (instance_of parts.now) place }
    ensures { IfOk result (IsMalformedName (instance_of parts.now) place) }
{
    let name = name_at(parts, place).as_bytes();
    let fault = name_fault(alloc, name)?;
    Ok(MalformedName {
        spot: spot_at(parts, place),
        fault,
    })
}

/// What is wrong with a name. Takes memory for one that may stand.
pub fn name_fault(alloc: Global, name: &[u8]) -> Result<NameFault, AllocError>
    requires { ¬ IsName name.now }
    ensures { IfOk result (IsNameFault name.now) }
{
    let bytes = name.len();
    if bytes == 0 {
        Ok(NameFault::Empty)
    } else if MOST_NAME_BYTES < bytes {
        Ok(NameFault::TooLong {
            bytes: bytes as u64,
            most: MOST_NAME_BYTES as u64,
            by: (bytes - MOST_NAME_BYTES) as u64,
        })
    } else {
        let k = first_wrong(name).unwrap();
        wrong_byte(alloc, name, k)
    }
}

/// That the byte at a place can't stand there.
fn wrong_byte(alloc: Global, name: &[u8], k: usize) -> Result<NameFault, AllocError>
    requires { IsFirstFailure (length name.now) (HasStanding name.now) k }
    ensures { IfOk result (IsNameFault name.now) }
{
    let instead = mended(alloc, name)?;
    Ok(NameFault::WrongByte {
        number: k as u64 + 1,
        byte: name[k],
        instead,
    })
}

/// Whether a byte may stand at a place of a name.
fn stands_at(k: usize, byte: u8) -> bool
    ensures { result ≡ stands_at k byte }
{
    if k == 0 {
        begins_name(byte)
    } else {
        continues_name(byte)
    }
}

/// The first place of a name where a byte stands that can't.
pub fn first_wrong(name: &[u8]) -> Option<usize>
    ensures { FindsFailure (length name.now) (HasStanding name.now) result }
{
    for k in 0..name.len() {
        if !stands_at(k, name[k]) {
            return Some(k);
        }
    }
    None
}

/// The byte at a place of a name, or `_` where it can't stand there.
fn standing_at(name: &[u8], k: usize) -> u8
    requires { k < length name.now }
    ensures { result ≡ standing_at name.now k }
{
    let byte = name[k];
    if stands_at(k, byte) { byte } else { b'_' }
}

/// A name with `_` in place of each byte that can't stand where it does.
fn mended(alloc: Global, name: &[u8]) -> Result<String, AllocError>
    ensures { IfOk result (λ text. string_bytes text ≡ mended_name name.now) }
{
    let mut text = String::new(alloc);
    for k in 0..name.len() {
        let one = [standing_at(name, k)];
        put_told(&mut text, &one)?;
    }
    Ok(text)
}

impl Described for NameFault {}

impl Serialize for NameFault {
    fn serialize<S: Serializer>(&self, out: &mut S) -> Result<(), S::Error> {
        match self {
            NameFault::Empty => write_members(&[("case", Member::Text("empty"))], out),
            NameFault::TooLong { bytes, most, by } => write_members(
                &[
                    ("case", Member::Text("too_long")),
                    ("bytes", Member::Number(*bytes)),
                    ("most", Member::Number(*most)),
                    ("by", Member::Number(*by)),
                ],
                out,
            ),
            NameFault::WrongByte {
                number,
                byte,
                instead,
            } => {
                let one = [*byte];
                let members = [
                    ("case", Member::Text("wrong_byte")),
                    ("number", Member::Number(*number)),
                    ("byte", Member::Piece(&one)),
                ];
                write_members_and(&members, "instead", instead, out)
            }
        }
    }
}

impl<'a> Described for MalformedName<'a> {}

impl<'a> Serialize for MalformedName<'a> {
    fn serialize<S: Serializer>(&self, out: &mut S) -> Result<(), S::Error> {
        let members = [("spot", self.spot.member())];
        write_members_and(&members, "fault", &self.fault, out)
    }
}

impl<'a> fmt::Display for MalformedName<'a> {
    fn fmt<W: fmt::Write>(&self, f: &mut fmt::Formatter<W>) -> fmt::Result {
        self.spot.tell_within(f)?;
        match &self.fault {
            NameFault::Empty => f.write_str("the name is empty.\n"),
            NameFault::TooLong { bytes, most, by } => tell(
                f,
                "the name has {} bytes, and at most {} may stand: {} too many.\n",
                &[Number(*bytes), Number(*most), Number(*by)],
            ),
            NameFault::WrongByte {
                number,
                byte,
                instead,
            } => {
                let one = [*byte];
                tell(
                    f,
                    "byte {} of the name is {}, and a name has letters, digits and _, and begins with no digit: {} may stand.\n",
                    &[Number(*number), Piece(&one), Text(instead.as_str())],
                )
            }
        }
    }
}
