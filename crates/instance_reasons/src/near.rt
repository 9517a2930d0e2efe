//! Which name is nearest to a word that isn't there?

ghost use Rattle.std.specs.Prelude.{◌≡◌, IfOk, map, option_map};
ghost use Rattle.std.specs.List.{find};
ghost use Rattle.instance_reasons.specs.Near.{first_of, is_near, is_short, nearest};
ghost use Rattle.instance_reasons.specs.NearNames.{AreNear, IsNear};

use crate::malformed::first_wrong;
use sentences::Word::Told;
use sentences::{Member, tell};
use std::alloc::{AllocError, Global};
use std::fmt;
use strsim::levenshtein;

/// The bytes of a text that can be near another, at most: a name has 32, and two characters more have 8.
const MOST_NEAR: usize = 40;

/// Whether a text can be near another.
fn is_short(text: &str) -> bool
    ensures { result ≡ is_short text.now }
{
    0 < text.len() && text.len() <= MOST_NEAR
}

/// Whether a name is no further away than so many characters.
fn is_near(alloc: Global, word: &str, most: usize, name: &str) -> Result<bool, AllocError>
    ensures { IfOk result (λ near. near ≡ is_near word.now most name.now) }
{
    if is_short(word) && is_short(name) {
        Ok(levenshtein(alloc, word, name)? <= most)
    } else {
        Ok(false)
    }
}

/// The first of some names that is.
fn first_near<'a>(
    alloc: Global,
    word: &str,
    most: usize,
    names: &[&'a str],
) -> Result<Option<&'a str>, AllocError>
    ensures { IfOk result (λ found. option_map (λ s. s.now) found ≡ find (is_near word.now most) (map (λ s. s.now) names.now)) }
{
    for name in names {
        if is_near(alloc, word, most, *name)? {
            return Ok(Some(*name));
        }
    }
    Ok(None)
}

/// The first name that is one character away, or else the first that is two.
pub fn nearest<'a>(
    alloc: Global,
    word: &str,
    names: &[&'a str],
) -> Result<Option<&'a str>, AllocError>
    ensures { IfOk result (λ found. option_map (λ s. s.now) found ≡ nearest word.now (map (λ s. s.now) names.now)) }
{
    match first_near(alloc, word, 1, names)? {
        Some(name) => Ok(Some(name)),
        None => first_near(alloc, word, 2, names),
    }
}

/// A name that is near another one.
#[derive(Clone, Copy)]
pub enum NearName<'a> {
    /// It may be meant.
    Meant(&'a str),
    /// It stands where a name has to, and a byte of it can't stand in one.
    NoName(&'a str),
}

/// The nearest of some names, where one is near.
pub fn near_name<'a>(
    alloc: Global,
    word: &str,
    names: &[&'a str],
) -> Result<Option<NearName<'a>>, AllocError>
    ensures { IfOk result (AreNear (nearest word.now (map (λ s. s.now) names.now))) }
{
    Ok(nearest(alloc, word, names)?.map(judged))
}

/// Whether a name may be meant.
fn judged(name: &str) -> NearName<'_>
    ensures { IsNear name.now result }
{
    match first_wrong(name.as_bytes()) {
        None => NearName::Meant(name),
        Some(_) => NearName::NoName(name),
    }
}

impl<'a> NearName<'a> {
    /// As a member of an object.
    pub fn member(self) -> Member<'a> {
        match self {
            NearName::Meant(name) => Member::ToldOf("meant", name),
            NearName::NoName(name) => Member::ToldOf("no_name", name),
        }
    }
}

/// As a member of an object, where there is one.
pub fn near_if_any<'a>(near: Option<NearName<'a>>) -> Member<'a> {
    match near {
        Some(near) => near.member(),
        None => Member::Nothing,
    }
}

impl<'a> fmt::Display for NearName<'a> {
    fn fmt<W: fmt::Write>(&self, f: &mut fmt::Formatter<W>) -> fmt::Result {
        match *self {
            NearName::Meant(name) => { tell(f, "Did you mean {}?", &[Told(name)]) }
            NearName::NoName(name) => {
                tell(
                    f,
                    "One is named {}, and a name has letters, digits and _, and begins with no digit.",
                    &[Told(name)],
                )
            }
        }
    }
}
