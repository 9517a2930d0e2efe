//! Why is the length of a list refused?

ghost use Rattle.std.specs.Prelude.{◌≡◌, ◌<◌};
ghost use Rattle.ttp_model.specs.Refusals.{IsFirstWrongLength};
ghost use Rattle.ttp_model.specs.Rules.{HasReceiver};
ghost use Rattle.ttp_model.specs.Parts.{instance_of};
ghost use Rattle.instance_reasons.specs.Counts.{AreTooMany, IsNoReceiver, IsWrongCount, count_of, most_of};

use crate::spots::{Spot, spot_at};
use sentences::Word::{Number, Text};
use sentences::{Member, tell, write_members};
use serde::{Described, Serialize, Serializer};
use std::fmt;
use ttp_model::{MOST_LINKS, MOST_MESSAGES, MOST_NODES, MOST_PROCESSES, Part, Parts, Place};

/// A list of an instance that has too few entries or too many.
#[derive(Clone, Copy)]
pub enum WrongCount {
    /// When it has none, and has to have one.
    Empty {
        list: Part,
    },
    /// When it has more than there may be.
    TooMany {
        list: Part,
        entries: u64,
        most: u64,
        by: u64,
    },
}

/// Why the length of a list is refused.
pub fn wrong_count(parts: &Parts, list: Part) -> WrongCount
    requires { IsFirstWrongLength (instance_of parts.now) list }
    ensures { IsWrongCount (instance_of parts.now) list result }
{
    let entries = count_of(parts, list);
    if entries == 0 {
        WrongCount::Empty { list }
    } else {
        too_many(list, entries)
    }
}

/// Why so many entries are refused.
fn too_many(list: Part, entries: u64) -> WrongCount
    requires { most_of list < entries }
    ensures { AreTooMany list entries result }
{
    let most = most_of(list);
    WrongCount::TooMany {
        list,
        entries,
        most,
        by: entries - most,
    }
}

/// How many entries a list has.
fn count_of(parts: &Parts, list: Part) -> u64
    ensures { result ≡ count_of (instance_of parts.now) list }
{
    match list {
        Part::Nodes => parts.nodes.len() as u64,
        Part::Processes => parts.processes.len() as u64,
        Part::Links => parts.links.len() as u64,
        Part::Messages => parts.messages.len() as u64,
    }
}

/// How many it may have.
fn most_of(list: Part) -> u64
    ensures { result ≡ most_of list }
{
    match list {
        Part::Nodes => MOST_NODES as u64,
        Part::Processes => MOST_PROCESSES as u64,
        Part::Links => MOST_LINKS as u64,
        Part::Messages => MOST_MESSAGES as u64,
    }
}

/// The words for one entry of a list and for several.
pub fn entry_words(list: Part) -> (&'static str, &'static str) {
    match list {
        Part::Nodes => ("node", "nodes"),
        Part::Processes => ("process", "processes"),
        Part::Links => ("link", "links"),
        Part::Messages => ("message", "messages"),
    }
}

impl Described for WrongCount {}

impl Serialize for WrongCount {
    fn serialize<S: Serializer>(&self, out: &mut S) -> Result<(), S::Error> {
        match *self {
            WrongCount::Empty { list } => write_members(
                &[
                    ("case", Member::Text("empty")),
                    ("list", Member::Text(entry_words(list).0)),
                ],
                out,
            ),
            WrongCount::TooMany {
                list,
                entries,
                most,
                by,
            } => write_members(
                &[
                    ("case", Member::Text("too_many")),
                    ("list", Member::Text(entry_words(list).0)),
                    ("entries", Member::Number(entries)),
                    ("most", Member::Number(most)),
                    ("by", Member::Number(by)),
                ],
                out,
            ),
        }
    }
}

impl fmt::Display for WrongCount {
    fn fmt<W: fmt::Write>(&self, f: &mut fmt::Formatter<W>) -> fmt::Result {
        match *self {
            WrongCount::Empty { list } => {
                let (one, _) = entry_words(list);
                tell(f, "There is no {}.\n", &[Text(one)])
            }
            WrongCount::TooMany {
                list,
                entries,
                most,
                by,
            } => {
                let (_, many) = entry_words(list);
                tell(
                    f,
                    "There are {} {}, and at most {} may be there: {} too many.\n",
                    &[Number(entries), Text(many), Number(most), Number(by)],
                )
            }
        }
    }
}

/// A message without a receiver.
#[derive(Clone, Copy)]
pub struct NoReceiver<'a> {
    pub spot: Spot<'a>,
}

/// Why message `m` is refused.
pub fn no_receiver(parts: &Parts, m: u32) -> NoReceiver<'_>
    requires { ¬ HasReceiver (instance_of parts.now) m }
    ensures { IsNoReceiver (instance_of parts.now) m result }
{
    NoReceiver {
        spot: spot_at(parts, Place::AtMessage(m)),
    }
}

impl<'a> Described for NoReceiver<'a> {}

impl<'a> Serialize for NoReceiver<'a> {
    fn serialize<S: Serializer>(&self, out: &mut S) -> Result<(), S::Error> {
        write_members(&[("spot", self.spot.member())], out)
    }
}

impl<'a> fmt::Display for NoReceiver<'a> {
    fn fmt<W: fmt::Write>(&self, f: &mut fmt::Formatter<W>) -> fmt::Result {
        self.spot.tell_within(f)?;
        f.write_str("there is no receiver.\n")
    }
}
