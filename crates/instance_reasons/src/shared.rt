//! Why is a name refused that stands twice?

ghost use Rattle.std.specs.Prelude.{◌≡◌, ◌≢◌};
ghost use Rattle.ttp_model.specs.Lists.{EachBelow, IsFirstFailure};
ghost use Rattle.ttp_model.specs.Rules.{IsNewName};
ghost use Rattle.ttp_model.specs.Parts.{instance_of};
ghost use Rattle.instance_reasons.specs.Shared.{AreShared, IsSharedName, name_in};

use crate::counts::entry_words;
use crate::parts::{message_name, node_name, process_name};
use sentences::Word::{Number, Text, Told};
use sentences::{Member, tell, write_members};
use serde::{Described, Serialize, Serializer};
use std::fmt;
use ttp_model::{Part, Parts, Place};

/// A name that two entries of a list have.
#[derive(Clone, Copy)]
pub struct SharedName<'a> {
    pub name: &'a str,
    pub list: Part,
    /// The first of its name, and the one that is refused, by their indices from 0.
    pub first: u32,
    pub second: u32,
}

/// Why the name at a place is refused. One pass over the list in front of it.
pub fn shared_name(parts: &Parts, place: Place) -> SharedName<'_>
    requires { ¬ IsNewName (instance_of parts.now) place }
    ensures { IsSharedName (instance_of parts.now) place result }
{
    match place {
        Place::AtNode(n) => shared_in(parts, Part::Nodes, n),
        Place::AtProcess(p) => shared_in(parts, Part::Processes, p),
        Place::AtMessage(m) => shared_in(parts, Part::Messages, m),
        Place::AtCluster => unreachable!(),
        Place::AtLink(_) => unreachable!(),
    }
}

/// Why the name of an entry of a list is refused.
fn shared_in(parts: &Parts, list: Part, second: u32) -> SharedName<'_>
    requires { ¬ EachBelow second (λ k. name_in (instance_of parts.now) list k ≢ name_in (instance_of parts.now) list second) }
    ensures { AreShared (instance_of parts.now) list second result }
{
    SharedName {
        name: name_in(parts, list, second),
        list,
        first: first_named(parts, list, second),
        second,
    }
}

/// The name of an entry of a list; links have none.
fn name_in(parts: &Parts, list: Part, k: u32) -> &str
    ensures { result.now ≡ name_in (instance_of parts.now) list k }
{
    match list {
        Part::Nodes => node_name(parts, k),
        Part::Processes => process_name(parts, k),
        Part::Links => "",
        Part::Messages => message_name(parts, k),
    }
}

/// The first entry of a list that has the name of this one, which stands in front of it.
fn first_named(parts: &Parts, list: Part, second: u32) -> u32
    requires { ¬ EachBelow second (λ k. name_in (instance_of parts.now) list k ≢ name_in (instance_of parts.now) list second) }
    ensures { IsFirstFailure second (λ k. name_in (instance_of parts.now) list k ≢ name_in (instance_of parts.now) list second) result }
{
    for k in 0..second {
        if name_in(parts, list, k) == name_in(parts, list, second) {
            return k;
        }
    }
    unreachable!()
}

impl<'a> Described for SharedName<'a> {}

impl<'a> Serialize for SharedName<'a> {
    fn serialize<S: Serializer>(&self, out: &mut S) -> Result<(), S::Error> {
        write_members(
            &[
                ("name", Member::Told(self.name)),
                ("list", Member::Text(entry_words(self.list).0)),
                ("first", Member::Number(u64::from(self.first))),
                ("second", Member::Number(u64::from(self.second))),
            ],
            out,
        )
    }
}

impl<'a> fmt::Display for SharedName<'a> {
    fn fmt<W: fmt::Write>(&self, f: &mut fmt::Formatter<W>) -> fmt::Result {
        let ((one, _), first, second) = (entry_words(self.list), self.first, self.second);
        tell(
            f,
            "The name {} is that of {} {} and of {} {}.\n",
            &[
                Told(self.name),
                Text(one),
                Number(u64::from(first)),
                Text(one),
                Number(u64::from(second)),
            ],
        )
    }
}
