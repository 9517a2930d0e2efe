//! What is told of a process that runs, and of what holds it back at its start?

ghost use Rattle.std.specs.Prelude.{◌<◌, length};
ghost use Rattle.plan_reasons.specs.Runs.{HasCause, IsRunLine, IsStartReason};

use sentences::Word::{Number, Text};
use sentences::{Member, tell, write_member, write_members_and, write_members_of};
use serde::{Described, Serialize, Serializer};
use std::fmt;
use ttp_model::Instance;

/// What holds a process back, at its start.
#[derive(Clone, Copy)]
pub enum StartCause {
    /// Its release.
    Release,
    /// The link from a process that ends then.
    Link(u32),
    /// The process of its node that ends then.
    Behind(u32),
    /// The message that is there then.
    Arrival(u32),
    /// Nothing: it could start at this tick.
    CouldStart(u64),
}

/// Why a process starts at its tick.
#[derive(Clone, Copy)]
pub enum StartReason<'a> {
    /// It is released then.
    Release,
    /// The process of this name, from which the link of this index leads to it, ends then.
    Link { before: &'a str, link: u32 },
    /// The process of this name ends then.
    Behind(&'a str),
    /// The message of this name is there then.
    Arrival(&'a str),
    /// Nothing holds it back: it could start at this tick.
    CouldStart(u64),
}

/// A process that runs; in ticks.
#[derive(Clone, Copy)]
pub struct RunLine<'a> {
    pub from: u64,
    pub until: u64,
    pub process: &'a str,
    pub node: &'a str,
    pub why: StartReason<'a>,
}

/// What is told of process `p`, which runs from this tick to that one for this cause.
pub fn run_line<'a>(
    instance: &'a Instance,
    p: u32,
    from: u64,
    until: u64,
    cause: StartCause,
) -> RunLine<'a>
    requires inside { p < length instance.now.processes }
    requires there { HasCause instance.now cause }
    ensures { IsRunLine instance.now p from until cause result }
{
    RunLine {
        from,
        until,
        process: instance.process_name(p as usize),
        node: instance.place_name(p as usize),
        why: start_reason(instance, cause),
    }
}

/// A cause with the names that it has.
fn start_reason<'a>(instance: &'a Instance, cause: StartCause) -> StartReason<'a>
    requires { HasCause instance.now cause }
    ensures { IsStartReason instance.now cause result }
{
    match cause {
        StartCause::Release => StartReason::Release,
        StartCause::Link(link) => StartReason::Link {
            before: instance.process_name(instance.link_at(link as usize).before as usize),
            link,
        },
        StartCause::Behind(q) => StartReason::Behind(instance.process_name(q as usize)),
        StartCause::Arrival(m) => StartReason::Arrival(instance.message_name(m as usize)),
        StartCause::CouldStart(time) => StartReason::CouldStart(time),
    }
}

impl<'a> Described for StartReason<'a> {}

impl<'a> Serialize for StartReason<'a> {
    fn serialize<S: Serializer>(&self, out: &mut S) -> Result<(), S::Error> {
        match *self {
            StartReason::Release => write_member(Member::Text("release"), out),
            StartReason::Link { before, link } => {
                let link = Member::Number(u64::from(link));
                write_members_of(
                    "link",
                    &[("before", Member::Text(before)), ("link", link)],
                    out,
                )
            }
            StartReason::Behind(process) => write_member(Member::TextOf("behind", process), out),
            StartReason::Arrival(message) => write_member(Member::TextOf("arrival", message), out),
            StartReason::CouldStart(time) => {
                write_member(Member::NumberOf("could_start", time), out)
            }
        }
    }
}

impl<'a> Described for RunLine<'a> {}

impl<'a> Serialize for RunLine<'a> {
    fn serialize<S: Serializer>(&self, out: &mut S) -> Result<(), S::Error> {
        let members = [
            ("from", Member::Number(self.from)),
            ("until", Member::Number(self.until)),
            ("process", Member::Text(self.process)),
            ("node", Member::Text(self.node)),
        ];
        write_members_and(&members, "why", &self.why, out)
    }
}

impl<'a> fmt::Display for RunLine<'a> {
    fn fmt<W: fmt::Write>(&self, f: &mut fmt::Formatter<W>) -> fmt::Result {
        let (from, until) = (self.from, self.until);
        let (process, node) = (self.process, self.node);
        tell(
            f,
            "  {} to {}  {} on {}",
            &[Number(from), Number(until), Text(process), Text(node)],
        )?;
        match self.why {
            StartReason::Release => tell(f, ", released at {}\n", &[Number(from)]),
            StartReason::Link { before, link } => tell(
                f,
                ", behind {} by link {}\n",
                &[Text(before), Number(u64::from(link))],
            ),
            StartReason::Behind(other) => tell(f, ", behind {}\n", &[Text(other)]),
            StartReason::Arrival(message) => tell(
                f,
                ", once message {} is there\n",
                &[Text(message)],
            ),
            StartReason::CouldStart(time) => tell(
                f,
                "; {} could start at {}\n",
                &[Text(process), Number(time)],
            ),
        }
    }
}
