//! What has to stand in each line of a plan's text?

ghost use Rattle.std.specs.Prelude.{◌≡◌, ◌+◌, ◌<◌, ◌^◌, if◌then◌else◌, length};
ghost use Rattle.plan_format.specs.Channels.{has_two_channels};
ghost use Rattle.plan_format.specs.Reading.{end_line};
ghost use Rattle.plan_reasons.specs.Forms.{IsFormOf};

use sentences::Word::{Number, Text};
use sentences::{Member, tell};
use std::fmt;
use ttp_model::Instance;

/// What has to stand in a line.
#[derive(Clone, Copy)]
pub enum Form<'a> {
    /// The format's name with this version.
    Version(u32),
    Delay,
    Order,
    /// The capacity of the node of this name.
    Capacity(&'a str),
    /// The start of the process of this name.
    Start(&'a str),
    /// The round of the message of this name.
    Round(&'a str),
    /// Its channel.
    Channel(&'a str),
    /// Nothing: the text ends before this line.
    End,
}

/// What has to stand in the line of a number, from 1.
pub fn form_of(instance: &Instance, line: u32) -> Form<'_>
    ensures { IsFormOf instance.now line result }
{
    if line <= 1 {
        Form::Version(version(instance))
    } else if line == 2 {
        Form::Delay
    } else if line == 3 {
        Form::Order
    } else {
        named_form(instance, line as usize - 4)
    }
}

/// The version of the format that tells this instance's plans: the second one tells channels.
fn version(instance: &Instance) -> u32
    ensures { result ≡ (if has_two_channels instance.now then 2 else 1) }
{
    if has_two_channels(instance) { 2 } else { 1 }
}

/// Whether the cluster has two channels.
fn has_two_channels(instance: &Instance) -> bool
    ensures { result ≡ has_two_channels instance.now }
{
    instance.cluster().channels == 2
}

/// What has to stand so many lines behind the order.
fn named_form(instance: &Instance, k: usize) -> Form<'_>
    ensures { IsFormOf instance.now (4 + k) result }
{
    let nodes = instance.nodes().len();
    let starts = nodes + instance.processes().len();
    let rounds = starts + instance.messages().len();
    if k < nodes {
        Form::Capacity(instance.node_name(k))
    } else if k < starts {
        Form::Start(instance.process_name(k - nodes))
    } else if k < rounds {
        Form::Round(instance.message_name(k - starts))
    } else if k < rounds + channel_lines(instance) {
        Form::Channel(instance.message_name(k - rounds))
    } else {
        Form::End
    }
}

/// How many lines tell a channel.
fn channel_lines(instance: &Instance) -> usize
    ensures lines { 4 + length instance.now.nodes + length instance.now.processes + length instance.now.messages + result ≡ end_line instance.now }
    ensures two { 0 < result → (instance.now.cluster.channels ≡ 2) × (result ≡ length instance.now.messages) }
{
    let count = instance.messages().len();
    if has_two_channels(instance) { count } else { 0 }
}

/// The number of the last line, which is how many there are.
pub fn last_line(instance: &Instance) -> u32
    ensures value { result + 1 ≡ end_line instance.now }
    ensures few { result < 2 ^ 31 }
{
    let nodes = instance.nodes().len();
    let processes = instance.processes().len();
    let messages = instance.messages().len();
    (3 + nodes + processes + messages + channel_lines(instance)) as u32
}

impl<'a> Form<'a> {
    /// As a member of an object.
    pub fn member(self) -> Member<'a> {
        match self {
            Form::Version(version) => Member::NumberOf("version", u64::from(version)),
            Form::Delay => Member::Text("delay"),
            Form::Order => Member::Text("order"),
            Form::Capacity(name) => Member::TextOf("capacity", name),
            Form::Start(name) => Member::TextOf("start", name),
            Form::Round(name) => Member::TextOf("round", name),
            Form::Channel(name) => Member::TextOf("channel", name),
            Form::End => Member::Text("end"),
        }
    }
}

impl<'a> fmt::Display for Form<'a> {
    fn fmt<W: fmt::Write>(&self, f: &mut fmt::Formatter<W>) -> fmt::Result {
        match *self {
            Form::Version(version) => tell(f, "ttplan {}", &[Number(u64::from(version))]),
            Form::Delay => f.write_str("delay TICKS"),
            Form::Order => f.write_str("order and the name of each node, once"),
            Form::Capacity(name) => tell(f, "cap {} BYTES", &[Text(name)]),
            Form::Start(name) => tell(f, "start {} TICKS", &[Text(name)]),
            Form::Round(name) => tell(f, "round {} ROUND", &[Text(name)]),
            Form::Channel(name) => tell(f, "chan {} 0, 1 or both", &[Text(name)]),
            Form::End => f.write_str("the end of the text"),
        }
    }
}
