//! How are the loads of nodes written in JSON?

use crate::c_text::bytes_of;
use crate::loads::{NodeLoad, Run, Turn};
use crate::origin::{Origin, tell_sum};
use medl_tables::Entry;
use plan_reasons::Cycle;
use sentences::Word::{Number, Text};
use sentences::tell;
use std::fmt;
use ttp_model::Instance;

/// The loads of nodes, as one object.
#[derive(Clone, Copy)]
pub struct JsonText<'a> {
    pub origin: &'a Origin,
    pub cycle: Cycle,
    pub instance: &'a Instance,
    pub loads: &'a [NodeLoad<'a>],
}

/// What stands before an item of a list.
fn comma(k: usize) -> &'static str {
    if k == 0 { "" } else { "," }
}

impl<'a> fmt::Display for JsonText<'a> {
    fn fmt<W: fmt::Write>(&self, f: &mut fmt::Formatter<W>) -> fmt::Result {
        let (instance, loads, cycle) = (self.instance, self.loads, self.cycle);
        let numbers = [
            Number(cycle.round),
            Number(u64::from(cycle.rounds)),
            Number(cycle.next),
            Number(u64::from(instance.cluster().channels)),
        ];
        f.write_str("{\n")?;
        tell_made(f, self.origin)?;
        tell(
            f,
            ",\n  \"round\": {},\n  \"rounds\": {},\n  \"cycle\": {},\n  \"channels\": {},\n  \"nodes\": [",
            &numbers,
        )?;
        for k in 0..loads.len() {
            f.write_str(comma(k))?;
            tell_load(f, instance, &loads[k])?;
        }
        f.write_str("\n  ]\n}\n")
    }
}

/// Tells what it was made of.
pub fn tell_made<W: fmt::Write>(f: &mut fmt::Formatter<W>, origin: &Origin) -> fmt::Result {
    tell(f, "  \"delay\": {},\n", &[Number(origin.delay)])?;
    f.write_str("  \"instance_sha256\": \"")?;
    tell_sum(f, &origin.instance)?;
    f.write_str("\",\n  \"plan_sha256\": \"")?;
    tell_sum(f, &origin.plan)?;
    f.write_str("\"")
}

/// Tells what a node is loaded with.
fn tell_load<W: fmt::Write>(
    f: &mut fmt::Formatter<W>,
    instance: &Instance,
    load: &NodeLoad<'_>,
) -> fmt::Result {
    let name = instance.node_name(load.node as usize);
    tell(
        f,
        "\n    {\n      \"name\": \"{}\",\n      \"processes\": [",
        &[Text(name)],
    )?;
    tell_runs(f, instance, load.runs.as_slice())?;
    f.write_str("\n      ],\n      \"slots\": [")?;
    tell_turns(f, instance, load.turns.as_slice())?;
    f.write_str("\n      ]\n    }")
}

/// Tells processes that run.
fn tell_runs<W: fmt::Write>(
    f: &mut fmt::Formatter<W>,
    instance: &Instance,
    runs: &[Run],
) -> fmt::Result {
    for k in 0..runs.len() {
        let run = runs[k];
        let words = [
            Text(comma(k)),
            Text(instance.process_name(run.process as usize)),
            Number(u64::from(run.start)),
            Number(run.end),
        ];
        tell(
            f,
            "{}\n        {\"name\": \"{}\", \"start\": {}, \"end\": {}}",
            &words,
        )?;
    }
    Ok(())
}

/// Tells slots of the cycle.
fn tell_turns<W: fmt::Write>(
    f: &mut fmt::Formatter<W>,
    instance: &Instance,
    turns: &[Turn<'_>],
) -> fmt::Result {
    for k in 0..turns.len() {
        f.write_str(comma(k))?;
        tell_slot(f, instance, turns[k])?;
    }
    Ok(())
}

/// Tells a slot of the cycle.
fn tell_slot<W: fmt::Write>(
    f: &mut fmt::Formatter<W>,
    instance: &Instance,
    turn: Turn<'_>,
) -> fmt::Result {
    let row = turn.row;
    let entries = row.messages.as_slice();
    let words = [
        Number(u64::from(row.round)),
        Number(u64::from(row.position)),
        Text(instance.node_name(row.sender as usize)),
        Number(turn.start),
        Number(turn.end),
        Number(u64::from(row.capacity)),
    ];
    tell(
        f,
        "\n        {\"round\": {}, \"position\": {}, \"sender\": \"{}\", \"start\": {}, \"end\": {}, \"capacity\": {}, \"messages\": [",
        &words,
    )?;
    for k in 0..entries.len() {
        f.write_str(comma(k))?;
        tell_carried(f, instance, entries[k])?;
    }
    f.write_str("]}")
}

/// Tells a message of a frame.
fn tell_carried<W: fmt::Write>(
    f: &mut fmt::Formatter<W>,
    instance: &Instance,
    entry: Entry,
) -> fmt::Result {
    let words = [
        Text(instance.message_name(entry.message as usize)),
        Number(u64::from(entry.channel)),
        Number(u64::from(entry.offset)),
        Number(u64::from(bytes_of(instance, entry.message))),
    ];
    tell(
        f,
        "{\"name\": \"{}\", \"channel\": {}, \"offset\": {}, \"bytes\": {}}",
        &words,
    )
}
