//! How is a cycle written as events of a trace?

use crate::flows::Flow;
use crate::json_text::tell_made;
use crate::loads::Run;
use crate::origin::Origin;
use plan_sheets::Slot;
use sentences::Word::{Number, Text};
use sentences::{Word, tell};
use std::fmt;
use ttp_model::Instance;

/// A cycle as events, in the form that Chrome's tracing defines: a track for each node and each channel, on which processes and slots are
/// slices, and a flow for each message and receiver on each channel. A tick is told as a microsecond.
#[derive(Clone, Copy)]
pub struct TraceText<'a> {
    pub origin: &'a Origin,
    pub instance: &'a Instance,
    pub runs: &'a [Run],
    pub slots: &'a [Slot],
    pub flows: &'a [Flow],
}

/// A group of tracks: the nodes, or the channels.
#[derive(Clone, Copy)]
enum Group {
    Nodes,
    Channels,
}

/// A track: that of the node or the channel of this index.
#[derive(Clone, Copy)]
struct Track(Group, u32);

impl Track {
    /// The numbers by which events name it: its group's, and its own. Viewers take track 0 for an idle one, so tracks are counted from 1.
    fn words(self) -> (Word<'static>, Word<'static>) {
        let group = match self.0 {
            Group::Nodes => 1,
            Group::Channels => 2,
        };
        (Number(group), Number(u64::from(self.1) + 1))
    }
}

impl<'a> fmt::Display for TraceText<'a> {
    fn fmt<W: fmt::Write>(&self, f: &mut fmt::Formatter<W>) -> fmt::Result {
        f.write_str("{\n\"displayTimeUnit\": \"ms\",\n\"otherData\": {\n")?;
        tell_made(f, self.origin)?;
        f.write_str("\n},\n\"traceEvents\": [\n")?;
        tell_tracks(f, self.instance)?;
        tell_events(f, self)?;
        f.write_str("\n]\n}\n")
    }
}

/// Tells processes, slots and messages.
fn tell_events<W: fmt::Write>(f: &mut fmt::Formatter<W>, text: &TraceText<'_>) -> fmt::Result {
    let instance = text.instance;
    for run in text.runs {
        tell_run(f, instance, *run)?;
    }
    for slot in text.slots {
        tell_slot(f, instance, slot)?;
    }
    for id in 0..text.flows.len() {
        tell_flow(f, instance, id, text.flows[id])?;
    }
    Ok(())
}

/// Tells what the tracks are called, and in which order they stand.
fn tell_tracks<W: fmt::Write>(f: &mut fmt::Formatter<W>, instance: &Instance) -> fmt::Result {
    tell_group(f, Group::Nodes, "nodes")?;
    f.write_str(",\n")?;
    tell_group(f, Group::Channels, "bus")?;
    tell_nodes(f, instance)?;
    tell_channels(f, instance.cluster().channels)
}

/// Tells what a group of tracks is called.
fn tell_group<W: fmt::Write>(
    f: &mut fmt::Formatter<W>,
    group: Group,
    name: &'static str,
) -> fmt::Result {
    let (pid, tid) = Track(group, 0).words();
    tell(
        f,
        "{\"ph\": \"M\", \"name\": \"process_name\", \"pid\": {}, \"tid\": {}, \"args\": {\"name\": \"{}\"}}",
        &[pid, tid, Text(name)],
    )
}

/// Tells the tracks of nodes, by their names and in the instance's order.
fn tell_nodes<W: fmt::Write>(f: &mut fmt::Formatter<W>, instance: &Instance) -> fmt::Result {
    for k in 0..instance.nodes().len() {
        let (pid, tid) = Track(Group::Nodes, k as u32).words();
        let (name, place) = (Text(instance.node_name(k)), Number(k as u64));
        tell(
            f,
            ",\n{\"ph\": \"M\", \"name\": \"thread_name\", \"pid\": {}, \"tid\": {}, \"args\": {\"name\": \"{}\"}},\n{\"ph\": \"M\", \"name\": \"thread_sort_index\", \"pid\": {}, \"tid\": {}, \"args\": {\"sort_index\": {}}}",
            &[pid, tid, name, pid, tid, place],
        )?;
    }
    Ok(())
}

/// Tells the tracks of so many channels.
fn tell_channels<W: fmt::Write>(f: &mut fmt::Formatter<W>, channels: u32) -> fmt::Result {
    for c in 0..channels {
        let (pid, tid) = Track(Group::Channels, c).words();
        tell(
            f,
            ",\n{\"ph\": \"M\", \"name\": \"thread_name\", \"pid\": {}, \"tid\": {}, \"args\": {\"name\": \"channel {}\"}}",
            &[pid, tid, Number(u64::from(c))],
        )?;
    }
    Ok(())
}

/// The node of a process; one that isn't there where there is none.
fn place_of(instance: &Instance, p: u32) -> u32 {
    match instance.processes().get(p as usize) {
        Some(process) => process.node,
        None => u32::MAX,
    }
}

/// Tells a process that runs, on its node's track.
fn tell_run<W: fmt::Write>(
    f: &mut fmt::Formatter<W>,
    instance: &Instance,
    run: Run,
) -> fmt::Result {
    let name = instance.process_name(run.process as usize);
    let (pid, tid) = Track(Group::Nodes, place_of(instance, run.process)).words();
    let (start, ticks) = (run.start, run.end.saturating_sub(u64::from(run.start)));
    tell(
        f,
        ",\n{\"ph\": \"X\", \"cat\": \"process\", \"name\": \"{}\", \"pid\": {}, \"tid\": {}, \"ts\": {}, \"dur\": {}}",
        &[
            Text(name),
            pid,
            tid,
            Number(u64::from(start)),
            Number(ticks),
        ],
    )
}

/// Tells a slot of the cycle, on its channel's track.
fn tell_slot<W: fmt::Write>(
    f: &mut fmt::Formatter<W>,
    instance: &Instance,
    slot: &Slot,
) -> fmt::Result {
    let node = instance.node_name(slot.node as usize);
    tell(
        f,
        ",\n{\"ph\": \"X\", \"cat\": \"slot\", \"name\": \"{}",
        &[Text(node)],
    )?;
    for m in slot.messages.as_slice() {
        tell(f, " {}", &[Text(instance.message_name(*m as usize))])?;
    }
    tell_times(f, slot)
}

/// Tells on which track a slot is, and when, and its frame, and how full that is.
fn tell_times<W: fmt::Write>(f: &mut fmt::Formatter<W>, slot: &Slot) -> fmt::Result {
    let (pid, tid) = Track(Group::Channels, slot.channel).words();
    let numbers = [
        pid,
        tid,
        Number(slot.start),
        Number(slot.end.saturating_sub(slot.start)),
        Number(u64::from(slot.round)),
        Number(slot.frame),
        Number(slot.frame_end),
        Number(u64::from(slot.capacity)),
        Number(u64::from(slot.used)),
    ];
    tell(
        f,
        "\", \"pid\": {}, \"tid\": {}, \"ts\": {}, \"dur\": {}, \"args\": {\"round\": {}, \"frame\": {}, \"frame_end\": {}, \"capacity\": {}, \"used\": {}}}",
        &numbers,
    )
}

/// A step of a flow: its letter, with what else the event says, the track on which it is, and its tick.
#[derive(Clone, Copy)]
struct Step {
    phase: &'static str,
    track: Track,
    tick: u64,
}

/// Tells a step of the flow of this number, which has a message's name.
fn tell_step<W: fmt::Write>(
    f: &mut fmt::Formatter<W>,
    name: &str,
    id: usize,
    step: Step,
) -> fmt::Result {
    let (pid, tid) = step.track.words();
    let (phase, id) = (Text(step.phase), Number(id as u64));
    tell(
        f,
        ",\n{\"ph\": {}, \"cat\": \"message\", \"name\": \"{}\", \"id\": {}, \"pid\": {}, \"tid\": {}, \"ts\": {}}",
        &[phase, Text(name), id, pid, tid, Number(step.tick)],
    )
}

/// The sender of a message; one that isn't there where there is none.
fn sender_of(instance: &Instance, m: u32) -> u32 {
    match instance.messages().get(m as usize) {
        Some(message) => message.sender,
        None => u32::MAX,
    }
}

/// Tells a message on its way: an arrow from the last tick of its sender through its slot to its receiver.
fn tell_flow<W: fmt::Write>(
    f: &mut fmt::Formatter<W>,
    instance: &Instance,
    id: usize,
    flow: Flow,
) -> fmt::Result {
    let name = instance.message_name(flow.message as usize);
    let sender = sender_of(instance, flow.message);
    let from = Step {
        phase: "\"s\"",
        track: Track(Group::Nodes, place_of(instance, sender)),
        tick: flow.sent.saturating_sub(1),
    };
    let over = Step {
        phase: "\"t\"",
        track: Track(Group::Channels, flow.channel),
        tick: flow.slot,
    };
    let to = Step {
        phase: "\"f\", \"bp\": \"e\"",
        track: Track(Group::Nodes, place_of(instance, flow.receiver)),
        tick: u64::from(flow.needed),
    };
    tell_step(f, name, id, from)?;
    tell_step(f, name, id, over)?;
    tell_step(f, name, id, to)
}
