//! How are the loads of nodes written in C?

use crate::loads::{NodeLoad, Run, Turn};
use crate::origin::{Origin, tell_sum};
use medl_tables::Entry;
use plan_reasons::Cycle;
use sentences::Word::{Number, Text};
use sentences::tell;
use std::fmt;
use ttp_model::{Instance, Part};

/// The loads of nodes: declarations, and definitions behind them.
#[derive(Clone, Copy)]
pub struct CText<'a> {
    pub origin: &'a Origin,
    pub cycle: Cycle,
    pub instance: &'a Instance,
    pub loads: &'a [NodeLoad<'a>],
}

/// What the structures are.
const STRUCTURES: &str = "
struct tt_process {
    uint16_t process;
    uint32_t start, end;
};

struct tt_message {
    uint16_t message;
    uint8_t channel;
    uint16_t offset, bytes;
};

struct tt_slot {
    uint32_t round;
    uint8_t position, sender;
    uint32_t start, end;
    uint16_t capacity, message_count;
    const struct tt_message *messages;
};

struct tt_node {
    uint8_t node;
    uint16_t process_count;
    const struct tt_process *processes;
    uint32_t slot_count;
    const struct tt_slot *slots;
};

extern const struct tt_node tt_nodes[TT_LOADED];
#endif

#ifndef TT_DECLARATIONS
";

impl<'a> fmt::Display for CText<'a> {
    fn fmt<W: fmt::Write>(&self, f: &mut fmt::Formatter<W>) -> fmt::Result {
        let (instance, loads) = (self.instance, self.loads);
        tell_front(f, self)?;
        f.write_str(STRUCTURES)?;
        f.write_str("\n")?;
        for load in loads {
            tell_arrays(f, instance, load)?;
        }
        f.write_str("const struct tt_node tt_nodes[TT_LOADED] = {\n")?;
        for load in loads {
            tell_line(f, instance, load)?;
        }
        f.write_str("};\n#endif\n")
    }
}

/// Tells what stands in front of the structures.
fn tell_front<W: fmt::Write>(f: &mut fmt::Formatter<W>, text: &CText<'_>) -> fmt::Result {
    tell_comment(f, text.origin)?;
    f.write_str("#ifndef TT_SCHEDULE\n#define TT_SCHEDULE\n#include <stdint.h>\n\n")?;
    tell_measures(f, text)?;
    tell_constants(f, text.instance, Part::Nodes)?;
    tell_constants(f, text.instance, Part::Processes)?;
    tell_constants(f, text.instance, Part::Messages)
}

/// Tells what stands in front of all.
fn tell_comment<W: fmt::Write>(f: &mut fmt::Formatter<W>, origin: &Origin) -> fmt::Result {
    tell(
        f,
        "/* What nodes are loaded with, by `ttplan schedule --format c`, of a valid plan.\n   delay {} ticks\n",
        &[Number(origin.delay)],
    )?;
    f.write_str("   instance SHA-256 ")?;
    tell_sum(f, &origin.instance)?;
    f.write_str("\n   plan     SHA-256 ")?;
    tell_sum(f, &origin.plan)?;
    f.write_str("\n   It defines tt_nodes; with TT_DECLARATIONS defined it only declares it. */\n")
}

/// Tells the numbers of the cycle.
fn tell_measures<W: fmt::Write>(f: &mut fmt::Formatter<W>, text: &CText<'_>) -> fmt::Result {
    let cycle = text.cycle;
    let numbers = [
        Number(text.origin.delay),
        Number(cycle.round),
        Number(u64::from(cycle.rounds)),
        Number(cycle.next),
        Number(u64::from(text.instance.cluster().channels)),
        Number(text.loads.len() as u64),
    ];
    tell(
        f,
        "#define TT_DELAY {}\n#define TT_ROUND {}\n#define TT_ROUNDS {}\n#define TT_CYCLE {}\n#define TT_CHANNELS {}\n#define TT_LOADED {}\n",
        &numbers,
    )
}

/// What one of a list is called in names of constants, and all of it.
fn words_of(part: Part) -> (&'static str, &'static str) {
    match part {
        Part::Nodes => ("NODE", "NODES"),
        Part::Processes => ("PROCESS", "PROCESSES"),
        Part::Links => ("LINK", "LINKS"),
        Part::Messages => ("MESSAGE", "MESSAGES"),
    }
}

/// The name at an index of a list.
fn name_at(instance: &Instance, part: Part, k: usize) -> &str {
    match part {
        Part::Nodes => instance.node_name(k),
        Part::Processes => instance.process_name(k),
        Part::Links => "",
        Part::Messages => instance.message_name(k),
    }
}

/// Tells the constants of a list.
fn tell_constants<W: fmt::Write>(
    f: &mut fmt::Formatter<W>,
    instance: &Instance,
    part: Part,
) -> fmt::Result {
    f.write_str("\n")?;
    tell_numbers(f, instance, part)?;
    tell_names(f, instance, part)
}

/// Tells the number of each name of a list.
fn tell_numbers<W: fmt::Write>(
    f: &mut fmt::Formatter<W>,
    instance: &Instance,
    part: Part,
) -> fmt::Result {
    let (one, all) = words_of(part);
    let count = instance.name_count(part);
    tell(f, "#define TT_{} {}\n", &[Text(all), Number(count as u64)])?;
    for k in 0..count {
        let name = name_at(instance, part, k);
        let words = [Text(one), Text(name), Number(k as u64)];
        tell(f, "#define TT_{}_{} {}\n", &words)?;
    }
    Ok(())
}

/// Tells the names of a list, as texts behind one another.
fn tell_names<W: fmt::Write>(
    f: &mut fmt::Formatter<W>,
    instance: &Instance,
    part: Part,
) -> fmt::Result {
    let (_, all) = words_of(part);
    tell(f, "#define TT_NAMES_OF_{} \\\n", &[Text(all)])?;
    for k in 0..instance.name_count(part) {
        let name = name_at(instance, part, k);
        tell(f, "    \"{}\", \\\n", &[Text(name)])?;
    }
    f.write_str("\n")
}

/// Tells the arrays of a node.
fn tell_arrays<W: fmt::Write>(
    f: &mut fmt::Formatter<W>,
    instance: &Instance,
    load: &NodeLoad<'_>,
) -> fmt::Result {
    let node = instance.node_name(load.node as usize);
    tell_runs(f, instance, node, load.runs.as_slice())?;
    for turn in load.turns.as_slice() {
        tell_frame(f, instance, node, *turn)?;
    }
    tell_slots(f, instance, node, load.turns.as_slice())
}

/// Tells the array of a node's processes, where it has any.
fn tell_runs<W: fmt::Write>(
    f: &mut fmt::Formatter<W>,
    instance: &Instance,
    node: &str,
    runs: &[Run],
) -> fmt::Result {
    if runs.is_empty() {
        return Ok(());
    }
    tell(
        f,
        "static const struct tt_process tt_processes_{}[] = {\n",
        &[Text(node)],
    )?;
    for run in runs {
        let words = [
            Text(instance.process_name(run.process as usize)),
            Number(u64::from(run.start)),
            Number(run.end),
        ];
        tell(f, "    { TT_PROCESS_{}, {}, {} },\n", &words)?;
    }
    f.write_str("};\n\n")
}

/// Tells the array of what a frame carries for a node, where it carries anything.
fn tell_frame<W: fmt::Write>(
    f: &mut fmt::Formatter<W>,
    instance: &Instance,
    node: &str,
    turn: Turn<'_>,
) -> fmt::Result {
    let entries = turn.row.messages.as_slice();
    if entries.is_empty() {
        return Ok(());
    }
    let words = [
        Number(u64::from(turn.row.round)),
        Number(u64::from(turn.row.position)),
        Text(node),
    ];
    tell(
        f,
        "static const struct tt_message tt_frame_{}_{}_{}[] = {\n",
        &words,
    )?;
    for entry in entries {
        tell_carried(f, instance, *entry)?;
    }
    f.write_str("};\n\n")
}

/// How many bytes a message has: none where it isn't there.
pub fn bytes_of(instance: &Instance, m: u32) -> u32 {
    match instance.messages().get(m as usize) {
        Some(message) => message.bytes,
        None => 0,
    }
}

/// Tells a message of a frame.
fn tell_carried<W: fmt::Write>(
    f: &mut fmt::Formatter<W>,
    instance: &Instance,
    entry: Entry,
) -> fmt::Result {
    let words = [
        Text(instance.message_name(entry.message as usize)),
        Number(u64::from(entry.channel)),
        Number(u64::from(entry.offset)),
        Number(u64::from(bytes_of(instance, entry.message))),
    ];
    tell(f, "    { TT_MESSAGE_{}, {}, {}, {} },\n", &words)
}

/// Tells the array of the cycle's slots, where there are any.
fn tell_slots<W: fmt::Write>(
    f: &mut fmt::Formatter<W>,
    instance: &Instance,
    node: &str,
    turns: &[Turn<'_>],
) -> fmt::Result {
    if turns.is_empty() {
        return Ok(());
    }
    tell(
        f,
        "static const struct tt_slot tt_slots_{}[] = {\n",
        &[Text(node)],
    )?;
    for turn in turns {
        tell_slot(f, instance, node, *turn)?;
    }
    f.write_str("};\n\n")
}

/// Tells a slot of the cycle.
fn tell_slot<'a, W: fmt::Write>(
    f: &mut fmt::Formatter<W>,
    instance: &'a Instance,
    node: &'a str,
    turn: Turn<'a>,
) -> fmt::Result {
    let row = turn.row;
    let (round, position) = (
        Number(u64::from(row.round)),
        Number(u64::from(row.position)),
    );
    let words = [
        round,
        position,
        Text(instance.node_name(row.sender as usize)),
        Number(turn.start),
        Number(turn.end),
        Number(u64::from(row.capacity)),
    ];
    tell(f, "    { {}, {}, TT_NODE_{}, {}, {}, {}, ", &words)?;
    match row.messages.as_slice().len() {
        0 => f.write_str("0, 0 },\n"),
        count => {
            let words = [Number(count as u64), round, position, Text(node)];
            tell(f, "{}, tt_frame_{}_{}_{} },\n", &words)
        }
    }
}

/// Tells an array with its length; where it is empty there is none.
fn tell_array<'n, W: fmt::Write>(
    f: &mut fmt::Formatter<W>,
    name: &'n str,
    node: &'n str,
    count: usize,
) -> fmt::Result {
    match count {
        0 => f.write_str("0, 0"),
        count => tell(
            f,
            "{}, {}_{}",
            &[Number(count as u64), Text(name), Text(node)],
        ),
    }
}

/// Tells what tells a node's arrays.
fn tell_line<W: fmt::Write>(
    f: &mut fmt::Formatter<W>,
    instance: &Instance,
    load: &NodeLoad<'_>,
) -> fmt::Result {
    let node = instance.node_name(load.node as usize);
    tell(f, "    { TT_NODE_{}, ", &[Text(node)])?;
    tell_array(f, "tt_processes", node, load.runs.len())?;
    f.write_str(", ")?;
    tell_array(f, "tt_slots", node, load.turns.len())?;
    f.write_str(" },\n")
}
