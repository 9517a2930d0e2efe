//! How is a replay written?

ghost use Rattle.std.specs.Prelude.{◌≡◌, ◌<◌, ◌≤◌, ◌∷◌, ◌++◌, [], IfOk, OnOk, length};
ghost use Rattle.std.specs.List.{flat_map, range_with_len};
ghost use Rattle.membership_replay.specs.Text.{event_line, line, member_line, member_word, replay_text, sent_word, slot_text};

use crate::state::NodeState;
use crate::trace::{Event, Slot, Trace};
use line_text::{push_number_word, push_word};
use std::alloc::{AllocError, Global};
use ttp_model::{Instance, MOST_NODES, MemoryFault};

/// The text of a replay of an instance's tables: the line `ttreplay 1`, for each slot a line
/// `slot ROUND POSITION SENDER sent` (or `silent`) and a line for each event, and at the end for
/// each node a line `member NODE` followed by its members. Linear in the text.
pub fn print(alloc: Global, instance: &Instance, trace: &Trace) -> Result<Vec<u8>, MemoryFault>
    ensures { IfOk result (λ text. text.items ≡ replay_text instance.now trace.now) }
{
    let mut text = Vec::from_slice(alloc, b"ttreplay 1\n")?;
    for slot in trace.slots() {
        push_slot(&mut text, instance, slot)?;
    }
    push_all_members(&mut text, instance, trace.states())?;
    Ok(text)
}

/// Adds the line of a slot and those of its events.
fn push_slot(text: &mut Vec<u8>, instance: &Instance, slot: &Slot) -> Result<(), AllocError>
    ensures { OnOk result (text.new.items ≡ text.old.items ++ slot_text instance.now slot.now) }
{
    text.extend_from_slice(b"slot")?;
    push_number_word(text, slot.round as u64)?;
    push_number_word(text, slot.position as u64)?;
    push_word(text, instance.node_name(slot.sender as usize).as_bytes())?;
    push_word(text, sent_word(slot.sent))?;
    text.push(b'\n')?;
    push_events(text, instance, slot.events.as_slice())?;
    Ok(())
}

/// Whether the slot's sender sent, as a word.
fn sent_word(sent: bool) -> &'static [u8]
    ensures { result.now ≡ sent_word sent }
{
    if sent { b"sent" } else { b"silent" }
}

/// Adds the lines of events.
fn push_events(text: &mut Vec<u8>, instance: &Instance, events: &[Event]) -> Result<(), AllocError>
    ensures { OnOk result
        (text.new.items ≡ text.old.items ++ flat_map (event_line instance.now) events.now) }
{
    for event in events {
        push_event(text, instance, *event)?;
    }
    Ok(())
}

/// Adds the line of an event.
#[tactic(auto, unfolding(crate::specs::Text::event_line))]
fn push_event(text: &mut Vec<u8>, instance: &Instance, event: Event) -> Result<(), AllocError>
    ensures { OnOk result (text.new.items ≡ text.old.items ++ event_line instance.now event) }
{
    match event {
        Event::Ack(n) => push_one_word(text, b"ack", instance.node_name(n as usize).as_bytes()),
        Event::Doubt(n) => push_one_word(text, b"doubt", instance.node_name(n as usize).as_bytes()),
        Event::Leave(n) => push_one_word(text, b"leave", instance.node_name(n as usize).as_bytes()),
        Event::Drop(n, s) => {
            push_two_words(
                text,
                b"drop",
                instance.node_name(n as usize).as_bytes(),
                instance.node_name(s as usize).as_bytes(),
            )
        }
        Event::Deliver(m, n) => {
            push_two_words(
                text,
                b"deliver",
                instance.message_name(m as usize).as_bytes(),
                instance.node_name(n as usize).as_bytes(),
            )
        }
    }
}

/// Adds a line of a keyword and a word.
fn push_one_word(text: &mut Vec<u8>, keyword: &[u8], word: &[u8]) -> Result<(), AllocError>
    ensures { OnOk result (text.new.items ≡ text.old.items ++ line keyword.now (word.now ∷ [])) }
{
    text.extend_from_slice(keyword)?;
    push_word(text, word)?;
    text.push(b'\n')?;
    Ok(())
}

/// Adds a line of a keyword and two words.
fn push_two_words(
    text: &mut Vec<u8>,
    keyword: &[u8],
    first: &[u8],
    second: &[u8],
) -> Result<(), AllocError>
    ensures { OnOk result
        (text.new.items ≡ text.old.items ++ line keyword.now (first.now ∷ second.now ∷ [])) }
{
    text.extend_from_slice(keyword)?;
    push_word(text, first)?;
    push_word(text, second)?;
    text.push(b'\n')?;
    Ok(())
}

/// Adds the line of each node's members.
fn push_all_members(
    text: &mut Vec<u8>,
    instance: &Instance,
    states: &[NodeState],
) -> Result<(), AllocError>
    ensures { OnOk result (text.new.items ≡ text.old.items
        ++ flat_map (member_line instance.now states.now) (range_with_len 0 (length states.now))) }
{
    let count = states.len();
    for n in 0..count {
        push_members(text, instance, states, n)?;
    }
    Ok(())
}

/// Adds the line of a node's members.
fn push_members(
    text: &mut Vec<u8>,
    instance: &Instance,
    states: &[NodeState],
    n: usize,
) -> Result<(), AllocError>
    requires { n < length states.now }
    ensures { OnOk result (text.new.items ≡ text.old.items ++ member_line instance.now states.now n) }
{
    let vector = states[n].vector;
    text.extend_from_slice(b"member")?;
    push_word(text, instance.node_name(n).as_bytes())?;
    push_member_words(text, instance, &vector)?;
    text.push(b'\n')?;
    Ok(())
}

/// Adds the names of a vector's members.
fn push_member_words(
    text: &mut Vec<u8>,
    instance: &Instance,
    vector: &[bool; MOST_NODES],
) -> Result<(), AllocError>
    ensures { OnOk result (text.new.items ≡ text.old.items
        ++ flat_map (member_word instance.now vector.now) (range_with_len 0 (length instance.now.nodes))) }
{
    let count = instance.nodes().len();
    for n in 0..count {
        push_member_word(text, instance, vector, n)?;
    }
    Ok(())
}

/// Adds a node's name, where the vector has it as a member.
#[tactic(auto, unfolding(crate::specs::Text::member_word))]
fn push_member_word(
    text: &mut Vec<u8>,
    instance: &Instance,
    vector: &[bool; MOST_NODES],
    n: usize,
) -> Result<(), AllocError>
    ensures { OnOk result
        (text.new.items ≡ text.old.items ++ member_word instance.now vector.now n) }
{
    if n < MOST_NODES && vector[n] {
        push_word(text, instance.node_name(n).as_bytes())?;
    }
    Ok(())
}
