//! How are node tables written?

ghost use Rattle.std.specs.Prelude.{◌≡◌, ◌<◌, ◌++◌, All, IfOk, OnOk, length};
ghost use Rattle.std.specs.List.{flat_map};
ghost use Rattle.ttp_model.specs.Plans.{IsValid};
ghost use Rattle.medl_tables.specs.Medl.{AreTables, IsRowOf, medl_of};
ghost use Rattle.medl_tables.specs.Text.{channel_text, entry_text, head_text, row_line, table_text, tables_text, text_at};

use crate::medl::Medl;
use crate::row::{Entry, Row};
use crate::rows::rows_of;
use line_text::{push_number, push_number_word, push_word};
use std::alloc::{AllocError, Global};
use ttp_model::{Instance, MemoryFault, Plan};

/// The text of an instance's tables: the lines `ttmedl 1` and `rounds NUMBER`, and for each node a
/// line `node NAME` and its rows, each a line `row ROUND POSITION SENDER CAPACITY` followed by
/// ` MESSAGE:OFFSET` for each entry. Where there are two channels the first line is `ttmedl 2`, and
/// an entry ` MESSAGE:CHANNEL:OFFSET`. Linear in the text.
pub fn print(alloc: Global, instance: &Instance, medl: &Medl) -> Result<Vec<u8>, MemoryFault>
    requires { AreTables instance.now medl.now }
    ensures { IfOk result (λ text. text.items ≡ tables_text instance.now medl.now) }
{
    let count = instance.nodes().len();
    let mut text = Vec::from_slice(alloc, head(instance))?;
    push_number_word(&mut text, medl.rounds() as u64)?;
    text.push(b'\n')?;
    for node in 0..count {
        push_table(&mut text, instance, node, medl.rows(node as u32))?;
    }
    Ok(text)
}

/// The lines of one node's table, as they stand in the text of all tables of a valid plan. Linear in them; the other nodes' rows
/// aren't made.
pub fn print_node(
    alloc: Global,
    instance: &Instance,
    plan: &Plan,
    node: u32,
) -> Result<Vec<u8>, MemoryFault>
    requires valid { IsValid instance.now plan.now }
    requires node { node < length instance.now.nodes }
    ensures { IfOk result (λ text. text.items ≡ text_at instance.now (medl_of instance.now plan.now) node) }
{
    let rows = rows_of(alloc, instance, plan, node)?;
    let mut text = Vec::new(alloc);
    push_table(&mut text, instance, node as usize, rows.as_slice())?;
    Ok(text)
}

/// How the text begins.
#[tactic(auto, unfolding(crate::specs::Text::head_text))]
fn head(instance: &Instance) -> &'static [u8]
    ensures { result.now ≡ head_text instance.now }
{
    if instance.cluster().channels == 1 {
        b"ttmedl 1\nrounds"
    } else {
        b"ttmedl 2\nrounds"
    }
}

/// Adds the lines of a node's table.
fn push_table(
    text: &mut Vec<u8>,
    instance: &Instance,
    node: usize,
    rows: &[Row],
) -> Result<(), AllocError>
    requires node { node < length instance.now.nodes }
    requires rows { All (IsRowOf instance.now) rows.now }
    ensures { OnOk result (text.new.items ≡ text.old.items ++ table_text instance.now node rows.now) }
{
    text.extend_from_slice(b"node")?;
    push_word(text, instance.nodes()[node].name.as_bytes())?;
    text.push(b'\n')?;
    for row in rows {
        push_row(text, instance, row)?;
    }
    Ok(())
}

/// Adds the line of a row.
fn push_row(text: &mut Vec<u8>, instance: &Instance, row: &Row) -> Result<(), AllocError>
    requires { IsRowOf instance.now row.now }
    ensures { OnOk result (text.new.items ≡ text.old.items ++ row_line instance.now row.now) }
{
    text.extend_from_slice(b"row")?;
    push_number_word(text, row.round as u64)?;
    push_number_word(text, row.position as u64)?;
    push_word(text, instance.nodes()[row.sender as usize].name.as_bytes())?;
    push_number_word(text, row.capacity as u64)?;
    push_entries(text, instance, row.messages.as_slice())?;
    text.push(b'\n')?;
    Ok(())
}

/// Adds a row's entries.
fn push_entries(
    text: &mut Vec<u8>,
    instance: &Instance,
    entries: &[Entry],
) -> Result<(), AllocError>
    requires { All (λ e. e.message < length instance.now.messages) entries.now }
    ensures { OnOk result
        (text.new.items ≡ text.old.items ++ flat_map (entry_text instance.now) entries.now) }
{
    for entry in entries {
        push_entry(text, instance, entry)?;
    }
    Ok(())
}

/// Adds an entry.
fn push_entry(text: &mut Vec<u8>, instance: &Instance, entry: &Entry) -> Result<(), AllocError>
    requires { entry.now.message < length instance.now.messages }
    ensures { OnOk result (text.new.items ≡ text.old.items ++ entry_text instance.now entry.now) }
{
    push_word(
        text,
        instance.message_at(entry.message as usize).name.as_bytes(),
    )?;
    text.push(b':')?;
    push_channel(text, instance, entry.channel)?;
    push_number(text, entry.offset as u64)?;
    Ok(())
}

/// Adds an entry's channel, where there are two.
#[tactic(auto, unfolding(crate::specs::Text::channel_text))]
fn push_channel(text: &mut Vec<u8>, instance: &Instance, channel: u32) -> Result<(), AllocError>
    ensures { OnOk result (text.new.items ≡ text.old.items ++ channel_text instance.now channel) }
{
    if instance.cluster().channels == 1 {
        return Ok(());
    }
    push_number(text, channel as u64)?;
    text.push(b':')?;
    Ok(())
}
