//! Which lines do the node tables of so many rounds have?

ghost use Rattle.std.specs.Prelude.{◌≡◌, ℕ, ◌<◌, ◌≤◌, ◌++◌, IfOk, OnOk, length, map};
ghost use Rattle.std.specs.List.{flat_map, range_with_len};
ghost use Rattle.ttp_model.specs.Plans.{IsValid};
ghost use Rattle.tt_layout.specs.Cycle.{cycle_rounds};
ghost use Rattle.medl_tables.specs.Text.{head_text, row_line, tables_text, text_at};
ghost use Rattle.plan_cycles.specs.Rounds.{AreLinesBehind, empty_row, tables_in};

use line_text::{push_number_word, push_word};
use medl_tables::print_node;
use std::alloc::{AllocError, Global};
use tt_layout::cycle_rounds;
use ttp_model::{Instance, MemoryFault, Plan};

/// The text of the node tables of a valid plan in so many rounds. Linear in the text; the rows of one node are there at a time.
pub fn tables_text(
    alloc: Global,
    instance: &Instance,
    plan: &Plan,
    rounds: u32,
) -> Result<Vec<u8>, MemoryFault>
    requires valid { IsValid instance.now plan.now }
    requires enough { cycle_rounds instance.now plan.now ≤ rounds }
    ensures { IfOk result (λ text. text.items ≡ tables_text instance.now (tables_in rounds instance.now plan.now)) }
{
    let count = instance.nodes().len();
    let behind = lines_behind(alloc, instance, plan, rounds)?;
    let mut text = Vec::from_slice(alloc, head(instance))?;
    push_number_word(&mut text, u64::from(rounds))?;
    text.push(b'\n')?;
    for node in 0..count {
        push_node(
            alloc,
            &mut text,
            instance,
            plan,
            node as u32,
            behind.as_slice(),
        )?;
    }
    Ok(text)
}

/// How the text begins.
#[tactic(auto, unfolding(medl_tables::specs::Text::head_text))]
fn head(instance: &Instance) -> &'static [u8]
    ensures { result.now ≡ head_text instance.now }
{
    if instance.cluster().channels == 1 {
        b"ttmedl 1\nrounds"
    } else {
        b"ttmedl 2\nrounds"
    }
}

/// Adds the lines of a node's table: those of the cycle, and those behind it.
fn push_node(
    alloc: Global,
    text: &mut Vec<u8>,
    instance: &Instance,
    plan: &Plan,
    node: u32,
    behind: &[u8],
) -> Result<(), MemoryFault>
    requires valid { IsValid instance.now plan.now }
    requires node { node < length instance.now.nodes }
    ensures { OnOk result ((rounds : ℕ) → AreLinesBehind rounds instance.now plan.now behind.now
        → text.new.items ≡ text.old.items ++ text_at instance.now (tables_in rounds instance.now plan.now) node) }
{
    let lines = print_node(alloc, instance, plan, node)?;
    text.extend_from_slice(lines.as_slice())?;
    text.extend_from_slice(behind)?;
    Ok(())
}

/// The lines of the rounds behind the cycle, which are the same in each table.
fn lines_behind(
    alloc: Global,
    instance: &Instance,
    plan: &Plan,
    rounds: u32,
) -> Result<Vec<u8>, MemoryFault>
    requires valid { IsValid instance.now plan.now }
    requires enough { cycle_rounds instance.now plan.now ≤ rounds }
    ensures { IfOk result (λ lines. AreLinesBehind rounds instance.now plan.now lines.items) }
{
    let _nodes = instance.nodes();
    let mut lines = Vec::new(alloc);
    for round in cycle_rounds(instance, plan)..rounds {
        push_round(&mut lines, instance, plan, round)?;
    }
    Ok(lines)
}

/// Adds the lines of a round that carries nothing.
fn push_round(
    lines: &mut Vec<u8>,
    instance: &Instance,
    plan: &Plan,
    round: u32,
) -> Result<(), AllocError>
    requires { IsValid instance.now plan.now }
    ensures { OnOk result (lines.new.items ≡ lines.old.items
        ++ flat_map (row_line instance.now) (map (empty_row plan.now round) (range_with_len 0 (length instance.now.nodes)))) }
{
    let count = instance.nodes().len();
    for k in 0..count {
        push_row(lines, instance, plan, round, k)?;
    }
    Ok(())
}

/// Adds the line of the slot at position `k` of such a round.
fn push_row(
    lines: &mut Vec<u8>,
    instance: &Instance,
    plan: &Plan,
    round: u32,
    k: usize,
) -> Result<(), AllocError>
    requires valid { IsValid instance.now plan.now }
    requires inside { k < length instance.now.nodes }
    ensures { OnOk result (lines.new.items ≡ lines.old.items ++ row_line instance.now (empty_row plan.now round k)) }
{
    let sender = plan.order.as_slice()[k] as usize;
    let capacity = plan.caps.as_slice()[sender];
    lines.extend_from_slice(b"row")?;
    push_number_word(lines, u64::from(round))?;
    push_number_word(lines, k as u64)?;
    push_word(lines, instance.nodes()[sender].name.as_bytes())?;
    push_number_word(lines, u64::from(capacity))?;
    lines.push(b'\n')?;
    Ok(())
}
