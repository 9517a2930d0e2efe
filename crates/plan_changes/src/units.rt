//! Which nodes are loaded otherwise?

ghost use Rattle.std.specs.Prelude.{◌≡◌, ◌++◌, ◌<◌, ◌↔◌, ◌==◌, All, IfOk, IsTrue, bytes_eq, filter, length, map};
ghost use Rattle.std.specs.List.{flat_map};
ghost use Rattle.plan_changes.specs.Dispatch.{dispatch_lines};
ghost use Rattle.plan_changes.specs.Units.{are_loaded_alike, fate_line, fate_of, nodes_of_either, table_lines, units_text, window_lines};
ghost use Rattle.plan_changes.specs.declared.fate.Fate.TheVariants.{Same};

use crate::dispatch::dispatch_lines;
use crate::fate::{Fate, push_fate};
use crate::names::names_of_either;
use crate::planned::Planned;
use guardian_windows::{Window, windows};
use medl_tables::print_node;
use std::alloc::Global;
use ttp_model::{MemoryFault, Part};

/// The lines of a node's table.
#[tactic(auto, unfolding(crate::specs::Units::table_lines))]
fn table_lines(alloc: Global, planned: &Planned, node: u32) -> Result<Vec<u8>, MemoryFault>
    requires { node < length planned.now.instance.nodes }
    ensures { IfOk result (λ text. text.items ≡ table_lines planned.now node) }
{
    print_node(alloc, planned.instance(), planned.plan(), node)
}

/// The windows of a node's slots.
fn windows_of(alloc: Global, windows: &[Window], node: u32) -> Result<Vec<Window>, MemoryFault>
    ensures { IfOk result (λ own. own.items ≡ filter (λ w. w.node == node) windows.now) }
{
    let own = windows
        .iter()
        .copied()
        .filter(|w| w.node == node)
        .collect(alloc)?;
    Ok(own)
}

/// The text of the windows of a node's slots.
#[tactic(auto, unfolding(crate::specs::Units::window_lines))]
fn window_lines(alloc: Global, planned: &Planned, node: u32) -> Result<Vec<u8>, MemoryFault>
    ensures { IfOk result (λ text. text.items ≡ window_lines planned.now node) }
{
    let windows = windows(alloc, planned.instance(), planned.plan())?;
    let own = windows_of(alloc, windows.as_slice(), node)?;
    guardian_windows::print(alloc, planned.instance(), own.as_slice())
}

/// Whether two nodes have the same table.
fn have_same_table(
    alloc: Global,
    old: &Planned,
    k: u32,
    new: &Planned,
    n: u32,
) -> Result<bool, MemoryFault>
    requires before { k < length old.now.instance.nodes }
    requires after { n < length new.now.instance.nodes }
    ensures { IfOk result (λ same. same ≡ bytes_eq (table_lines old.now k) (table_lines new.now n)) }
{
    let before = table_lines(alloc, old, k)?;
    let after = table_lines(alloc, new, n)?;
    Ok(before.as_slice() == after.as_slice())
}

/// Whether the slots of two nodes have the same windows.
fn have_same_windows(
    alloc: Global,
    old: &Planned,
    k: u32,
    new: &Planned,
    n: u32,
) -> Result<bool, MemoryFault>
    ensures { IfOk result (λ same. same ≡ bytes_eq (window_lines old.now k) (window_lines new.now n)) }
{
    let before = window_lines(alloc, old, k)?;
    let after = window_lines(alloc, new, n)?;
    Ok(before.as_slice() == after.as_slice())
}

/// Whether the dispatchers of two nodes are told the same.
fn have_same_dispatch(
    alloc: Global,
    old: &Planned,
    k: u32,
    new: &Planned,
    n: u32,
) -> Result<bool, MemoryFault>
    ensures { IfOk result (λ same. same ≡ bytes_eq (dispatch_lines old.now k) (dispatch_lines new.now n)) }
{
    let before = dispatch_lines(alloc, old, k)?;
    let after = dispatch_lines(alloc, new, n)?;
    Ok(before.as_slice() == after.as_slice())
}

/// Whether the same is loaded for two nodes. What is made of each has a line for each slot and for each process.
fn are_loaded_alike(
    alloc: Global,
    old: &Planned,
    k: u32,
    new: &Planned,
    n: u32,
) -> Result<bool, MemoryFault>
    requires before { k < length old.now.instance.nodes }
    requires after { n < length new.now.instance.nodes }
    ensures { IfOk result (λ alike. alike ≡ are_loaded_alike old.now k new.now n) }
{
    Ok(
        have_same_table(alloc, old, k, new, n)?
            && have_same_windows(alloc, old, k, new, n)?
            && have_same_dispatch(alloc, old, k, new, n)?,
    )
}

/// What becomes of the node of a name that one of them has.
#[tactic(auto, unfolding(crate::specs::Units::fate_of))]
fn fate_of(alloc: Global, old: &Planned, new: &Planned, name: &[u8]) -> Result<Fate, MemoryFault>
    ensures { IfOk result (λ fate. fate ≡ fate_of old.now new.now name.now) }
{
    let Some(k) = old.instance().index_named(Part::Nodes, name) else {
        return Ok(Fate::New);
    };
    let Some(n) = new.instance().index_named(Part::Nodes, name) else {
        return Ok(Fate::Gone);
    };
    if are_loaded_alike(alloc, old, k, new, n)? {
        Ok(Fate::Same)
    } else {
        Ok(Fate::Changed)
    }
}

/// Adds the line of a node that one of them has, and says whether it is the same.
fn push_unit(
    alloc: Global,
    text: &mut Vec<u8>,
    old: &Planned,
    new: &Planned,
    name: &[u8],
) -> Result<bool, MemoryFault>
    ensures text { IfOk result (λ _. text.new.items ≡ text.old.items ++ fate_line (fate_of old.now new.now name.now) name.now) }
    ensures same { IfOk result (λ same. IsTrue same ↔ (fate_of old.now new.now name.now ≡ Same)) }
{
    let fate = fate_of(alloc, old, new, name)?;
    push_fate(text, fate, name)?;
    Ok(fate == Fate::Same)
}

/// Adds the lines of these nodes, and says whether each is the same.
fn push_fates(
    alloc: Global,
    text: &mut Vec<u8>,
    old: &Planned,
    new: &Planned,
    names: &[&[u8]],
) -> Result<bool, MemoryFault>
    ensures text { IfOk result (λ _. text.new.items
        ≡ text.old.items ++ flat_map (λ n. fate_line (fate_of old.now new.now n.now) n.now) names.now) }
    ensures same { IfOk result (λ same. IsTrue same ↔ All (λ n. fate_of old.now new.now n.now ≡ Same) names.now) }
{
    let mut same = true;
    for name in names {
        if !push_unit(alloc, text, old, new, name)? {
            same = false;
        }
    }
    Ok(same)
}

/// Adds the lines of the nodes of either, and says whether each is the same.
pub fn push_units(
    alloc: Global,
    text: &mut Vec<u8>,
    old: &Planned,
    new: &Planned,
) -> Result<bool, MemoryFault>
    ensures text { IfOk result (λ _. text.new.items ≡ text.old.items ++ units_text old.now new.now) }
    ensures same { IfOk result (λ same. IsTrue same
        ↔ All (λ name. fate_of old.now new.now name ≡ Same) (nodes_of_either old.now new.now)) }
{
    let names = names_of_either(alloc, old.instance(), new.instance(), Part::Nodes)?;
    let same = push_fates(alloc, text, old, new, names.as_slice())?;
    Ok(same)
}
