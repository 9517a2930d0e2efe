//! Which figures of a plan are different, by the names of what they are for?

ghost use Rattle.std.specs.Prelude.{◌≡◌, ◌++◌, OnOk, map};
ghost use Rattle.std.specs.List.{flat_map};
ghost use Rattle.line_text.specs.Words.{spaced};
ghost use Rattle.plan_changes.specs.Figures.{difference_text, differences_text, figure_for, figure_word, figures_line, figures_of};

use crate::names::names_of_either;
use crate::planned::Planned;
use plan_format::{Column, keyword_of, part_of, push_value};
use std::alloc::{AllocError, Global};
use ttp_model::{MemoryFault, Plan};

/// The figures of a column, in the instance's order.
fn figures_of<'a>(column: Column, plan: &'a Plan) -> &'a [u32]
    ensures { result.now ≡ figures_of column plan.now }
{
    match column {
        Column::Capacity => plan.caps.as_slice(),
        Column::Start => plan.starts.as_slice(),
        Column::Round => plan.rounds.as_slice(),
        Column::Channel => plan.channels.as_slice(),
    }
}

/// The figure for a name: none where the instance has no such thing.
#[tactic(auto, unfolding(crate::specs::Figures::figure_for))]
fn figure_for(column: Column, planned: &Planned, name: &[u8]) -> Option<u32>
    ensures { result ≡ figure_for column planned.now name.now }
{
    let place = planned.instance().index_named(part_of(column), name)?;
    Some(figures_of(column, planned.plan())[place as usize])
}

/// Adds a figure behind a space, or `-` where there is none.
#[tactic(auto, unfolding(line_text::specs::Words::spaced))]
fn push_figure(text: &mut Vec<u8>, column: Column, figure: Option<u32>) -> Result<(), AllocError>
    ensures { OnOk result (text.new.items ≡ text.old.items ++ spaced (figure_word column figure)) }
{
    text.push(b' ')?;
    match figure {
        None => text.push(b'-')?,
        Some(number) => push_value(text, column, number)?,
    }
    Ok(())
}

/// Adds the line of a name with the old figure and the new one.
#[tactic(auto, unfolding(crate::specs::Figures::figures_line))]
fn push_figures(
    text: &mut Vec<u8>,
    column: Column,
    name: &[u8],
    old: Option<u32>,
    new: Option<u32>,
) -> Result<(), AllocError>
    ensures { OnOk result (text.new.items ≡ text.old.items ++ figures_line column name.now old new) }
{
    text.extend_from_slice(keyword_of(column))?;
    text.extend_from_slice(name)?;
    push_figure(text, column, old)?;
    push_figure(text, column, new)?;
    text.push(b'\n')?;
    Ok(())
}

/// Adds it, where they are different.
#[tactic(auto, unfolding(crate::specs::Figures::difference_text))]
fn push_difference(
    text: &mut Vec<u8>,
    column: Column,
    name: &[u8],
    old: Option<u32>,
    new: Option<u32>,
) -> Result<(), AllocError>
    ensures { OnOk result (text.new.items ≡ text.old.items ++ difference_text column name.now old new) }
{
    if old == new {
        return Ok(());
    }
    push_figures(text, column, name, old, new)
}

/// Adds what is different of a column for these names.
fn push_named(
    text: &mut Vec<u8>,
    old: &Planned,
    new: &Planned,
    column: Column,
    names: &[&[u8]],
) -> Result<(), AllocError>
    ensures { OnOk result (text.new.items ≡ text.old.items
        ++ flat_map (λ n. difference_text column n.now (figure_for column old.now n.now) (figure_for column new.now n.now)) names.now) }
{
    for name in names {
        let before = figure_for(column, old, name);
        let after = figure_for(column, new, name);
        push_difference(text, column, name, before, after)?;
    }
    Ok(())
}

/// Adds what is different of a column, name by name.
pub fn push_differences(
    alloc: Global,
    text: &mut Vec<u8>,
    old: &Planned,
    new: &Planned,
    column: Column,
) -> Result<(), MemoryFault>
    ensures { OnOk result (text.new.items ≡ text.old.items ++ differences_text old.now new.now column) }
{
    let names = names_of_either(alloc, old.instance(), new.instance(), part_of(column))?;
    push_named(text, old, new, column, names.as_slice())?;
    Ok(())
}
