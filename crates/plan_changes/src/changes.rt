//! What does a change of an instance and its plan touch?

ghost use Rattle.std.specs.Prelude.{◌≡◌, ◌++◌, ◌<◌, ◌↔◌, [], IfOk, IsTrue, OnOk, bytes_eq, length, slice_index_or};
ghost use Rattle.std.specs.Cmp.Lexicographic.{pointwise};
ghost use Rattle.plan_format.specs.Channels.{has_two_channels};
ghost use Rattle.plan_changes.specs.Changes.{IsUnchanged, changes_text, channels_text, names_in_order, order_text, plan_text};

use crate::attributes::{Attribute, push_attributes};
use crate::figures::push_differences;
use crate::planned::Planned;
use crate::units::push_units;
use plan_format::Column;
use std::alloc::{AllocError, Global};
use ttp_model::MemoryFault;

/// What is told of a change.
#[derive(Drop)]
pub struct Changes {
    /// A line for each node of either, and then what is different of the plan.
    pub text: Vec<u8>,
    /// Whether nothing is different.
    pub unchanged: bool,
}

/// The name of the node whose slot is the one at this position.
fn name_at<'a>(planned: &Planned<'a>, k: usize) -> &'a [u8]
    requires { k < length planned.now.plan.order }
    ensures { result.now ≡ slice_index_or (names_in_order planned.now) k [] }
{
    let node = planned.plan().order.as_slice()[k];
    planned.instance().nodes()[node as usize].name.as_bytes()
}

/// Whether the nodes' names are in the same order.
fn have_same_order(old: &Planned, new: &Planned) -> bool
    ensures { result ≡ pointwise bytes_eq (names_in_order old.now) (names_in_order new.now) }
{
    let count = old.plan().order.len();
    if new.plan().order.len() != count {
        return false;
    }
    for k in 0..count {
        if name_at(old, k) != name_at(new, k) {
            return false;
        }
    }
    true
}

/// Says where the order is another.
#[tactic(auto, unfolding(crate::specs::Changes::order_text))]
fn push_order(text: &mut Vec<u8>, old: &Planned, new: &Planned) -> Result<(), AllocError>
    ensures { OnOk result (text.new.items ≡ text.old.items ++ order_text old.now new.now) }
{
    if have_same_order(old, new) {
        return Ok(());
    }
    text.extend_from_slice(b"order changed\n")
}

/// Whether a bus has two channels.
fn has_two_channels(planned: &Planned) -> bool
    ensures { result ≡ has_two_channels planned.now.instance }
{
    planned.instance().cluster().channels == 2
}

/// Adds what is different of channels, where one of both has two.
#[tactic(auto, unfolding(crate::specs::Changes::channels_text))]
fn push_channels(
    alloc: Global,
    text: &mut Vec<u8>,
    old: &Planned,
    new: &Planned,
) -> Result<(), MemoryFault>
    ensures { OnOk result (text.new.items ≡ text.old.items ++ channels_text old.now new.now) }
{
    if has_two_channels(old) || has_two_channels(new) {
        push_differences(alloc, text, old, new, Column::Channel)?;
    }
    Ok(())
}

/// Adds what is different of the plan.
fn push_plan(
    alloc: Global,
    text: &mut Vec<u8>,
    old: &Planned,
    new: &Planned,
) -> Result<(), MemoryFault>
    ensures { OnOk result (text.new.items ≡ text.old.items ++ plan_text old.now new.now) }
{
    push_order(text, old, new)?;
    push_attributes(alloc, text, old, new, Attribute::Node)?;
    push_attributes(alloc, text, old, new, Attribute::Wcet)?;
    push_differences(alloc, text, old, new, Column::Capacity)?;
    push_differences(alloc, text, old, new, Column::Start)?;
    push_differences(alloc, text, old, new, Column::Round)?;
    push_channels(alloc, text, old, new)
}

/// What is told of a change, from one instance with its plan to another: a line for each node of either, `same`, `changed`, `new`
/// or `gone` with its name, and then `order changed`, and `node`, `wcet`, `cap`, `start`, `round` and `chan` with a name, what was
/// and what is; `chan` where one of both has two channels. Made whole; for each node what is loaded in both is made, one node after
/// another.
pub fn changes_of(alloc: Global, old: &Planned, new: &Planned) -> Result<Changes, MemoryFault>
    ensures text { IfOk result (λ changes. changes.text.items ≡ changes_text old.now new.now) }
    ensures unchanged { IfOk result (λ changes. IsTrue changes.unchanged ↔ IsUnchanged old.now new.now) }
{
    let mut text = Vec::new(alloc);
    let same = push_units(alloc, &mut text, old, new)?;
    let before = text.len();
    push_plan(alloc, &mut text, old, new)?;
    let unchanged = same && text.len() == before;
    Ok(Changes { text, unchanged })
}
