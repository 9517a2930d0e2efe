//! What a node's table lists, and what its text tells.

ghost use Rattle.std.specs.Prelude.{◌≡◌, ℕ, ◌<◌, [], Contains, IfOk, IfSome, length, slice_index_or};
ghost use Rattle.medl_tables.specs.declared.row.Row.{Row};
ghost use Rattle.medl_tables.specs.Medl.{AreTables};
ghost use Rattle.evidence.specs.NodeTables.{Concerns, EachEntry, IsPlaced, row_front};
ghost use Rattle.evidence.specs.Parts.{IsPartOf};

use medl_tables::{Medl, print};
use plan_check::check;
use std::alloc::Global;
use ttp_model::{Instance, MemoryFault, Plan};

/// Each message that a node's table lists is one that the node sends or receives.
pub fn tables_of_own_messages(
    alloc: Global,
    instance: &Instance,
    plan: &Plan,
) -> Result<Option<Medl>, MemoryFault>
    ensures { (node : ℕ) → node < length instance.now.nodes → IfOk result (λ found. IfSome found (λ medl.
        EachEntry medl node (λ row entry. Concerns instance.now node entry.message))) }
{
    let Ok(_ticks) = check(instance, plan) else {
        return Ok(None);
    };
    Ok(Some(Medl::of(alloc, instance, plan)?))
}

/// A message's offset, in whichever node's table, counts the bytes of those before it in its frame, on that channel.
pub fn tables_of_frames(
    alloc: Global,
    instance: &Instance,
    plan: &Plan,
) -> Result<Option<Medl>, MemoryFault>
    ensures { (node : ℕ) → node < length instance.now.nodes → IfOk result (λ found. IfSome found (λ medl.
        EachEntry medl node (IsPlaced instance.now plan.now))) }
{
    let Ok(_ticks) = check(instance, plan) else {
        return Ok(None);
    };
    Ok(Some(Medl::of(alloc, instance, plan)?))
}

/// The text of tables tells each row's round, position, sender and capacity in this order.
pub fn text_with_rows(
    alloc: Global,
    instance: &Instance,
    medl: &Medl,
) -> Result<Vec<u8>, MemoryFault>
    requires { AreTables instance.now medl.now }
    ensures { (node : ℕ) (row : Row) → node < length medl.now.rows
        → Contains (slice_index_or medl.now.rows node []) row
        → IfOk result (λ text. IsPartOf (row_front instance.now row) text.items) }
{
    let text = print(alloc, instance, medl)?;
    Ok(text)
}
