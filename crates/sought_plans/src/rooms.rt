//! Items in memory that is there already.

ghost use Rattle.std.specs.Prelude.{◌≡◌, IfOk, OnOk};

use ttp_model::MemoryFault;

/// These items, in this room.
pub fn refilled<T: Copy>(room: Vec<T>, others: &[T]) -> Result<Vec<T>, MemoryFault>
    ensures { IfOk result (λ items. items.items ≡ others.now) }
{
    let mut items = room;
    refill(&mut items, others)?;
    Ok(items)
}

/// Puts these items in place of those that are there.
pub fn refill<T: Copy>(items: &mut Vec<T>, others: &[T]) -> Result<(), MemoryFault>
    ensures { OnOk result (items.new.items ≡ others.now) }
{
    items.clear();
    items.extend_from_slice(others)?;
    Ok(())
}
