//! How are lists of pieces put together in as little memory as can be?

ghost use Rattle.std.specs.Prelude.{◌≡◌, ◌+◌, ◌++◌, OnOk, length};
ghost use Rattle.planner.specs.Crew.{AreTogether};

use certificate::Node;
use search_workers::Piece;
use std::mem;
use ttp_model::MemoryFault;

/// Pieces behind those of a list. Takes no memory where it has room for all.
pub fn join(all: &mut Vec<Piece>, others: Vec<Piece>) -> Result<(), MemoryFault>
    ensures { OnOk result (all.new.items ≡ all.old.items ++ others.items) }
{
    let mut others = others;
    all.reserve_exact(others.len())?;
    all.append(&mut others)?;
    Ok(())
}

/// Pieces behind those of a list or before them: of the two lists that with more room takes in the other.
pub fn take_in(all: &mut Vec<Piece>, others: Vec<Piece>) -> Result<(), MemoryFault>
    ensures both { OnOk result (AreTogether all.old.items others.items all.new.items) }
    ensures many { OnOk result (length all.new.items ≡ length all.old.items + length others.items) }
{
    if all.capacity() < others.capacity() {
        let less = mem::replace(all, others);
        return join(all, less);
    }
    join(all, others)
}

/// Of two empty lists that which has more room takes the place of the first.
pub fn keep_roomier(room: &mut Vec<Node>, other: Vec<Node>) {
    let mut other = other;
    if room.capacity() < other.capacity() {
        mem::swap(room, &mut other);
    }
}
