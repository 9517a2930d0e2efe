//! Do pieces have the names of a tree? They are asked in the order of their names, in which each stands
//! in front of those below it.

ghost use Rattle.std.specs.Prelude.{bytes_eq, ◌≡◌, ◌<◌, ◌↔◌, IsTrue, IfOk, MatchOption, MatchBool, Contains, length};
ghost use Rattle.std.specs.List.{HoldsAt, AllWithin};
ghost use Rattle.std.specs.List.Sorted.{IsPermutation};
ghost use Rattle.certificate.specs.Trees.{children};
ghost use Rattle.search_trees.specs.declared.piece.Piece.{Piece};
ghost use Rattle.search_trees.specs.Name.{child_name};
ghost use Rattle.search_trees.specs.Pieces.{names_of, all_below};
ghost use Rattle.search_trees.specs.Gathering.{HasDoubledName, LacksName, HasStrayName, HasWantedNames, IsOwn};
ghost use Rattle.search_trees.specs.Order.{compare, IsSorted, Rises, IsSameAsBefore, IsWanted, HasEachChild, LacksChild};

use crate::Piece;
use std::alloc::Global;
use std::cmp::Ordering;
use ttp_model::MemoryFault;

/// Compares a piece's name with a name.
fn compare(piece: &Piece, name: &[u32]) -> Ordering
    ensures { result ≡ compare piece.now.name name.now }
{
    piece.name.cmp_slice(name)
}

/// Compares the names of two pieces.
fn compare_both(a: &Piece, b: &Piece) -> Ordering
    ensures { result ≡ compare a.now.name b.now.name }
{
    a.name.cmp(&b.name)
}

/// Puts the pieces in the order of their names. Takes no memory.
pub fn sort_by_name(pieces: &mut Vec<Piece>)
    ensures same { IsPermutation pieces.old.items pieces.new.items }
    ensures sorted { IsSorted pieces.new.items }
{
    pieces.sort_unstable_by(|a, b| compare_both(a, b));
}

/// Whether two pieces have the same name.
fn have_one_name(a: &Piece, b: &Piece) -> bool
    ensures { result ≡ bytes_eq a.now.name b.now.name }
{
    compare_both(a, b).is_eq()
}

/// Whether a piece has the name of the one before it.
fn is_same_as_before(pieces: &[Piece], k: usize) -> bool
    requires low { 0 < k }
    requires high { k < length pieces.now }
    ensures { MatchBool result (IsSameAsBefore pieces.now k) (¬ IsSameAsBefore pieces.now k) }
{
    have_one_name(&pieces[k], &pieces[k - 1])
}

/// Whether a name stands at two pieces.
pub fn has_doubled_name(pieces: &[Piece]) -> bool
    requires { IsSorted pieces.now }
    ensures { MatchBool result (HasDoubledName pieces.now) (Rises pieces.now) }
{
    for k in 1..pieces.len() {
        if is_same_as_before(pieces, k) {
            return true;
        }
    }
    false
}

/// The place of the piece with a name.
fn find(pieces: &[Piece], name: &[u32]) -> Option<usize>
    requires { IsSorted pieces.now }
    ensures none { MatchOption result (¬ Contains (names_of pieces.now) name.now) (λ k. k < length pieces.now) }
    ensures some { MatchOption result (Unit {0}) (HoldsAt (λ piece. piece.name ≡ name.now) pieces.now) }
{
    match pieces.binary_search_by(|piece| compare(piece, name)) {
        Ok(k) => Some(k),
        Err(_) => None,
    }
}

/// Whether a piece has this name.
fn has_name(pieces: &[Piece], name: &[u32]) -> bool
    requires { IsSorted pieces.now }
    ensures { MatchBool result (Contains (names_of pieces.now) name.now) (¬ Contains (names_of pieces.now) name.now) }
{
    match find(pieces, name) {
        Some(_) => true,
        None => false,
    }
}

/// Whether the child of this number of a piece is there.
fn has_child_of(
    alloc: Global,
    pieces: &[Piece],
    piece: &Piece,
    index: u32,
) -> Result<bool, MemoryFault>
    requires { IsSorted pieces.now }
    ensures { IfOk result (λ has. MatchBool has
        (Contains (names_of pieces.now) (child_name piece.now.name index))
        (¬ Contains (names_of pieces.now) (child_name piece.now.name index))) }
{
    let child = piece.name.child(alloc, index)?;
    let name = child.to_vec(alloc)?;
    Ok(has_name(pieces, name.as_slice()))
}

/// Whether each child of a piece is there.
fn has_children(alloc: Global, pieces: &[Piece], piece: &Piece) -> Result<bool, MemoryFault>
    requires { IsSorted pieces.now }
    ensures { IfOk result (λ r. MatchBool r (HasEachChild pieces.now piece.now) (LacksChild pieces.now piece.now)) }
{
    for k in 0..piece.node.children() {
        if !has_child_of(alloc, pieces, piece, k)? {
            return Ok(false);
        }
    }
    Ok(true)
}

/// Whether the root or a child of a branch isn't there.
pub fn lacks_name(alloc: Global, pieces: &[Piece]) -> Result<bool, MemoryFault>
    requires { IsSorted pieces.now }
    ensures { IfOk result (λ r. MatchBool r (LacksName pieces.now) (HasWantedNames pieces.now)) }
{
    if !has_name(pieces, &[]) {
        return Ok(true);
    }
    for piece in pieces {
        if !has_children(alloc, pieces, piece)? {
            return Ok(true);
        }
    }
    Ok(false)
}

/// Whether a branch has the child of this number.
fn has_child(pieces: &[Piece], parent: &[u32], index: u32) -> bool
    requires sorted { IsSorted pieces.now }
    requires rising { Rises pieces.now }
    ensures { IsTrue result ↔ Contains (all_below pieces.now) (child_name parent.now index) }
{
    match find(pieces, parent) {
        Some(k) => index < pieces[k].node.children(),
        None => false,
    }
}

/// Whether a name is the root's or that of a branch's child.
fn is_wanted(pieces: &[Piece], name: &[u32]) -> bool
    requires sorted { IsSorted pieces.now }
    requires rising { Rises pieces.now }
    ensures { IsTrue result ↔ IsWanted pieces.now name.now }
{
    match name.split_last() {
        None => true,
        Some((last, parent)) => has_child(pieces, parent, *last),
    }
}

/// Whether a piece's name is the root's or that of a branch's child.
fn is_in_place(alloc: Global, pieces: &[Piece], piece: &Piece) -> Result<bool, MemoryFault>
    requires sorted { IsSorted pieces.now }
    requires rising { Rises pieces.now }
    ensures { IfOk result (λ is. IsTrue is ↔ IsWanted pieces.now piece.now.name) }
{
    let name = piece.name.to_vec(alloc)?;
    Ok(is_wanted(pieces, name.as_slice()))
}

/// Whether a name is there that no branch has as a child.
pub fn has_stray_name(alloc: Global, pieces: &[Piece]) -> Result<bool, MemoryFault>
    requires sorted { IsSorted pieces.now }
    requires rising { Rises pieces.now }
    ensures { IfOk result (λ has. MatchBool has (HasStrayName pieces.now) (IsOwn pieces.now)) }
{
    for piece in pieces {
        if !is_in_place(alloc, pieces, piece)? {
            return Ok(true);
        }
    }
    Ok(false)
}
