//! Which names are malformed, or stand twice.

ghost use Rattle.std.specs.Prelude.{◌≢◌, ◌^◌, ◌<◌, ◌↔◌, IsTrue, length, slice_index_or};
ghost use Rattle.ttp_model.specs.Lists.{EachBelow, FindsFailure};
ghost use Rattle.ttp_model.specs.Parts.{instance_of};
ghost use Rattle.ttp_model.specs.Rules.{IsName, IsNamed, IsNewName, KeepsLimits};
ghost use Rattle.ttp_model.specs.Searches.{FindsPlace};

use crate::error::Place;
use crate::name::{Name, is_name};
use crate::parts::{Message, Node, Parts, Process};

/// What has a name: a node, a process or a message.
trait Named {
    ghost use Rattle.std.specs.Prelude.{◌≡◌, List, ℕ};

    ghost name_of: { Self → List ℕ };

    fn name(&self) -> &Name
        ensures { result.now ≡ name_of self.now };
}

impl Named for Node {
    ghost name_of = { λ n. n.name };

    fn name(&self) -> &Name {
        &self.name
    }
}

impl Named for Process {
    ghost name_of = { λ p. p.name };

    fn name(&self) -> &Name {
        &self.name
    }
}

impl Named for Message {
    ghost name_of = { λ m. m.name };

    fn name(&self) -> &Name {
        &self.name
    }
}

/// The first of these with a malformed name.
fn first_unnamed<T: Named>(items: &[T]) -> Option<u32>
    requires { length items.now < 2 ^ 32 }
    ensures { (d : T) → FindsFailure (length items.now)
        (λ k. IsName (T.name_of (slice_index_or items.now k d))) result }
{
    for k in 0..items.len() {
        if !is_name(items[k].name().as_bytes()) {
            return Some(k as u32);
        }
    }
    None
}

/// The first place with a malformed name.
pub fn unnamed(parts: &Parts) -> Option<Place>
    requires { KeepsLimits (instance_of parts.now) }
    ensures { FindsPlace (IsNamed (instance_of parts.now)) result }
{
    if let Some(n) = first_unnamed(parts.nodes.as_slice()) {
        return Some(Place::AtNode(n));
    }
    if let Some(p) = first_unnamed(parts.processes.as_slice()) {
        return Some(Place::AtProcess(p));
    }
    if let Some(m) = first_unnamed(parts.messages.as_slice()) {
        return Some(Place::AtMessage(m));
    }
    None
}

/// Whether none before this one has its name.
fn is_new_name<T: Named>(items: &[T], n: usize) -> bool
    requires { n < length items.now }
    ensures { (d : T) → IsTrue result ↔ EachBelow n (λ k.
        T.name_of (slice_index_or items.now k d) ≢ T.name_of (slice_index_or items.now n d)) }
{
    for k in 0..n {
        if items[k].name().is(items[n].name()) {
            return false;
        }
    }
    true
}

/// The first of these with the name of an earlier one.
fn first_repeated<T: Named>(items: &[T]) -> Option<u32>
    requires { length items.now < 2 ^ 32 }
    ensures { (d : T) → FindsFailure (length items.now) (λ n. EachBelow n (λ k.
        T.name_of (slice_index_or items.now k d) ≢ T.name_of (slice_index_or items.now n d))) result }
{
    for n in 0..items.len() {
        if !is_new_name(items, n) {
            return Some(n as u32);
        }
    }
    None
}

/// The first place with a name that an earlier one of its list has.
pub fn repeated(parts: &Parts) -> Option<Place>
    requires { KeepsLimits (instance_of parts.now) }
    ensures { FindsPlace (IsNewName (instance_of parts.now)) result }
{
    if let Some(n) = first_repeated(parts.nodes.as_slice()) {
        return Some(Place::AtNode(n));
    }
    if let Some(p) = first_repeated(parts.processes.as_slice()) {
        return Some(Place::AtProcess(p));
    }
    if let Some(m) = first_repeated(parts.messages.as_slice()) {
        return Some(Place::AtMessage(m));
    }
    None
}
