//! Which names are malformed, or stand twice.

ghost use Rattle.std.specs.Prelude.{◌≢◌, ◌^◌, ◌<◌, ◌↔◌, IsTrue, length, slice_index_or};
ghost use Rattle.ttp_model.specs.Lists.{EachBelow, FindsFailure};
ghost use Rattle.ttp_model.specs.Rules.{IsName};
ghost use Rattle.rates_model.specs.Parts.{rates_of};
ghost use Rattle.rates_model.specs.Rules.{HasName, HasNewName, KeepsRatesLimits};
ghost use Rattle.rates_model.specs.Searches.{FindsFirst};

use crate::error::RatesPlace;
use crate::parts::{Chain, RatesMessage, RatesNode, RatesParts, RatesProcess};
use ttp_model::{Name, is_name};

/// What has a name: a node, a process, a message or a chain.
trait Named {
    ghost use Rattle.std.specs.Prelude.{◌≡◌, List, ℕ};

    ghost name_of: { Self → List ℕ };

    fn name(&self) -> &Name
        ensures { result.now ≡ name_of self.now };
}

impl Named for RatesNode {
    ghost name_of = { λ n. n.name };

    fn name(&self) -> &Name {
        &self.name
    }
}

impl Named for RatesProcess {
    ghost name_of = { λ p. p.name };

    fn name(&self) -> &Name {
        &self.name
    }
}

impl Named for RatesMessage {
    ghost name_of = { λ m. m.name };

    fn name(&self) -> &Name {
        &self.name
    }
}

impl Named for Chain {
    ghost name_of = { λ c. c.name };

    fn name(&self) -> &Name {
        &self.name
    }
}

/// The first of these with a malformed name.
fn first_unnamed<T: Named>(items: &[T]) -> Option<u32>
    requires { length items.now < 2 ^ 32 }
    ensures { (d : T) → FindsFailure (length items.now)
        (λ k. IsName (T.name_of (slice_index_or items.now k d))) result }
{
    for k in 0..items.len() {
        if !is_name(items[k].name().as_bytes()) {
            return Some(k as u32);
        }
    }
    None
}

/// The first place with a malformed name.
pub fn unnamed(parts: &RatesParts) -> Option<RatesPlace>
    requires { KeepsRatesLimits (rates_of parts.now) }
    ensures { FindsFirst (HasName (rates_of parts.now)) result }
{
    if let Some(n) = first_unnamed(parts.nodes.as_slice()) {
        return Some(RatesPlace::AtNode(n));
    }
    if let Some(p) = first_unnamed(parts.processes.as_slice()) {
        return Some(RatesPlace::AtProcess(p));
    }
    if let Some(m) = first_unnamed(parts.messages.as_slice()) {
        return Some(RatesPlace::AtMessage(m));
    }
    if let Some(c) = first_unnamed(parts.chains.as_slice()) {
        return Some(RatesPlace::AtChain(c));
    }
    None
}

/// Whether none before this one has its name.
fn is_new_name<T: Named>(items: &[T], n: usize) -> bool
    requires { n < length items.now }
    ensures { (d : T) → IsTrue result ↔ EachBelow n (λ k.
        T.name_of (slice_index_or items.now k d) ≢ T.name_of (slice_index_or items.now n d)) }
{
    for k in 0..n {
        if items[k].name().is(items[n].name()) {
            return false;
        }
    }
    true
}

/// The first of these with the name of an earlier one.
fn first_repeated<T: Named>(items: &[T]) -> Option<u32>
    requires { length items.now < 2 ^ 32 }
    ensures { (d : T) → FindsFailure (length items.now) (λ n. EachBelow n (λ k.
        T.name_of (slice_index_or items.now k d) ≢ T.name_of (slice_index_or items.now n d))) result }
{
    for n in 0..items.len() {
        if !is_new_name(items, n) {
            return Some(n as u32);
        }
    }
    None
}

/// The first place with a name that an earlier one of its list has.
pub fn repeated(parts: &RatesParts) -> Option<RatesPlace>
    requires { KeepsRatesLimits (rates_of parts.now) }
    ensures { FindsFirst (HasNewName (rates_of parts.now)) result }
{
    if let Some(n) = first_repeated(parts.nodes.as_slice()) {
        return Some(RatesPlace::AtNode(n));
    }
    if let Some(p) = first_repeated(parts.processes.as_slice()) {
        return Some(RatesPlace::AtProcess(p));
    }
    if let Some(m) = first_repeated(parts.messages.as_slice()) {
        return Some(RatesPlace::AtMessage(m));
    }
    if let Some(c) = first_repeated(parts.chains.as_slice()) {
        return Some(RatesPlace::AtChain(c));
    }
    None
}
