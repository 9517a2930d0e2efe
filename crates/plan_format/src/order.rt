//! Which order of the nodes does the order line give?

ghost use Rattle.std.specs.Prelude.{◌≡◌, ◌<◌, ◌==◌, ◌&&◌, length, bytes_eq, position, IfOk, IfSome, IsOk};
ghost use Rattle.std.specs.List.{list_all};
ghost use Rattle.line_text.specs.Parts.{seen_rest};
ghost use Rattle.ttp_model.specs.declared.error.Part.TheVariants.{Nodes};
ghost use Rattle.plan_format.specs.Names.{is_name};
ghost use Rattle.ttp_model.specs.Names.{names_in};
ghost use Rattle.plan_format.specs.Reading.{IsAnswer, words_of, is_distinct, places, named_at, order_at};
ghost use Rattle.plan_format.specs.Words.{words_with, items_of};

use crate::fault::{LineFault, PlanTextError};
use crate::line::{has_name_form, line_of};
use line_text::{after_keyword, cut};
use std::alloc::{AllocError, Global};
use ttp_model::{Instance, Part};

/// The number of the order line.
const ORDER_LINE: u32 = 3;

/// The first word, and the text behind the space after it, if there is one.
fn first_word(text: &[u8]) -> (&[u8], Option<&[u8]>)
    ensures words { words_of text.now ≡ words_with result.0.now (seen_rest result.1) }
    ensures shorter { IfSome result.1 (λ more. length more.now < length text.now) }
{
    match cut(b' ', text) {
        None => (text, None),
        Some((word, more)) => (word, Some(more)),
    }
}

#[tactic(auto, using(crate::proofs::WordLoop::names_steps))]
fn are_names(text: &[u8]) -> bool
    ensures { result ≡ list_all is_name (words_of text.now) }
{
    let mut rest = text;
    'words: loop {
        let (word, next) = first_word(rest);
        if !has_name_form(word) {
            return false;
        }
        match next {
            None => return true,
            Some(more) => rest = more,
        }
    }
}

/// The place of each word among the nodes, where each is a node's name.
#[tactic(auto, using(crate::proofs::WordLoop::places_steps))]
fn places_of(
    alloc: Global,
    instance: &Instance,
    text: &[u8],
) -> Result<Option<Vec<u32>>, AllocError>
    ensures { IfOk result (λ order.
        items_of order ≡ places (names_in instance.now Nodes) (words_of text.now)) }
{
    let mut order = Vec::new(alloc);
    let mut rest = text;
    'words: loop {
        let (word, next) = first_word(rest);
        match instance.index_named(Part::Nodes, word) {
            None => return Ok(None),
            Some(place) => order.push(place)?,
        }
        match next {
            None => return Ok(Some(order)),
            Some(more) => rest = more,
        }
    }
}

fn is_distinct(order: &[u32]) -> bool
    ensures { result ≡ is_distinct order.now }
{
    for k in 0..order.len() {
        if order[k + 1..].contains(&order[k]) {
            return false;
        }
    }
    true
}

/// Whether an order has as many numbers as there are nodes, and none twice.
fn is_order(instance: &Instance, order: &[u32]) -> bool
    ensures { result ≡ ((length order.now == length (names_in instance.now Nodes)) && is_distinct order.now) }
{
    order.len() == instance.nodes().len() && is_distinct(order)
}

/// The names in the order line, in one text, and the text after the line.
#[tactic(auto, unfolding(crate::specs::Reading::named_at))]
fn named_of(text: &[u8]) -> Result<(&[u8], &[u8]), PlanTextError>
    ensures { IsAnswer ⊥ (λ x. (x.0.now, x.1.now)) result (named_at text.now) }
{
    let (first, after) = line_of(ORDER_LINE, text)?;
    if first == b"order".as_slice() {
        return Err(LineFault::Order.at(ORDER_LINE));
    }
    let Some(rest) = after_keyword(b"order ", first) else {
        return Err(LineFault::Form.at(ORDER_LINE));
    };
    if !are_names(rest) {
        return Err(LineFault::Form.at(ORDER_LINE));
    }
    Ok((rest, after))
}

/// The slot order, as indices of nodes, and the text after its line. Linear in the line: only a
/// line with as many words as there are nodes is looked through for a repeated one.
#[tactic(auto, unfolding(crate::specs::Reading::order_at))]
pub fn order_of<'a>(
    alloc: Global,
    instance: &Instance,
    text: &'a [u8],
) -> Result<(Vec<u32>, &'a [u8]), PlanTextError>
    ensures value { IsAnswer (IsOk (named_at text.now)) (λ x. (x.0.items, x.1.now)) result
        (order_at (names_in instance.now Nodes) text.now) }
    ensures named { IfOk result (λ _. IsOk (named_at text.now)) }
{
    let (names, after) = named_of(text)?;
    let Some(order) = places_of(alloc, instance, names)? else {
        return Err(LineFault::Name.at(ORDER_LINE));
    };
    if !is_order(instance, &order) {
        return Err(LineFault::Order.at(ORDER_LINE));
    }
    Ok((order, after))
}
