//! Which processes are on another node, or take another time?

ghost use Rattle.std.specs.Prelude.{◌≡◌, ◌++◌, IfOk, OnOk};
ghost use Rattle.std.specs.List.{flat_map};
ghost use Rattle.plan_changes.specs.Attributes.{attribute_difference, attribute_keyword, attribute_line, attribute_word, attributes_text};

use crate::names::names_of_either;
use crate::planned::Planned;
use line_text::{push_number, push_word};
use std::alloc::{AllocError, Global};
use ttp_model::{MemoryFault, Part};

/// What an instance gives for each process, whenever it runs.
#[derive(Clone, Copy, PartialEq, Eq)]
pub enum Attribute {
    /// The node that it is on.
    Node,
    /// How many ticks it takes.
    Wcet,
}

/// What its line begins with.
fn attribute_keyword(attribute: Attribute) -> &'static [u8]
    ensures { result.now ≡ attribute_keyword attribute }
{
    match attribute {
        Attribute::Node => b"node ",
        Attribute::Wcet => b"wcet ",
    }
}

/// The word for it, of the process of a name; `-` where there is no such process.
#[tactic(auto, unfolding(crate::specs::Attributes::attribute_word))]
fn attribute_word(
    alloc: Global,
    attribute: Attribute,
    planned: &Planned,
    name: &[u8],
) -> Result<Vec<u8>, AllocError>
    ensures { IfOk result (λ word. word.items ≡ attribute_word attribute planned.now name.now) }
{
    let instance = planned.instance();
    let Some(p) = instance.index_named(Part::Processes, name) else {
        return Vec::from_slice(alloc, b"-");
    };
    match attribute {
        Attribute::Node => {
            let node = &instance.nodes()[instance.node_of(p as usize) as usize];
            Vec::from_slice(alloc, node.name.as_bytes())
        }
        Attribute::Wcet => {
            let mut word = Vec::new(alloc);
            push_number(&mut word, u64::from(instance.process_at(p as usize).wcet))?;
            Ok(word)
        }
    }
}

/// Adds the line of a process with the old word and the new one.
#[tactic(auto, unfolding(crate::specs::Attributes::attribute_line))]
fn push_line(
    text: &mut Vec<u8>,
    attribute: Attribute,
    name: &[u8],
    old: &[u8],
    new: &[u8],
) -> Result<(), AllocError>
    ensures { OnOk result (text.new.items ≡ text.old.items ++ attribute_line attribute name.now old.now new.now) }
{
    text.extend_from_slice(attribute_keyword(attribute))?;
    text.extend_from_slice(name)?;
    push_word(text, old)?;
    push_word(text, new)?;
    text.push(b'\n')?;
    Ok(())
}

/// Adds it, where they are different.
#[tactic(auto, unfolding(crate::specs::Attributes::attribute_difference))]
fn push_difference(
    text: &mut Vec<u8>,
    attribute: Attribute,
    name: &[u8],
    old: &[u8],
    new: &[u8],
) -> Result<(), AllocError>
    ensures { OnOk result (text.new.items ≡ text.old.items ++ attribute_difference attribute name.now old.now new.now) }
{
    if old == new {
        return Ok(());
    }
    push_line(text, attribute, name, old, new)
}

/// Adds what is different of a process.
fn push_attribute(
    alloc: Global,
    text: &mut Vec<u8>,
    old: &Planned,
    new: &Planned,
    attribute: Attribute,
    name: &[u8],
) -> Result<(), AllocError>
    ensures { OnOk result (text.new.items ≡ text.old.items
        ++ attribute_difference attribute name.now (attribute_word attribute old.now name.now) (attribute_word attribute new.now name.now)) }
{
    let before = attribute_word(alloc, attribute, old, name)?;
    let after = attribute_word(alloc, attribute, new, name)?;
    push_difference(text, attribute, name, before.as_slice(), after.as_slice())
}

/// Adds what is different of the processes of these names.
fn push_named(
    alloc: Global,
    text: &mut Vec<u8>,
    old: &Planned,
    new: &Planned,
    attribute: Attribute,
    names: &[&[u8]],
) -> Result<(), AllocError>
    ensures { OnOk result (text.new.items ≡ text.old.items
        ++ flat_map (λ n. attribute_difference attribute n.now (attribute_word attribute old.now n.now) (attribute_word attribute new.now n.now)) names.now) }
{
    for name in names {
        push_attribute(alloc, text, old, new, attribute, name)?;
    }
    Ok(())
}

/// Adds what is different of the processes of either, name by name.
pub fn push_attributes(
    alloc: Global,
    text: &mut Vec<u8>,
    old: &Planned,
    new: &Planned,
    attribute: Attribute,
) -> Result<(), MemoryFault>
    ensures { OnOk result (text.new.items ≡ text.old.items ++ attributes_text old.now new.now attribute) }
{
    let names = names_of_either(alloc, old.instance(), new.instance(), Part::Processes)?;
    push_named(alloc, text, old, new, attribute, names.as_slice())?;
    Ok(())
}
