//! How is a certificate written?

ghost use Rattle.std.specs.Prelude.{◌≡◌, ◌++◌, ◌∷◌, [], All, IfOk, OnOk};
ghost use Rattle.std.specs.List.{flat_map};
ghost use Rattle.certificate.specs.Words.{branch_words, head_words, head_of};
ghost use Rattle.certificate.specs.Numbers.{numbers_in, row_of};
ghost use Rattle.certificate.specs.Versions.{Allows};
ghost use Rattle.certificate.specs.Spelling.{Fit, spaced, line_with, step_text, node_text, StepHasText, NodeHasText, SpellsCert};

use crate::branch::Branch;
use crate::cert::Cert;
use crate::head::branch_line;
use crate::node::Node;
use line_text::push_number;
use std::alloc::{AllocError, Global};
use tt_infer::{FewNumbers, Line, LineNumbers, line_of};
use ttp_model::{MemoryFault, Step};

#[tactic(auto, unfolding(crate::specs::Spelling::spaced))]
fn push_spaced(text: &mut Vec<u8>, number: u32) -> Result<(), AllocError>
    ensures { OnOk result (text.new.items ≡ text.old.items ++ spaced number) }
{
    text.push(b' ')?;
    push_number(text, number as u64)
}

fn push_line(text: &mut Vec<u8>, keyword: &[u8], numbers: &[u32]) -> Result<(), AllocError>
    ensures line { OnOk result (text.new.items ≡
        text.old.items ++ ((keyword.now ++ flat_map spaced numbers.now) ++ 10 ∷ [])) }
    ensures fit { Fit numbers.now }
{
    text.extend_from_slice(keyword)?;
    for number in numbers {
        push_spaced(text, *number)?;
    }
    text.push(b'\n')?;
    Ok(())
}

fn push_few(text: &mut Vec<u8>, keyword: &[u8], numbers: FewNumbers) -> Result<(), AllocError>
    ensures line { OnOk result (text.new.items ≡
        text.old.items ++ ((keyword.now ++ flat_map spaced (numbers_in numbers)) ++ 10 ∷ [])) }
    ensures fit { Fit (numbers_in numbers) }
{
    match numbers {
        FewNumbers::One(a) => push_line(text, keyword, &[a]),
        FewNumbers::Two(a, b) => push_line(text, keyword, &[a, b]),
        FewNumbers::Three(a, b, c) => push_line(text, keyword, &[a, b, c]),
        FewNumbers::Four(a, b, c, d) => push_line(text, keyword, &[a, b, c, d]),
    }
}

fn push_row(text: &mut Vec<u8>, line: Line<'_>) -> Result<(), AllocError>
    ensures line { OnOk result (text.new.items ≡
        text.old.items ++ (line_with (row_of line.entry).words ++ 10 ∷ [])) }
    ensures fit { Fit (row_of line.entry).words.1 }
{
    match line.numbers {
        LineNumbers::Few(numbers) => push_few(text, line.keyword, numbers),
        LineNumbers::Ring(processes) => push_line(text, line.keyword, processes),
    }
}

#[tactic(auto, unfolding(crate::specs::Spelling::step_text))]
fn push_step(text: &mut Vec<u8>, step: &Step) -> Result<(), AllocError>
    ensures text { OnOk result (text.new.items ≡ text.old.items ++ step_text step.now) }
    ensures fits { StepHasText step.now }
{
    push_row(text, line_of(step))
}

fn push_steps(text: &mut Vec<u8>, steps: &[Step]) -> Result<(), AllocError>
    ensures text { OnOk result (text.new.items ≡
        text.old.items ++ flat_map step_text steps.now) }
    ensures fits { OnOk result (All StepHasText steps.now) }
{
    for step in steps {
        push_step(text, step)?;
    }
    Ok(())
}

fn push_branch(text: &mut Vec<u8>, branch: Branch) -> Result<(), AllocError>
    ensures text { OnOk result (text.new.items ≡
        text.old.items ++ (line_with (branch_words branch.kind branch.children) ++ 10 ∷ [])) }
    ensures fits { Fit (branch_words branch.kind branch.children).1 }
{
    push_row(text, branch_line(branch.kind, branch.children))
}

#[tactic(auto, unfolding(crate::specs::Spelling::node_text))]
fn push_node(text: &mut Vec<u8>, node: &Node) -> Result<(), AllocError>
    ensures text { OnOk result (text.new.items ≡ text.old.items ++ node_text node.now) }
    ensures fits { OnOk result (NodeHasText node.now) }
{
    match node {
        Node::Branch(branch) => push_branch(text, *branch),
        Node::Leaf(leaf) => {
            let steps = leaf.steps.as_slice();
            push_line(text, b"leaf", &[leaf.goal, steps.len() as u32])?;
            push_steps(text, steps)
        }
    }
}

fn push_nodes(text: &mut Vec<u8>, nodes: &[Node]) -> Result<(), AllocError>
    ensures text { OnOk result (text.new.items ≡
        text.old.items ++ flat_map node_text nodes.now) }
    ensures fits { OnOk result (All NodeHasText nodes.now) }
{
    for node in nodes {
        push_node(text, node)?;
    }
    Ok(())
}

/// The text of a certificate whose version allows all its lines. Linear in the text.
pub fn print(alloc: Global, cert: &Cert) -> Result<Vec<u8>, MemoryFault>
    requires { Allows cert.now.version cert.now.tree }
    ensures { IfOk result (λ text. SpellsCert text.items cert.now) }
{
    let mut text = Vec::new(alloc);
    text.extend_from_slice(cert.version().line())?;
    text.push(b'\n')?;
    push_line(&mut text, b"low", &[cert.low()])?;
    push_nodes(&mut text, cert.nodes())?;
    Ok(text)
}
