//! What does the line of a node say?

ghost use Rattle.std.specs.Prelude.{◌≡◌, ◌∷◌, []};
ghost use Rattle.certificate.specs.Words.{branch_row, head_words, heads_with, channel_heads, head_children};
ghost use Rattle.certificate.specs.Versions.{allows_head};
ghost use Rattle.certificate.specs.Reading.{IsAnswer, said_in, with_keyword};
ghost use Rattle.certificate.specs.Numbers.{numbers_in, row_of};

use crate::branch::Branch;
use crate::fault::{CertTextError, LineFault};
use crate::numbers::words_of;
use crate::version::Version;
use line_text::cut;
use tt_infer::{FewNumbers, Line, channel_line, plain_line};
use ttp_model::Kind;

/// What a node's line says: all of a branch, and of a leaf its goal and how many steps follow.
#[derive(Clone, Copy, PartialEq, Eq)]
pub enum Head {
    OfBranch(Branch),
    OfLeaf(u32, u32),
}

impl Head {
    /// How many children the node has.
    pub fn children(self) -> u32
        ensures { result ≡ head_children self }
    {
        match self {
            Head::OfBranch(branch) => branch.children,
            Head::OfLeaf(_, _) => 0,
        }
    }
}

/// The line of a branch of this kind, with so many children.
pub fn branch_line(kind: Kind, children: u32) -> Line<'static>
    ensures { row_of result ≡ branch_row kind children }
{
    match kind {
        Kind::Place => plain_line(b"place", FewNumbers::One(children)),
        Kind::Cap(n) => plain_line(b"cap", FewNumbers::Two(n, children)),
        Kind::Pair(p, q) => plain_line(b"pair", FewNumbers::Two(p, q)),
        Kind::Round(m, r) => plain_line(b"round", FewNumbers::Two(m, r)),
        Kind::Chan(m) => channel_line(b"chan", FewNumbers::Two(m, children)),
    }
}

/// The count stands in the line, and is always that of the kind.
fn with_channel(keyword: &[u8], message: u32, count: u32) -> Option<Head>
    ensures { result ≡ with_keyword head_words keyword.now (channel_heads message count) }
{
    if count != 3 {
        return None;
    }
    if keyword == b"chan".as_slice() {
        return Some(Head::OfBranch(Branch::new(Kind::Chan(message), 3)));
    }
    None
}

fn with_two(keyword: &[u8], a: u32, b: u32) -> Option<Head>
    ensures { result ≡ with_keyword head_words keyword.now (heads_with (a ∷ b ∷ [])) }
{
    if keyword == b"cap".as_slice() {
        return Some(Head::OfBranch(Branch::new(Kind::Cap(a), b)));
    }
    if keyword == b"pair".as_slice() {
        return Some(Head::OfBranch(Branch::new(Kind::Pair(a, b), 2)));
    }
    if keyword == b"round".as_slice() {
        return Some(Head::OfBranch(Branch::new(Kind::Round(a, b), 2)));
    }
    if keyword == b"leaf".as_slice() {
        return Some(Head::OfLeaf(a, b));
    }
    with_channel(keyword, a, b)
}

fn with_few(keyword: &[u8], numbers: FewNumbers) -> Option<Head>
    ensures { result ≡ with_keyword head_words keyword.now (heads_with (numbers_in numbers)) }
{
    match numbers {
        FewNumbers::One(k) if keyword == b"place".as_slice() => {
            Some(Head::OfBranch(Branch::new(Kind::Place, k)))
        }
        FewNumbers::Two(a, b) => with_two(keyword, a, b),
        _ => None,
    }
}

/// What the line of a node says, in a text of this version.
#[tactic(auto, unfolding(crate::specs::Reading::said_in))]
pub fn head_in(version: Version, line: u64, text: &[u8]) -> Result<Head, CertTextError>
    ensures { IsAnswer ⊥ (λ x. x) result (said_in head_words heads_with (allows_head version) line text.now) }
{
    let Some((keyword, rest)) = cut(b' ', text) else {
        return Err(LineFault::Form.at(line));
    };
    let words = words_of(line, rest)?;
    let Some(head) = with_few(keyword, words.numbers()) else {
        return Err(LineFault::Form.at(line));
    };
    if !version.allows_head(head) {
        return Err(LineFault::Form.at(line));
    }
    if !words.fit() {
        return Err(LineFault::Number.at(line));
    }
    Ok(head)
}
