//! Which names of an order line are wrong?

ghost use Rattle.std.specs.Prelude.{◌≡◌, ◌<◌, IfSome, bytes_eq, drop, find, length};
ghost use Rattle.std.specs.List.{count_by};
ghost use Rattle.std.specs.Option.{option_map};
ghost use Rattle.line_text.specs.Parts.{seen_rest};
ghost use Rattle.plan_format.specs.Reading.{words_of};
ghost use Rattle.plan_format.specs.Words.{words_with};
ghost use Rattle.plan_reasons.specs.Orders.{first_stranger, first_uneven, is_stranger, seen_times, times_named, uneven_of};

use line_text::cut;
use sentences::{Member, write_members};
use serde::{Described, Serialize, Serializer};
use ttp_model::{Instance, Part};

/// How many bytes the keyword of an order line has, with the space behind it.
const KEYWORD: usize = 6;

/// How often an order line names a node: another time than once.
#[derive(Clone, Copy)]
pub struct TimesNamed<'a> {
    pub node: &'a str,
    pub times: u64,
}

impl<'a> Described for TimesNamed<'a> {}

impl<'a> Serialize for TimesNamed<'a> {
    fn serialize<S: Serializer>(&self, out: &mut S) -> Result<(), S::Error> {
        write_members(
            &[
                ("node", Member::Text(self.node)),
                ("times", Member::Number(self.times)),
            ],
            out,
        )
    }
}

/// The first word of an order line that is no node's name.
pub fn stranger<'a>(instance: &Instance, line: &'a [u8]) -> Option<&'a [u8]>
    ensures { seen_rest result ≡ first_stranger instance.now line.now }
{
    first_stranger(instance, behind_keyword(line))
}

/// The first node that an order line doesn't name just once.
pub fn uneven<'a>(instance: &'a Instance, line: &[u8]) -> Option<TimesNamed<'a>>
    ensures { option_map seen_times result ≡ uneven_of instance.now line.now }
{
    let n = first_uneven(instance, line)?;
    let node = instance.node_name(n);
    Some(TimesNamed {
        node,
        times: times_named(line, node.as_bytes()),
    })
}

/// What stands behind the keyword of an order line.
fn behind_keyword(line: &[u8]) -> &[u8]
    ensures { result.now ≡ drop 6 line.now }
{
    if line.len() < KEYWORD {
        return b"";
    }
    let (_keyword, names) = line.split_at(KEYWORD);
    names
}

/// The first word, and the text behind the space after it, if there is one.
fn first_word(text: &[u8]) -> (&[u8], Option<&[u8]>)
    ensures words { words_of text.now ≡ words_with result.0.now (seen_rest result.1) }
    ensures shorter { IfSome result.1 (λ more. length more.now < length text.now) }
{
    match cut(b' ', text) {
        None => (text, None),
        Some((word, more)) => (word, Some(more)),
    }
}

/// Whether a word is no node's name.
fn is_stranger(instance: &Instance, word: &[u8]) -> bool
    ensures { result ≡ is_stranger instance.now word.now }
{
    instance.index_named(Part::Nodes, word).is_none()
}

/// The first word that is none.
#[tactic(auto, using(crate::proofs::Words::strangers_steps))]
fn first_stranger<'a>(instance: &Instance, text: &'a [u8]) -> Option<&'a [u8]>
    ensures { seen_rest result ≡ find (is_stranger instance.now) (words_of text.now) }
{
    let mut rest = text;
    'words: loop {
        let (word, next) = first_word(rest);
        if is_stranger(instance, word) {
            return Some(word);
        }
        match next {
            None => return None,
            Some(more) => rest = more,
        }
    }
}

/// How often a name stands in an order line.
fn times_named(line: &[u8], name: &[u8]) -> u64
    ensures { result ≡ times_named line.now name.now }
{
    count_of(behind_keyword(line), name)
}

/// How often it stands among the words of a text.
fn count_of(text: &[u8], name: &[u8]) -> u64
    ensures { result ≡ count_by (λ word. bytes_eq word name.now) (words_of text.now) }
{
    let mut seen = 0u64;
    let mut rest = text;
    'words: loop {
        let (word, next) = first_word(rest);
        if word == name {
            seen += 1;
        }
        match next {
            None => return seen,
            Some(more) => rest = more,
        }
    }
}

/// The first node that an order line doesn't name just once.
fn first_uneven(instance: &Instance, line: &[u8]) -> Option<usize>
    ensures value { result ≡ first_uneven instance.now line.now }
    ensures within { IfSome result (λ n. n < length instance.now.nodes) }
{
    for n in 0..instance.nodes().len() {
        if times_named(line, instance.node_name(n).as_bytes()) != 1 {
            return Some(n);
        }
    }
    None
}
