//! Which processes does the line of a cycle name?

ghost use Rattle.certificate.specs.Reading.{IsAnswer};
ghost use Rattle.certificate.specs.Numbers.{ring_at, ring_with};

use crate::fault::{CertTextError, LineFault};
use crate::numbers::{fits, is_numeral, next_word, value_of};
use std::alloc::Global;
use ttp_model::Ring;

fn ring_with(line: u64, processes: Vec<u32>, fit: bool) -> Result<Ring, CertTextError>
    ensures { IsAnswer (Unit {0}) (λ x. x) result (ring_with line processes.items fit) }
{
    if processes.len() < 2 {
        return Err(LineFault::Form.at(line));
    }
    if !fit {
        return Err(LineFault::Number.at(line));
    }
    Ok(Ring::new(processes))
}

/// The two or more processes that the words of a text are.
#[tactic(auto, unfolding(crate::specs::Numbers::ring_at))]
pub fn ring_of(alloc: Global, line: u64, text: &[u8]) -> Result<Ring, CertTextError>
    ensures { IsAnswer (Unit {0}) (λ x. x) result (ring_at line text.now) }
{
    let mut processes = Vec::new(alloc);
    let mut fit = true;
    let mut rest = text;
    'words: loop {
        let (word, next) = next_word(rest);
        if !is_numeral(word) {
            return Err(LineFault::Form.at(line));
        }
        fit &= fits(word);
        processes.push(value_of(word))?;
        match next {
            None => return ring_with(line, processes, fit),
            Some(more) => rest = more,
        }
    }
}
