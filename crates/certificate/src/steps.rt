//! Which step does a line say?

ghost use Rattle.certificate.specs.Words.{step_words, steps_with};
ghost use Rattle.certificate.specs.Versions.{allows_step};
ghost use Rattle.certificate.specs.Reading.{IsAnswer, said_in};

use crate::fault::{CertTextError, LineFault};
use crate::numbers::words_of;
use crate::ring::ring_of;
use crate::version::Version;
use line_text::cut;
use std::alloc::Global;
use tt_infer::step_with;
use ttp_model::Step;

/// The step that a line says, in a text of this version. Takes memory for the processes of a cycle alone.
#[tactic(auto, unfolding(crate::specs::Reading::said_in))]
pub fn step_in(
    alloc: Global,
    version: Version,
    line: u64,
    text: &[u8],
) -> Result<Step, CertTextError>
    ensures { IsAnswer (Unit {0}) (λ x. x) result (said_in step_words steps_with (allows_step version) line text.now) }
{
    let Some((keyword, rest)) = cut(b' ', text) else {
        return Err(LineFault::Form.at(line));
    };
    if keyword == b"x-cycle".as_slice() {
        let ring = ring_of(alloc, line, rest)?;
        return Ok(Step::XCycle(ring));
    }
    let words = words_of(line, rest)?;
    let Some(step) = step_with(keyword, words.numbers()) else {
        return Err(LineFault::Form.at(line));
    };
    if !version.allows_step(&step) {
        return Err(LineFault::Form.at(line));
    }
    if !words.fit() {
        return Err(LineFault::Number.at(line));
    }
    Ok(step)
}
