//! What does a text tell of channels?

ghost use Rattle.std.specs.Prelude.{◌≡◌};
ghost use Rattle.line_text.specs.Results.{or_fault};
ghost use Rattle.plan_format.specs.declared.fault.LineFault.TheVariants.{Form};
ghost use Rattle.plan_format.specs.Channels.{has_two_channels, first_line, channel_word, channel_said};
ghost use Rattle.plan_format.specs.Reading.{IsAnswer};

use crate::fault::{LineFault, PlanTextError};
use ttp_model::{BOTH_CHANNELS, Instance};

/// Whether the cluster has two channels.
pub fn has_two_channels(instance: &Instance) -> bool
    ensures { result ≡ has_two_channels instance.now }
{
    instance.cluster().channels == 2
}

/// The first line of a text for the instance.
#[tactic(auto, unfolding(crate::specs::Channels::first_line))]
pub fn first_line(instance: &Instance) -> &'static [u8]
    ensures { result.now ≡ first_line instance.now }
{
    if has_two_channels(instance) {
        b"ttplan 2"
    } else {
        b"ttplan 1"
    }
}

/// The word for a channel's number in a plan.
pub fn channel_word(channel: u32) -> &'static [u8]
    ensures { result.now ≡ channel_word channel }
{
    if channel == 0 {
        b"0"
    } else if channel == 1 {
        b"1"
    } else {
        b"both"
    }
}

/// The number whose word this is.
pub fn channel_in(line: u32, word: &[u8]) -> Result<u32, PlanTextError>
    ensures { IsAnswer ⊥ (λ x. x) result (or_fault (PlanTextError.At line Form) (channel_said word.now)) }
{
    if word == b"0".as_slice() {
        return Ok(0);
    }
    if word == b"1".as_slice() {
        return Ok(1);
    }
    if word == b"both".as_slice() {
        return Ok(BOTH_CHANNELS);
    }
    Err(LineFault::Form.at(line))
}
