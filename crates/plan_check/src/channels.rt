//! Is each message on a channel that it may be on?

ghost use Rattle.std.specs.Prelude.{◌<◌, ◌↔◌, IsTrue, length};
ghost use Rattle.ttp_model.specs.Lists.{FindsFailure};
ghost use Rattle.ttp_model.specs.Plans.{HasLengths, HasOwnChannel};

use ttp_model::{BOTH_CHANNELS, Instance, Plan};

/// The first message on a channel that it may not be on.
pub fn first_wrong_channel(instance: &Instance, plan: &Plan) -> Option<u32>
    requires { HasLengths instance.now plan.now }
    ensures { FindsFailure (length instance.now.messages) (HasOwnChannel instance.now plan.now) result }
{
    for m in 0..instance.messages().len() {
        if !has_own_channel(instance, plan, m) {
            return Some(m as u32);
        }
    }
    None
}

/// Whether a message is on a channel that is there, on the only one where there is one, and on both
/// where it is to be on both.
fn has_own_channel(instance: &Instance, plan: &Plan, m: usize) -> bool
    requires lengths { HasLengths instance.now plan.now }
    requires inside { m < length instance.now.messages }
    ensures { IsTrue result ↔ HasOwnChannel instance.now plan.now m }
{
    let channel = plan.channels.as_slice()[m];
    channel <= BOTH_CHANNELS
        && (instance.cluster().channels != 1 || channel == 0)
        && (!instance.message_at(m).both || channel == BOTH_CHANNELS)
}
