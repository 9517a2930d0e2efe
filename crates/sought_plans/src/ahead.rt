//! Does a process wait for another?

ghost use Rattle.std.specs.Prelude.{◌↔◌, IsTrue};
ghost use Rattle.ttp_model.specs.Graph.{HasMessage, Leads};
ghost use Rattle.sought_plans.specs.Premises.{IsAhead};

use crate::known::Known;
use ttp_model::{Instance, has_link};

/// Whether `p` sends a message to `q`.
fn has_message(instance: &Instance, p: u32, q: u32) -> bool
    ensures { IsTrue result ↔ HasMessage instance.now p q }
{
    for m in 0..instance.messages().len() {
        let message = instance.message_at(m);
        if message.sender == p && message.receivers.contains(q) {
            return true;
        }
    }
    false
}

/// Whether a link or a message leads from `p` to `q`.
pub fn leads(instance: &Instance, p: u32, q: u32) -> bool
    ensures { IsTrue result ↔ Leads instance.now p q }
{
    has_link(instance, p, q) || has_message(instance, p, q)
}

/// Whether `p` is known to go before `q`, or a link or a message leads from `p` to `q`.
pub fn is_ahead(known: &Known, instance: &Instance, p: u32, q: u32) -> bool
    ensures { IsTrue result ↔ IsAhead instance.now known.now p q }
{
    known.bef(p, q) || leads(instance, p, q)
}
