//! Does a link or a message lead from one process to another?

ghost use Rattle.std.specs.Prelude.{◌≡◌, ◌==◌, ◌&&◌};
ghost use Rattle.std.specs.List.{list_any};
ghost use Rattle.rates_model.specs.Parts.{rates_of};
ghost use Rattle.rates_model.specs.Reads.{leads};

use crate::parts::{RatesLink, RatesMessage, RatesParts};

/// Whether a link with this delay does.
fn is_linked(links: &[RatesLink], p: u32, q: u32, delay: u32) -> bool
    ensures { result ≡ list_any (λ l. (l.before == p) && (l.after == q) && (l.delay == delay)) links.now }
{
    links
        .iter()
        .any(|l| l.before == p && l.after == q && l.delay == delay)
}

/// Whether a message has this receiver.
fn has_receiver(message: &RatesMessage, q: u32) -> bool
    ensures { result ≡ list_any (λ r. r == q) message.now.receivers }
{
    message.receivers.as_slice().iter().any(|r| *r == q)
}

/// Whether a message with this delay does.
fn is_sent(messages: &[RatesMessage], p: u32, q: u32, delay: u32) -> bool
    ensures { result ≡ list_any
        (λ m. (m.sender == p) && (m.delay == delay) && list_any (λ r. r == q) m.receivers) messages.now }
{
    messages.iter().any(|m| m.sender == p && m.delay == delay && has_receiver(m, q))
}

/// Whether one with this delay does.
pub fn leads(parts: &RatesParts, p: u32, q: u32, delay: u32) -> bool
    ensures { result ≡ leads (rates_of parts.now) p q delay }
{
    is_linked(&parts.links, p, q, delay) || is_sent(&parts.messages, p, q, delay)
}
