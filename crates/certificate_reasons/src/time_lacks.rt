//! Which times and rounds are there that leave plans?

ghost use Rattle.std.specs.Prelude.{◌≡◌, ◌<◌, ◌≤◌, ◌↔◌, IsTrue, length};
ghost use Rattle.sought_plans.specs.Dominance.{HasRounds, IsSentTo};
ghost use Rattle.sought_plans.specs.Known.{le_of, lo_of, top_of};
ghost use Rattle.sought_plans.specs.Premises.{least_end};
ghost use Rattle.certificate_reasons.specs.TimeLacks.{IsNoRound, IsNoRoundTo, IsRoundLeft, IsWindowLeft};

use sentences::Word::{Number, Text};
use sentences::tell;
use sought_plans::least_end;
use std::fmt;
use tt_infer::{Facts, receives};

/// A round that isn't left, or times and rounds that are; in ticks.
#[derive(Clone, Copy)]
pub enum TimeLack<'a> {
    /// No round is left for a message: it is sent before round 0.
    NoRound {
        message: &'a str,
    },
    /// A process ends at one tick or later, and at another that is no earlier.
    Window {
        process: &'a str,
        least: u64,
        most: u32,
    },
    /// A message is sent in one round or later, and before another behind it.
    Rounds {
        message: &'a str,
        least: u32,
        late: u32,
    },
}

/// No round is left for message `m`.
#[tactic(auto, using(crate::proofs::Failing::none))]
pub fn no_round<'a>(facts: &Facts<'a>, m: u32) -> TimeLack<'a>
    requires inside { m < length facts.now.instance.messages }
    requires lacks { ¬ (1 ≤ top_of facts.now.known m) }
    ensures { IsNoRound facts.now.instance facts.now.known m result }
{
    TimeLack::NoRound {
        message: facts.instance().message_name(m as usize),
    }
}

/// Whether message `m` is to process `p`, and no round is left for it.
fn has_no_round(facts: &Facts, p: u32, m: u32) -> bool
    requires { m < length facts.now.instance.messages }
    ensures { IsTrue result ↔ (IsSentTo facts.now.instance p m × (top_of facts.now.known m ≡ 0)) }
{
    receives(facts.instance(), m, p) && facts.top(m) == 0
}

/// The first message to process `p` for which no round is left. A pass over the receivers of each message.
pub fn no_round_to<'a>(facts: &Facts<'a>, p: u32) -> TimeLack<'a>
    requires { ¬ HasRounds facts.now.instance facts.now.known p }
    ensures { IsNoRoundTo facts.now.instance facts.now.known p result }
{
    let count = facts.instance().messages().len();
    for m in 0..count {
        if has_no_round(facts, p, m as u32) {
            return no_round(facts, m as u32);
        }
    }
    unreachable!()
}

/// Process `p` can end in time.
#[tactic(auto, using(crate::proofs::Failing::at_least))]
pub fn window_left<'a>(facts: &Facts<'a>, p: u32) -> TimeLack<'a>
    requires inside { p < length facts.now.instance.processes }
    requires lacks { ¬ (le_of facts.now.known p < least_end facts.now.instance facts.now.known p) }
    ensures { IsWindowLeft facts.now.instance facts.now.known p result }
{
    TimeLack::Window {
        process: facts.instance().process_name(p as usize),
        least: least_end(facts.known(), facts.instance(), p),
        most: facts.le(p),
    }
}

/// Message `m` has a round.
#[tactic(auto, using(crate::proofs::Failing::above))]
pub fn round_left<'a>(facts: &Facts<'a>, m: u32) -> TimeLack<'a>
    requires inside { m < length facts.now.instance.messages }
    requires lacks { ¬ (top_of facts.now.known m ≤ lo_of facts.now.known m) }
    ensures { IsRoundLeft facts.now.instance facts.now.known m result }
{
    TimeLack::Rounds {
        message: facts.instance().message_name(m as usize),
        least: facts.lo(m),
        late: facts.top(m),
    }
}

impl<'a> fmt::Display for TimeLack<'a> {
    fn fmt<W: fmt::Write>(&self, f: &mut fmt::Formatter<W>) -> fmt::Result {
        match *self {
            TimeLack::NoRound { message } => {
                tell(
                    f,
                    "{} is sent before round 0: no round is left to it",
                    &[Text(message)],
                )
            }
            TimeLack::Window {
                process,
                least,
                most,
            } => {
                tell(
                    f,
                    "{} ends at {} or later, and at {} or earlier: that can be",
                    &[Text(process), Number(least), Number(u64::from(most))],
                )
            }
            TimeLack::Rounds {
                message,
                least,
                late,
            } => {
                tell(
                    f,
                    "{} is sent in round {} or later, and before round {}: that can be",
                    &[
                        Text(message),
                        Number(u64::from(least)),
                        Number(u64::from(late)),
                    ],
                )
            }
        }
    }
}
