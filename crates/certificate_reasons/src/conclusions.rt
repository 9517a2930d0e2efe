//! What is known of a fact after a step, and what was before it?

ghost use Rattle.certificate_reasons.specs.Conclusions.{IsConclusion};

use sentences::Word::{Number, Text};
use sentences::tell;
use std::fmt;
use tt_infer::Fact;
use ttp_model::Instance;

/// What is known after a step, and what was before it; in ticks and rounds.
#[derive(Clone, Copy)]
pub enum Conclusion<'a> {
    StartsFrom {
        process: &'a str,
        before: u32,
        after: u32,
    },
    EndsUntil {
        process: &'a str,
        before: u32,
        after: u32,
    },
    SentFrom {
        message: &'a str,
        before: u32,
        after: u32,
    },
    SentBefore {
        message: &'a str,
        before: u32,
        after: u32,
    },
    GoesFirst {
        process: &'a str,
        other: &'a str,
    },
    NoPlanLeft,
}

/// What is known of a fact, with what was before.
pub fn conclusion_of<'a>(
    instance: &'a Instance,
    fact: Fact,
    before: u32,
    after: u32,
) -> Conclusion<'a>
    ensures { IsConclusion instance.now fact before after result }
{
    match fact {
        Fact::Start(p) => Conclusion::StartsFrom {
            process: instance.process_name(p as usize),
            before,
            after,
        },
        Fact::End(p) => Conclusion::EndsUntil {
            process: instance.process_name(p as usize),
            before,
            after,
        },
        Fact::FirstRound(m) => Conclusion::SentFrom {
            message: instance.message_name(m as usize),
            before,
            after,
        },
        Fact::LateRound(m) => Conclusion::SentBefore {
            message: instance.message_name(m as usize),
            before,
            after,
        },
        Fact::Order(p, q) => Conclusion::GoesFirst {
            process: instance.process_name(p as usize),
            other: instance.process_name(q as usize),
        },
        Fact::Closed => Conclusion::NoPlanLeft,
    }
}

impl<'a> fmt::Display for Conclusion<'a> {
    fn fmt<W: fmt::Write>(&self, f: &mut fmt::Formatter<W>) -> fmt::Result {
        match *self {
            Conclusion::StartsFrom {
                process,
                before,
                after,
            } => tell(
                f,
                "{} starts at {} or later (before: {})",
                &[
                    Text(process),
                    Number(u64::from(after)),
                    Number(u64::from(before)),
                ],
            ),
            Conclusion::EndsUntil {
                process,
                before,
                after,
            } => tell(
                f,
                "{} ends at {} or earlier (before: {})",
                &[
                    Text(process),
                    Number(u64::from(after)),
                    Number(u64::from(before)),
                ],
            ),
            Conclusion::SentFrom {
                message,
                before,
                after,
            } => {
                tell(
                    f,
                    "{} is sent in round {} or later (before: {})",
                    &[
                        Text(message),
                        Number(u64::from(after)),
                        Number(u64::from(before)),
                    ],
                )
            }
            Conclusion::SentBefore {
                message,
                before,
                after,
            } => tell(
                f,
                "{} is sent before round {} (before: {})",
                &[
                    Text(message),
                    Number(u64::from(after)),
                    Number(u64::from(before)),
                ],
            ),
            Conclusion::GoesFirst { process, other } => {
                tell(f, "{} ends before {} starts", &[Text(process), Text(other)])
            }
            Conclusion::NoPlanLeft => f.write_str("no plan is left"),
        }
    }
}
