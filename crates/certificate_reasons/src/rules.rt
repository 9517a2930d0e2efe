//! What may a step conclude?

ghost use Rattle.std.specs.Prelude.{◌≡◌};
ghost use Rattle.certificate_reasons.specs.Rules.{rule_of};

use sentences::Word::Text;
use sentences::tell;
use std::fmt;
use ttp_model::Step;

/// The rule of inference that a step takes.
#[derive(Clone, Copy, PartialEq, Eq)]
pub enum Rule {
    EsRelease,
    EsLink,
    EsBefore,
    EsArrive,
    EsMessage,
    LoSend,
    LeOwn,
    LeLink,
    LeBefore,
    LeMessage,
    LeSend,
    HiArrive,
    OrdWindow,
    OrdTwin,
    UsSettled,
    XWindow,
    XRound,
    XCycle,
    XLoad,
    XFrame,
    XFrames,
    XChannel,
    XLate,
    XSilent,
    XMirror,
}

/// The rule of a step.
pub fn rule_of(step: &Step) -> Rule
    ensures { result ≡ rule_of step.now }
{
    match step {
        Step::EsRelease(_) => Rule::EsRelease,
        Step::EsLink(_) => Rule::EsLink,
        Step::EsBefore(_, _) => Rule::EsBefore,
        Step::EsArrive(_, _) => Rule::EsArrive,
        Step::EsMessage(_, _) => Rule::EsMessage,
        Step::LoSend(_) => Rule::LoSend,
        Step::LeOwn(_) => Rule::LeOwn,
        Step::LeLink(_) => Rule::LeLink,
        Step::LeBefore(_, _) => Rule::LeBefore,
        Step::LeMessage(_, _) => Rule::LeMessage,
        Step::LeSend(_) => Rule::LeSend,
        Step::HiArrive(_, _) => Rule::HiArrive,
        Step::OrdWindow(_, _) => Rule::OrdWindow,
        Step::OrdTwin(_, _) => Rule::OrdTwin,
        Step::UsSettled(_) => Rule::UsSettled,
        Step::XWindow(_) => Rule::XWindow,
        Step::XRound(_) => Rule::XRound,
        Step::XCycle(_) => Rule::XCycle,
        Step::XLoad(..) => Rule::XLoad,
        Step::XFrame(_) => Rule::XFrame,
        Step::XFrames(..) => Rule::XFrames,
        Step::XChannel(..) => Rule::XChannel,
        Step::XLate(_, _) => Rule::XLate,
        Step::XSilent(_, _) => Rule::XSilent,
        Step::XMirror(_) => Rule::XMirror,
    }
}

impl Rule {
    /// Its keyword.
    fn keyword(self) -> &'static str {
        match self {
            Rule::EsRelease => "es-release",
            Rule::EsLink => "es-link",
            Rule::EsBefore => "es-before",
            Rule::EsArrive => "es-arrive",
            Rule::EsMessage => "es-message",
            Rule::LoSend => "lo-send",
            Rule::LeOwn => "le-own",
            Rule::LeLink => "le-link",
            Rule::LeBefore => "le-before",
            Rule::LeMessage => "le-message",
            Rule::LeSend => "le-send",
            Rule::HiArrive => "hi-arrive",
            Rule::OrdWindow => "ord-window",
            Rule::OrdTwin => "ord-twin",
            Rule::UsSettled => "us-settled",
            Rule::XWindow => "x-window",
            Rule::XRound => "x-round",
            Rule::XCycle => "x-cycle",
            Rule::XLoad => "x-load",
            Rule::XFrame => "x-frame",
            Rule::XFrames => "x-frames",
            Rule::XChannel => "x-channel",
            Rule::XLate => "x-late",
            Rule::XSilent => "x-silent",
            Rule::XMirror => "x-mirror",
        }
    }

    /// What a step of it may conclude.
    fn says(self) -> &'static str {
        match self {
            Rule::EsRelease => "a process starts at its release or later",
            Rule::EsLink => {
                "the second process of a link starts when the first can have ended, or later"
            }
            Rule::EsBefore => {
                "a process starts when one that is known to run before it on its node can have ended, or later"
            }
            Rule::EsArrive => {
                "a receiver starts when the slot of the message's first round can have ended and it is copied in, or later"
            }
            Rule::EsMessage => {
                "a receiver starts when the sender can have ended and the message is copied out, sent and copied in, or later"
            }
            Rule::LoSend => {
                "a message is sent in the first round whose slot can begin once it is copied out, or later"
            }
            Rule::LeOwn => {
                "a process ends by its deadline, by the horizon, and before the goal of the leaf"
            }
            Rule::LeLink => {
                "the first process of a link ends when the second has to start, or earlier"
            }
            Rule::LeBefore => {
                "a process ends when one that it is known to run before on its node has to start, or earlier"
            }
            Rule::LeMessage => {
                "a sender ends so early that the message is copied out, sent and copied in when a receiver has to start"
            }
            Rule::LeSend => {
                "a sender ends so early that the message is copied out when the slot of its last round begins, where one is left"
            }
            Rule::HiArrive => {
                "a message is sent before the first round whose slot ends too late for a receiver"
            }
            Rule::OrdWindow => {
                "a process ends before another of its node starts, where it would end too late the other way round"
            }
            Rule::OrdTwin => "of two twins the first in the instance ends before the second starts",
            Rule::UsSettled => {
                "a process starts when all is over that it may have to wait for, where a round is left for each message to it"
            }
            Rule::XWindow => "no plan is left, where a process can't end in time",
            Rule::XRound => "no plan is left, where a message has no round",
            Rule::XCycle => "no plan is left, where processes wait for each other in a circle",
            Rule::XLoad => {
                "no plan is left, where what has to run on a node from one tick to another takes longer than that"
            }
            Rule::XFrame => {
                "no plan is left, where a message has more bytes than any frame of its node"
            }
            Rule::XFrames => {
                "no plan is left, where what a node has to send in some rounds has more bytes than its frames"
            }
            Rule::XChannel => {
                "no plan is left, where what a node has to send in some rounds on one of two channels has more bytes than its frames"
            }
            Rule::XLate => {
                "no plan is left, where a message could be sent in a round before all that are left to it"
            }
            Rule::XSilent => {
                "no plan is left, where of two silent twins the second has the earlier slot"
            }
            Rule::XMirror => {
                "no plan is left, where the first message of a slot on one channel alone is on channel 1"
            }
        }
    }
}

impl fmt::Display for Rule {
    fn fmt<W: fmt::Write>(&self, f: &mut fmt::Formatter<W>) -> fmt::Result {
        tell(
            f,
            "{} says that {}.",
            &[Text(self.keyword()), Text(self.says())],
        )
    }
}
