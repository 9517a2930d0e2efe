//! In which sentences is it told which rule is broken?

use crate::parts::RatesTimes;
use crate::rules::RatesRuleReason;
use instance_reasons::Spot;
use rates_model::{LEAST_THROUGH, MOST_CHAINS, MOST_DELAY, MOST_THROUGH, RatesPart};
use rates_text::RatesKey;
use sentences::Word::{Count, Number, Text, Ticks, Told};
use sentences::{Counted, tell};
use std::fmt;
use std::fmt::Display;
use ttp_model::{MOST_LINKS, MOST_MESSAGES, MOST_NODES, MOST_PROCESSES, MOST_TICKS};

/// What a list has: one, several, and how many at least and at most.
fn entries_of(list: RatesPart) -> (&'static str, &'static str, usize, usize) {
    match list {
        RatesPart::Nodes => ("node", "nodes", 1, MOST_NODES),
        RatesPart::Processes => ("process", "processes", 1, MOST_PROCESSES),
        RatesPart::Links => ("link", "links", 0, MOST_LINKS),
        RatesPart::Messages => ("message", "messages", 0, MOST_MESSAGES),
        RatesPart::Chains => ("chain", "chains", 0, MOST_CHAINS),
    }
}

/// Which numbers may stand at a key.
fn range_at(key: RatesKey) -> (u64, u64) {
    match key {
        RatesKey::Delay => (0, u64::from(MOST_DELAY)),
        _ => (1, u64::from(MOST_TICKS)),
    }
}

/// How many ticks in which the number at a key is told make one of the text, where so many of all times do.
fn finer_at(key: RatesKey, finer: u32) -> u32 {
    match key {
        RatesKey::Store | RatesKey::Period | RatesKey::Age => finer,
        _ => 1,
    }
}

/// Ends a sentence whose numbers are in ticks of which so many make one of the text.
fn end_in_ticks<W: fmt::Write>(f: &mut fmt::Formatter<W>, finer: u32) -> fmt::Result {
    if finer == 1 {
        return f.write_str(".\n");
    }
    tell(
        f,
        ", in ticks of which {} make one of the text.\n",
        &[Number(u64::from(finer))],
    )
}

/// Tells how many entries a list has, and may have.
fn tell_count<W: fmt::Write>(
    f: &mut fmt::Formatter<W>,
    list: RatesPart,
    number: u64,
) -> fmt::Result {
    let (one, many, least, most) = entries_of(list);
    tell(
        f,
        "The text has {}, and may have {} to {}.\n",
        &[
            Count(Counted { number, one, many }),
            Number(least as u64),
            Number(most as u64),
        ],
    )
}

/// Tells through how many processes a chain leads, and may lead.
fn tell_through<W: fmt::Write>(f: &mut fmt::Formatter<W>, spot: Spot, number: u64) -> fmt::Result {
    spot.tell_within(f)?;
    tell(
        f,
        "it leads through {}, and may lead through {} to {}.\n",
        &[
            Count(Counted {
                number,
                one: "process",
                many: "processes",
            }),
            Number(LEAST_THROUGH as u64),
            Number(MOST_THROUGH as u64),
        ],
    )
}

/// Tells which number is outside its range, where so many ticks of all times make one of the text.
fn tell_outside<W: fmt::Write>(
    f: &mut fmt::Formatter<W>,
    spot: Spot,
    key: RatesKey,
    number: u32,
    finer: u32,
) -> fmt::Result {
    let (least, most) = range_at(key);
    spot.tell_within(f)?;
    tell(
        f,
        "{} is {}, and from {} to {} may stand",
        &[
            Text(key.text()),
            Number(u64::from(number)),
            Number(least),
            Number(most),
        ],
    )?;
    end_in_ticks(f, finer_at(key, finer))
}

/// Tells which process has no room in its period.
fn tell_no_room<W: fmt::Write>(
    f: &mut fmt::Formatter<W>,
    spot: Spot,
    times: RatesTimes,
    finer: u32,
) -> fmt::Result {
    spot.tell_within(f)?;
    let (release, wcet) = (u64::from(times.release), u64::from(times.wcet));
    let (deadline, period) = (u64::from(times.deadline), u64::from(times.period));
    tell(
        f,
        "released at {} it takes {} and ends at {}; its deadline is {}, and its period {}",
        &[
            Number(release),
            Ticks(wcet),
            Number(release + wcet),
            Number(deadline),
            Number(period),
        ],
    )?;
    end_in_ticks(f, finer)
}

/// Tells what reads nothing of what stands before it in a chain.
fn tell_unread<W: fmt::Write>(
    f: &mut fmt::Formatter<W>,
    spot: Spot,
    before: &str,
    process: &str,
) -> fmt::Result {
    spot.tell_within(f)?;
    tell(
        f,
        "process {} reads nothing of {}, by no link and no message.\n",
        &[Told(process), Told(before)],
    )
}

/// Tells what is wrong in a table, in words alone.
fn tell_at<W: fmt::Write>(f: &mut fmt::Formatter<W>, spot: Spot, wrong: &str) -> fmt::Result {
    spot.tell_within(f)?;
    f.write_str(wrong)
}

/// Tells that the slots take longer than the round that is asked for.
fn tell_short_round<W: fmt::Write>(
    f: &mut fmt::Formatter<W>,
    slots: u128,
    round: u32,
) -> fmt::Result {
    write!(f, "The slots take {slots}")?;
    tell(
        f,
        " ticks, and the round that is asked for has {}.\n",
        &[Number(u64::from(round))],
    )
}

/// Tells that the periods begin together too seldom.
fn tell_long_cycle<W: fmt::Write>(f: &mut fmt::Formatter<W>, finer: u32) -> fmt::Result {
    tell(
        f,
        "The least common multiple of all periods is above {}",
        &[Number(u64::from(MOST_TICKS))],
    )?;
    end_in_ticks(f, finer)
}

/// Tells that a round takes longer than a cycle.
fn tell_long_round<W: fmt::Write>(
    f: &mut fmt::Formatter<W>,
    round: u128,
    cycle: u32,
    finer: u32,
) -> fmt::Result {
    write!(f, "A round takes {round}")?;
    tell(
        f,
        " ticks, and the cycle, the least common multiple of all periods, has {}",
        &[Number(u64::from(cycle))],
    )?;
    end_in_ticks(f, finer)
}

impl<'a> fmt::Display for RatesRuleReason<'a> {
    fn fmt<W: fmt::Write>(&self, f: &mut fmt::Formatter<W>) -> fmt::Result {
        match self {
            RatesRuleReason::Count { list, entries } => tell_count(f, *list, *entries),
            RatesRuleReason::NoReceiver { spot } => tell_at(f, *spot, "there is no receiver.\n"),
            RatesRuleReason::Through { spot, entries } => tell_through(f, *spot, *entries),
            RatesRuleReason::Malformed(reason) => reason.fmt(f),
            RatesRuleReason::Repeated { spot } => tell_at(
                f,
                *spot,
                "one before it in its list has the same name.\n",
            ),
            RatesRuleReason::NoSuchIndex { spot } => {
                tell_at(f, *spot, "what it names isn't there.\n")
            }
            RatesRuleReason::Outside {
                spot,
                key,
                number,
                finer,
            } => tell_outside(f, *spot, *key, *number, *finer),
            RatesRuleReason::NoRoom { spot, times, finer } => {
                tell_no_room(f, *spot, *times, *finer)
            }
            RatesRuleReason::Unread {
                spot,
                before,
                process,
            } => tell_unread(f, *spot, before, process),
            RatesRuleReason::ShortRound { slots, round } => tell_short_round(f, *slots, *round),
            RatesRuleReason::LongCycle { finer } => tell_long_cycle(f, *finer),
            RatesRuleReason::LongRound {
                round,
                cycle,
                finer,
            } => tell_long_round(f, *round, *cycle, *finer),
        }
    }
}
