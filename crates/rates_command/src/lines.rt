//! The line that is written on standard error for each fault: a code, a place and indices, or names.

ghost use Rattle.std.specs.Prelude.{◌≡◌, Some};
ghost use Rattle.ttp_model.specs.Parts.{instance_of};
ghost use Rattle.command_streams.specs.Wording.{place_text, words_text};
ghost use Rattle.rates_command.specs.Lines.{named_line, rates_line, rates_model_line, rates_part_word, rates_place_words, rates_table_words, rates_text_line, unroll_line};
ghost use Rattle.rates_command.specs.Wording.{named_text};

use crate::ending::RatesFault;
use crate::named::{NamedPlace, NamedWords, SpacedNames};
use command_streams::{PlaceWords, Words, part_word, table_words};
use endless_schedules::UnrollFault;
use rates_model::{RatesError, RatesPart, RatesPlace};
use rates_text::{RatesTable, RatesTextError};
use std::fmt;
use ttp_model::{ModelError, Parts, Place};

fn rates_part_word(list: RatesPart) -> &'static str
    ensures { result.now ≡ rates_part_word list }
{
    match list {
        RatesPart::Nodes => "node",
        RatesPart::Processes => "process",
        RatesPart::Links => "link",
        RatesPart::Messages => "message",
        RatesPart::Chains => "chain",
    }
}

fn rates_place_words(place: RatesPlace) -> PlaceWords
    ensures { place_text result ≡ rates_place_words place }
{
    match place {
        RatesPlace::AtCluster => PlaceWords::Alone("cluster"),
        RatesPlace::AtNode(n) => PlaceWords::Numbered("node ", n as u64),
        RatesPlace::AtProcess(p) => PlaceWords::Numbered("process ", p as u64),
        RatesPlace::AtLink(l) => PlaceWords::Numbered("link ", l as u64),
        RatesPlace::AtMessage(m) => PlaceWords::Numbered("message ", m as u64),
        RatesPlace::AtChain(c) => PlaceWords::Numbered("chain ", c as u64),
    }
}

fn rates_table_words(table: RatesTable) -> PlaceWords
    ensures { place_text result ≡ rates_table_words table }
{
    match table {
        RatesTable::Of(table) => table_words(table),
        RatesTable::Chain(c) => PlaceWords::Numbered("chain ", c as u64),
    }
}

fn rates_model_words(error: RatesError) -> Words<'static>
    ensures { words_text result ≡ rates_model_line error }
{
    match error {
        RatesError::Length(list) => {
            Words::At("rates J1 ", PlaceWords::Alone(rates_part_word(list)))
        }
        RatesError::NoReceiver(m) => Words::Number("rates J1 message ", m as u64),
        RatesError::Through(c) => Words::Number("rates J1 chain ", c as u64),
        RatesError::NameForm(at) => Words::At("rates J2 ", rates_place_words(at)),
        RatesError::NameRepeated(at) => Words::At("rates J3 ", rates_place_words(at)),
        RatesError::NoSuchIndex(at) => Words::At("rates J4 ", rates_place_words(at)),
        RatesError::OutOfRange(at) => Words::At("rates J5 ", rates_place_words(at)),
        RatesError::NoRoom(p) => Words::Number("rates J6 process ", p as u64),
        RatesError::NothingRead(c, k) => Words::Two("rates J7 chain ", c as u128, k as u64),
        RatesError::ShortRound(slots, round) => Words::Two("rates J8 ", slots, round as u64),
        RatesError::LongCycle => Words::Alone("rates J9"),
        RatesError::LongRound(round, cycle) => Words::Two("rates J10 ", round, cycle as u64),
    }
}

fn rates_text_words(error: RatesTextError) -> Words<'static>
    ensures { words_text result ≡ rates_text_line error }
{
    match error {
        RatesTextError::NotToml => Words::Alone("rates T1"),
        RatesTextError::UnknownKey { place } => Words::At("rates T2 ", rates_table_words(place)),
        RatesTextError::MissingKey { place, key } => {
            Words::Named("rates T3 ", rates_table_words(place), key.text())
        }
        RatesTextError::WrongKind { place, key } => {
            Words::Named("rates T4 ", rates_table_words(place), key.text())
        }
        RatesTextError::OutOfRange { place, key } => {
            Words::Named("rates T5 ", rates_table_words(place), key.text())
        }
        RatesTextError::UnknownName { place, key } => {
            Words::Named("rates T6 ", rates_table_words(place), key.text())
        }
        RatesTextError::Refused(error) => rates_model_words(error),
        RatesTextError::OutOfMemory => Words::Alone("memory"),
    }
}

fn named_words<'a>(tables: &'a Parts, error: &'a ModelError) -> NamedWords<'a>
    ensures { named_text result ≡ named_line (instance_of tables.now) error.now }
{
    match error {
        ModelError::Length(list) => NamedWords::OfList("rates M1 ", part_word(*list)),
        ModelError::NoReceiver(m) => NamedWords::At(
            "rates M1 ",
            NamedPlace(tables, Place::AtMessage(*m)),
        ),
        ModelError::NameForm(place) => NamedWords::At("rates M2 ", NamedPlace(tables, *place)),
        ModelError::NameRepeated(place) => NamedWords::At("rates M3 ", NamedPlace(tables, *place)),
        ModelError::NoSuchIndex(place) => NamedWords::At("rates M4 ", NamedPlace(tables, *place)),
        ModelError::OutOfRange(place) => NamedWords::At("rates M5 ", NamedPlace(tables, *place)),
        ModelError::Capacities(n) => NamedWords::At(
            "rates M6 ",
            NamedPlace(tables, Place::AtNode(*n)),
        ),
        ModelError::ReceiverOnSender(m) => NamedWords::At(
            "rates M7 ",
            NamedPlace(tables, Place::AtMessage(*m)),
        ),
        ModelError::ShortLead => NamedWords::Alone("rates M8"),
        ModelError::ShortTrail => NamedWords::Alone("rates M9"),
        ModelError::Deadline(p) => NamedWords::At(
            "rates M10 ",
            NamedPlace(tables, Place::AtProcess(*p)),
        ),
        ModelError::LinkAcross(l) => NamedWords::At(
            "rates M11 ",
            NamedPlace(tables, Place::AtLink(*l)),
        ),
        ModelError::ReceiverTwice(m) => NamedWords::At(
            "rates M12 ",
            NamedPlace(tables, Place::AtMessage(*m)),
        ),
        ModelError::Cycle(ps) => NamedWords::All("rates M13", SpacedNames(tables, ps.as_slice())),
        ModelError::BothOfOne(m) => NamedWords::At(
            "rates M15 ",
            NamedPlace(tables, Place::AtMessage(*m)),
        ),
        ModelError::OutOfMemory => NamedWords::Alone("memory"),
    }
}

fn unroll_words(fault: &UnrollFault) -> NamedWords<'_>
    ensures { named_text result ≡ unroll_line fault.now }
{
    match fault {
        UnrollFault::TooMany(list) => NamedWords::OfList("rates M1 ", part_word(*list)),
        UnrollFault::Refused(refused) => named_words(&refused.tables, &refused.error),
        UnrollFault::OutOfMemory => NamedWords::Alone("memory"),
    }
}

impl fmt::Display for RatesFault {
    ghost output = { λ x. Some (rates_line x) };

    fn fmt<W: fmt::Write>(&self, f: &mut fmt::Formatter<W>) -> fmt::Result {
        match self {
            RatesFault::Memory => f.write_str("memory"),
            RatesFault::Text(error) => write!(f, "{}", rates_text_words(*error)),
            RatesFault::Unrolled(fault) => write!(f, "{}", unroll_words(fault)),
            RatesFault::Unread | RatesFault::TooLong => f.write_str("read rates"),
            RatesFault::OfPlan(fault) => write!(f, "{fault}"),
            RatesFault::Unwritten => f.write_str("write out"),
        }
    }
}
