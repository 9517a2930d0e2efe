//! The line that is written on standard error for each fault: a code, a place and indices.

ghost use Rattle.std.specs.Prelude.{◌≡◌, Some};
ghost use Rattle.command_streams.specs.Lines.{part_word, place_words, table_words, model_line, text_line, line_code, plan_text_line, plan_list_number, plan_line, certificate_line_code, certificate_text_line, node_code, certificate_line, search_line, source_word, sink_word, fault_line};
ghost use Rattle.command_streams.specs.Wording.{place_text, words_text};

use crate::ending::{Fault, SearchFault, Sink, Source};
use crate::words::{PlaceWords, Words};
use certificate::CertTextError;
use instance_text::TextError;
use plan_format::{LineFault, PlanTextError};
use std::fmt;
use tree_check::{CertFault, NodeFault};
use ttp_model::{ModelError, Part, Place, PlanFault, PlanPart};

/// The word for a list of an instance.
pub fn part_word(part: Part) -> &'static str
    ensures { result.now ≡ part_word part }
{
    match part {
        Part::Nodes => "node",
        Part::Processes => "process",
        Part::Links => "link",
        Part::Messages => "message",
    }
}

fn place_words(place: Place) -> PlaceWords
    ensures { place_text result ≡ place_words place }
{
    match place {
        Place::AtCluster => PlaceWords::Alone("cluster"),
        Place::AtNode(n) => PlaceWords::Numbered("node ", n as u64),
        Place::AtProcess(p) => PlaceWords::Numbered("process ", p as u64),
        Place::AtLink(l) => PlaceWords::Numbered("link ", l as u64),
        Place::AtMessage(m) => PlaceWords::Numbered("message ", m as u64),
    }
}

/// The words for a table of an instance's text.
pub fn table_words(table: instance_text::Place) -> PlaceWords
    ensures { place_text result ≡ table_words table }
{
    match table {
        instance_text::Place::Top => PlaceWords::Alone("top"),
        instance_text::Place::Cluster => PlaceWords::Alone("cluster"),
        instance_text::Place::Node(n) => PlaceWords::Numbered("node ", n as u64),
        instance_text::Place::Process(p) => PlaceWords::Numbered("process ", p as u64),
        instance_text::Place::Link(l) => PlaceWords::Numbered("link ", l as u64),
        instance_text::Place::Message(m) => PlaceWords::Numbered("message ", m as u64),
    }
}

fn model_words(error: &ModelError) -> Words<'_>
    ensures { words_text result ≡ model_line error.now }
{
    match error {
        ModelError::Length(list) => Words::At("instance M1 ", PlaceWords::Alone(part_word(*list))),
        ModelError::NoReceiver(m) => Words::Number("instance M1 message ", *m as u64),
        ModelError::NameForm(at) => Words::At("instance M2 ", place_words(*at)),
        ModelError::NameRepeated(at) => Words::At("instance M3 ", place_words(*at)),
        ModelError::NoSuchIndex(at) => Words::At("instance M4 ", place_words(*at)),
        ModelError::OutOfRange(at) => Words::At("instance M5 ", place_words(*at)),
        ModelError::Capacities(n) => Words::Number("instance M6 node ", *n as u64),
        ModelError::ReceiverOnSender(m) => Words::Number("instance M7 message ", *m as u64),
        ModelError::ShortLead => Words::Alone("instance M8"),
        ModelError::ShortTrail => Words::Alone("instance M9"),
        ModelError::Deadline(p) => Words::Number("instance M10 process ", *p as u64),
        ModelError::LinkAcross(l) => Words::Number("instance M11 link ", *l as u64),
        ModelError::ReceiverTwice(m) => Words::Number("instance M12 message ", *m as u64),
        ModelError::Cycle(processes) => Words::All("instance M13", processes.as_slice()),
        ModelError::BothOfOne(m) => Words::Number("instance M15 message ", *m as u64),
        ModelError::OutOfMemory => Words::Alone("memory"),
    }
}

fn text_words(error: &TextError) -> Words<'_>
    ensures { words_text result ≡ text_line error.now }
{
    match error {
        TextError::NotToml => Words::Alone("instance T1"),
        TextError::UnknownKey { place } => Words::At("instance T2 ", table_words(*place)),
        TextError::MissingKey { place, key } => {
            Words::Named("instance T3 ", table_words(*place), key.text())
        }
        TextError::WrongKind { place, key } => {
            Words::Named("instance T4 ", table_words(*place), key.text())
        }
        TextError::OutOfRange { place, key } => {
            Words::Named("instance T5 ", table_words(*place), key.text())
        }
        TextError::UnknownName { place, key } => {
            Words::Named("instance T6 ", table_words(*place), key.text())
        }
        TextError::Model(error) => model_words(error),
        TextError::OutOfMemory => Words::Alone("memory"),
    }
}

fn line_code(fault: LineFault) -> &'static str
    ensures { result.now ≡ line_code fault }
{
    match fault {
        LineFault::Form => "F1",
        LineFault::Name => "F2",
        LineFault::Order => "F3",
        LineFault::Number => "F4",
        LineFault::EarlyEnd => "F5",
        LineFault::Trailing => "F6",
    }
}

fn plan_text_words(error: PlanTextError) -> Words<'static>
    ensures { words_text result ≡ plan_text_line error }
{
    match error {
        PlanTextError::At { line, fault } => Words::Coded("plan ", line_code(fault), line as u64),
        PlanTextError::OutOfMemory => Words::Alone("memory"),
    }
}

fn list_number(list: PlanPart) -> u64
    ensures { result ≡ plan_list_number list }
{
    match list {
        PlanPart::Order => 0,
        PlanPart::Capacities => 1,
        PlanPart::Starts => 2,
        PlanPart::Rounds => 3,
        PlanPart::Channels => 4,
    }
}

fn plan_words(fault: PlanFault) -> Words<'static>
    ensures { words_text result ≡ plan_line fault }
{
    match fault {
        PlanFault::WrongLength(list) => Words::Number("plan V1 ", list_number(list)),
        PlanFault::WrongOrder(k) => Words::Number("plan V2 ", k as u64),
        PlanFault::WrongCapacity(n) => Words::Number("plan V3 ", n as u64),
        PlanFault::TooEarly(p) => Words::Number("plan V4 ", p as u64),
        PlanFault::TooLate(p) => Words::Number("plan V5 ", p as u64),
        PlanFault::Overlap(p, q) => Words::Two("plan V6 ", p as u128, q as u64),
        PlanFault::BrokenLink(l) => Words::Number("plan V7 ", l as u64),
        PlanFault::NotReady(m) => Words::Number("plan V8 ", m as u64),
        PlanFault::NotArrived(m, q) => Words::Two("plan V9 ", m as u128, q as u64),
        PlanFault::Overfull(n, r) => Words::Two("plan V10 ", n as u128, r as u64),
        PlanFault::OverfullOn(n, r, c) => {
            Words::Three("plan V10 ", n as u64, r as u64, c as u64)
        }
        PlanFault::WrongChannel(m) => Words::Number("plan V11 ", m as u64),
    }
}

fn certificate_line_code(fault: certificate::LineFault) -> &'static str
    ensures { result.now ≡ certificate_line_code fault }
{
    match fault {
        certificate::LineFault::FirstLine => "G1",
        certificate::LineFault::Form => "G2",
        certificate::LineFault::Number => "G3",
        certificate::LineFault::Depth => "G4",
        certificate::LineFault::EarlyEnd => "G5",
        certificate::LineFault::Trailing => "G6",
    }
}

fn certificate_text_words(error: CertTextError) -> Words<'static>
    ensures { words_text result ≡ certificate_text_line error }
{
    match error {
        CertTextError::At { line, fault } => {
            Words::Coded("certificate ", certificate_line_code(fault), line)
        }
        CertTextError::OutOfMemory => Words::Alone("memory"),
    }
}

fn node_code(fault: NodeFault) -> &'static str
    ensures { result.now ≡ node_code fault }
{
    match fault {
        NodeFault::ChildCount => "C1",
        NodeFault::NotOpen => "C2",
        NodeFault::LowGoal => "C3",
        NodeFault::RefusedStep => "C4",
        NodeFault::NotClosed => "C5",
    }
}

fn certificate_words(fault: CertFault) -> Words<'static>
    ensures { words_text result ≡ certificate_line fault }
{
    match fault {
        CertFault::LowTooGreat => Words::Alone("certificate C6 2"),
        CertFault::At { line, fault } => Words::Coded("certificate ", node_code(fault), line),
        CertFault::OutOfMemory => Words::Alone("memory"),
    }
}

fn search_words(fault: SearchFault) -> &'static str
    ensures { result.now ≡ search_line fault }
{
    match fault {
        SearchFault::Memory => "memory",
        SearchFault::Thread => "solve thread",
    }
}

fn source_word(source: Source) -> &'static str
    ensures { result.now ≡ source_word source }
{
    match source {
        Source::Instance => "instance",
        Source::Plan => "plan",
        Source::Certificate => "certificate",
    }
}

fn sink_word(sink: Sink) -> &'static str
    ensures { result.now ≡ sink_word sink }
{
    match sink {
        Sink::Certificate => "certificate",
        Sink::Reduced => "reduced",
        Sink::Plan => "plan",
        Sink::Out => "out",
    }
}

fn fault_words(fault: &Fault) -> Words<'_>
    ensures { words_text result ≡ fault_line fault.now }
{
    match fault {
        Fault::NoMark => Words::Alone("usage bundle"),
        Fault::LossForm(k) => Words::Number("usage loss ", *k as u64),
        Fault::InstanceText(error) => text_words(error),
        Fault::Memory => Words::Alone("memory"),
        Fault::PlanText(error) => plan_text_words(*error),
        Fault::Plan(fault) => plan_words(*fault),
        Fault::StatedDelay(delay) => Words::Number("plan D1 ", *delay),
        Fault::CertificateText(error) => certificate_text_words(*error),
        Fault::Certificate(fault) => certificate_words(*fault),
        Fault::DeepCertificate(line) => Words::Number("certificate deep ", *line),
        Fault::TooFewNodes => Words::Alone("replay N1"),
        Fault::WrongLoss(k) => Words::Number("replay N2 ", *k as u64),
        Fault::NoSuchProcess(k) => Words::Number("limit name ", *k as u64),
        Fault::NoSuchRunner(k) => Words::Number("margin name ", *k as u64),
        Fault::TooManySlots(count) => Words::Number("draw slots ", *count),
        Fault::LongSchedule(count) => Words::Number("schedule slots ", *count),
        Fault::NoSuchNode => Words::Alone("schedule node"),
        Fault::ShortPeriod(rounds) => Words::Two(
            "period rounds ",
            rounds.needed as u128,
            rounds.held,
        ),
        Fault::ShortTables(rounds) => Words::Two(
            "tables rounds ",
            rounds.needed as u128,
            rounds.held,
        ),
        Fault::LongTables(count) => Words::Number("tables slots ", *count),
        Fault::Search(fault) => Words::Alone(search_words(*fault)),
        Fault::Unread(source) | Fault::TooLong(source) => {
            Words::At("read ", PlaceWords::Alone(source_word(*source)))
        }
        Fault::Unwritten(sink) => Words::At("write ", PlaceWords::Alone(sink_word(*sink))),
    }
}

impl fmt::Display for Fault {
    ghost output = { λ x. Some (fault_line x) };

    fn fmt<W: fmt::Write>(&self, f: &mut fmt::Formatter<W>) -> fmt::Result {
        write!(f, "{}", fault_words(self))
    }
}
