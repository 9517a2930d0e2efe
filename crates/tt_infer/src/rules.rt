//! Which rule does a step stand for, what does it write and read, which steps does an instance name, and how is each written?

ghost use Rattle.std.specs.Prelude.{◌≡◌, ◌≢◌, ◌∷◌, [], bytes_eq, codes};
ghost use Rattle.sought_plans.specs.Known.{Fits};
ghost use Rattle.tt_infer.specs.Setting.{TakesOf};
ghost use Rattle.tt_infer.specs.Lines.{numbers_in, numbers_said, row_of, with_keyword};
ghost use Rattle.tt_infer.specs.Table.{IsLong, link_steps, message_closers, message_steps, pair_steps, process_closers, process_steps, reads, step_row, step_words, steps_with, target, transfer_steps};
ghost use Rattle.tt_infer.specs.Sources.{Learnt, Fixed, Waits, Circle, Runs, Frames, Halves, Earlier, Lower, Nothing, One, Two, reads_said};

mod closers;
mod dominance;
mod ends;
mod loads;
mod order;
mod rounds;
mod starts;

use crate::fact::{Fact, link_after, link_before, sender, sending_node};
use crate::fault::StepFault;
use crate::limit::Limit;
use crate::line::{FewNumbers, Line, LineNumbers};
use crate::source::{Reads, Source};
pub use loads::load_of;
use sought_plans::{Known, Setting};
use ttp_model::{Instance, Ring, Step};

/// Takes a step of the table, or refuses it.
#[tactic(auto, using(crate::proofs::SameStep::takes_same))]
pub fn take(known: &mut Known, setting: &Setting, step: &Step) -> Result<(), StepFault>
    requires { Fits setting.now.instance known.old }
    ensures { TakesOf setting.now known.old step.now known.new result }
{
    if known.is_closed() {
        return Err(StepFault::AlreadyClosed);
    }
    match step {
        Step::EsRelease(p) => starts::es_release(known, setting, *p),
        Step::EsLink(l) => starts::es_link(known, setting, *l),
        Step::EsBefore(p, q) => starts::es_before(known, setting, *p, *q),
        Step::EsArrive(m, q) => starts::es_arrive(known, setting, *m, *q),
        Step::EsMessage(m, q) => starts::es_message(known, setting, *m, *q),
        Step::LoSend(m) => rounds::lo_send(known, setting, *m),
        Step::LeOwn(p) => ends::le_own(known, setting, *p),
        Step::LeLink(l) => ends::le_link(known, setting, *l),
        Step::LeBefore(p, q) => ends::le_before(known, setting, *p, *q),
        Step::LeMessage(m, q) => ends::le_message(known, setting, *m, *q),
        Step::LeSend(m) => ends::le_send(known, setting, *m),
        Step::HiArrive(m, q) => rounds::hi_arrive(known, setting, *m, *q),
        Step::OrdWindow(p, q) => order::ord_window(known, setting, *p, *q),
        Step::OrdTwin(p, q) => dominance::ord_twin(known, setting, *p, *q),
        Step::UsSettled(p) => dominance::us_settled(known, setting, *p),
        Step::XWindow(p) => closers::x_window(known, setting, *p),
        Step::XRound(m) => closers::x_round(known, setting, *m),
        Step::XCycle(ring) => closers::x_cycle(known, setting, ring),
        Step::XLoad(n, a, b) => loads::x_load(known, setting, *n, *a, *b),
        Step::XFrame(m) => closers::x_frame(known, setting, *m),
        Step::XFrames(n, a, b) => loads::x_frames(known, setting, *n, *a, *b),
        Step::XChannel(k, n, a, b) => loads::x_channel(known, setting, *k, *n, *a, *b),
        Step::XLate(m, r) => dominance::x_late(known, setting, *m, *r),
        Step::XSilent(u, v) => dominance::x_silent(known, setting, *u, *v),
        Step::XMirror(m) => dominance::x_mirror(known, setting, *m),
    }
}

/// The fact that a step sharpens.
pub fn target(instance: &Instance, step: &Step) -> Fact
    ensures { result ≡ target instance.now step.now }
{
    match step {
        Step::EsRelease(p) => Fact::Start(*p),
        Step::EsLink(l) => Fact::Start(link_after(instance, *l)),
        Step::EsBefore(_, q) | Step::EsArrive(_, q) | Step::EsMessage(_, q) => Fact::Start(*q),
        Step::LoSend(m) => Fact::FirstRound(*m),
        Step::LeOwn(p) | Step::LeBefore(p, _) | Step::UsSettled(p) => Fact::End(*p),
        Step::LeLink(l) => Fact::End(link_before(instance, *l)),
        Step::LeMessage(m, _) | Step::LeSend(m) => Fact::End(sender(instance, *m)),
        Step::HiArrive(m, _) => Fact::LateRound(*m),
        Step::OrdWindow(p, q) | Step::OrdTwin(p, q) => Fact::Order(*p, *q),
        Step::XWindow(_)
        | Step::XRound(_)
        | Step::XCycle(_)
        | Step::XLoad(..)
        | Step::XFrame(_)
        | Step::XFrames(..)
        | Step::XChannel(..)
        | Step::XLate(..)
        | Step::XSilent(..)
        | Step::XMirror(_) => Fact::Closed,
    }
}

/// Nothing that is read.
fn none() -> Reads<'static>
    ensures { reads_said result ≡ Nothing }
{
    Reads::Nothing
}

/// One fact that is read.
fn one(fact: Fact) -> Reads<'static>
    ensures { reads_said result ≡ One (Learnt fact) }
{
    Reads::One(Source::Learnt(fact))
}

/// Two facts that are read.
fn two(first: Fact, second: Fact) -> Reads<'static>
    ensures { reads_said result ≡ Two (Learnt first) (Learnt second) }
{
    Reads::Two(Source::Learnt(first), Source::Learnt(second))
}

/// A fact and a limit that are read.
fn both(fact: Fact, limit: Limit) -> Reads<'static>
    ensures { reads_said result ≡ Two (Learnt fact) (Fixed limit) }
{
    Reads::Two(Source::Learnt(fact), Source::Fixed(limit))
}

/// What a step about a ring of processes reads.
fn neighbours(ring: &Ring) -> Reads<'_>
    ensures { reads_said result ≡ One (Circle ring.now) }
{
    Reads::One(Source::Circle(ring))
}

/// A limit that is read alone.
fn fixed(limit: Limit) -> Reads<'static>
    ensures { reads_said result ≡ One (Fixed limit) }
{
    Reads::One(Source::Fixed(limit))
}

/// What a process may have to wait for.
fn waits(p: u32) -> Reads<'static>
    ensures { reads_said result ≡ One (Waits p) }
{
    Reads::One(Source::Waits(p))
}

/// The processes of a node between two times.
fn runs(n: u32, a: u32, b: u32) -> Reads<'static>
    ensures { reads_said result ≡ One (Runs n a b) }
{
    Reads::One(Source::Runs(n, a, b))
}

/// The messages of a node between two rounds.
fn frames(n: u32, a: u32, b: u32) -> Reads<'static>
    ensures { reads_said result ≡ One (Frames n a b) }
{
    Reads::One(Source::Frames(n, a, b))
}

/// Those on one channel.
fn halves(k: u32, n: u32, a: u32, b: u32) -> Reads<'static>
    ensures { reads_said result ≡ One (Halves k n a b) }
{
    Reads::One(Source::Halves(k, n, a, b))
}

/// Whether a message could be sent in an earlier round.
fn earlier(m: u32, r: u32) -> Reads<'static>
    ensures { reads_said result ≡ One (Earlier m r) }
{
    Reads::One(Source::Earlier(m, r))
}

/// The lower messages of a message's node.
fn lower(m: u32) -> Reads<'static>
    ensures { reads_said result ≡ One (Lower m) }
{
    Reads::One(Source::Lower(m))
}

/// What a step reads.
pub fn reads<'a>(instance: &Instance, step: &'a Step) -> Reads<'a>
    ensures { reads_said result ≡ reads instance.now step.now }
{
    match step {
        Step::EsRelease(_) | Step::OrdTwin(_, _) => none(),
        Step::EsLink(l) => one(Fact::Start(link_before(instance, *l))),
        Step::EsBefore(p, q) => two(Fact::Start(*p), Fact::Order(*p, *q)),
        Step::EsArrive(m, _) => both(
            Fact::FirstRound(*m),
            Limit::LeastSlot(sending_node(instance, *m)),
        ),
        Step::EsMessage(m, _) => both(
            Fact::Start(sender(instance, *m)),
            Limit::LeastFrame(sending_node(instance, *m)),
        ),
        Step::LoSend(m) => both(
            Fact::Start(sender(instance, *m)),
            Limit::GreatestSlot(sending_node(instance, *m)),
        ),
        Step::LeOwn(_) => fixed(Limit::Goal),
        Step::LeLink(l) => one(Fact::End(link_after(instance, *l))),
        Step::LeBefore(p, q) => two(Fact::End(*q), Fact::Order(*p, *q)),
        Step::LeMessage(m, q) => both(Fact::End(*q), Limit::LeastFrame(sending_node(instance, *m))),
        Step::LeSend(m) => both(
            Fact::LateRound(*m),
            Limit::GreatestSlot(sending_node(instance, *m)),
        ),
        Step::HiArrive(m, q) => both(Fact::End(*q), Limit::LeastSlot(sending_node(instance, *m))),
        Step::OrdWindow(p, q) => two(Fact::End(*p), Fact::Start(*q)),
        Step::UsSettled(p) => waits(*p),
        Step::XWindow(p) => two(Fact::Start(*p), Fact::End(*p)),
        Step::XRound(m) => two(Fact::FirstRound(*m), Fact::LateRound(*m)),
        Step::XCycle(ring) => neighbours(ring),
        Step::XLoad(n, a, b) => runs(*n, *a, *b),
        Step::XFrame(m) => fixed(Limit::GreatestFrame(sending_node(instance, *m))),
        Step::XFrames(n, a, b) => frames(*n, *a, *b),
        Step::XChannel(k, n, a, b) => halves(*k, *n, *a, *b),
        Step::XLate(m, r) => earlier(*m, *r),
        Step::XSilent(_, v) => fixed(Limit::Place(*v)),
        Step::XMirror(m) => lower(*m),
    }
}

/// The steps of two processes of one node that are tried in this order.
pub fn pair_steps(p: u32, q: u32) -> [Step; 3]
    ensures { result ≡ pair_steps p q }
{
    [
        Step::LeBefore(p, q),
        Step::EsBefore(p, q),
        Step::OrdWindow(q, p),
    ]
}

/// Those of a message and one of its receivers.
pub fn transfer_steps(m: u32, q: u32) -> [Step; 4]
    ensures { result ≡ transfer_steps m q }
{
    [
        Step::LeMessage(m, q),
        Step::HiArrive(m, q),
        Step::EsMessage(m, q),
        Step::EsArrive(m, q),
    ]
}

/// Those of a message.
pub fn message_steps(m: u32) -> [Step; 2]
    ensures { result ≡ message_steps m }
{
    [Step::LeSend(m), Step::LoSend(m)]
}

/// Those of a link.
pub fn link_steps(l: u32) -> [Step; 2]
    ensures { result ≡ link_steps l }
{
    [Step::EsLink(l), Step::LeLink(l)]
}

/// Those of a process alone.
pub fn process_steps(p: u32) -> [Step; 2]
    ensures { result ≡ process_steps p }
{
    [Step::LeOwn(p), Step::EsRelease(p)]
}

/// Those that close a process.
pub fn process_closers(p: u32) -> [Step; 1]
    ensures { result ≡ process_closers p }
{
    [Step::XWindow(p)]
}

/// Those that close a message.
pub fn message_closers(m: u32) -> [Step; 2]
    ensures { result ≡ message_closers m }
{
    [Step::XRound(m), Step::XFrame(m)]
}

/// The keyword of a step.
fn keyword_of(step: &Step) -> &'static [u8]
    ensures { result.now ≡ (step_words step.now).0 }
{
    match step {
        Step::EsRelease(_) => b"es-release",
        Step::EsLink(_) => b"es-link",
        Step::EsBefore(..) => b"es-before",
        Step::EsArrive(..) => b"es-arrive",
        Step::EsMessage(..) => b"es-message",
        Step::LoSend(_) => b"lo-send",
        Step::LeOwn(_) => b"le-own",
        Step::LeLink(_) => b"le-link",
        Step::LeBefore(..) => b"le-before",
        Step::LeMessage(..) => b"le-message",
        Step::LeSend(_) => b"le-send",
        Step::HiArrive(..) => b"hi-arrive",
        Step::OrdWindow(..) => b"ord-window",
        Step::OrdTwin(..) => b"ord-twin",
        Step::UsSettled(_) => b"us-settled",
        Step::XWindow(_) => b"x-window",
        Step::XRound(_) => b"x-round",
        Step::XCycle(_) => b"x-cycle",
        Step::XLoad(..) => b"x-load",
        Step::XFrame(_) => b"x-frame",
        Step::XFrames(..) => b"x-frames",
        Step::XChannel(..) => b"x-channel",
        Step::XLate(..) => b"x-late",
        Step::XSilent(..) => b"x-silent",
        Step::XMirror(_) => b"x-mirror",
    }
}

/// The numbers behind a step's keyword.
fn numbers_of(step: &Step) -> LineNumbers<'_>
    ensures said { numbers_said result ≡ (step_words step.now).1 }
    ensures long { IsLong step.now }
{
    match step {
        Step::EsRelease(a)
        | Step::EsLink(a)
        | Step::LoSend(a)
        | Step::LeOwn(a)
        | Step::LeLink(a)
        | Step::LeSend(a)
        | Step::UsSettled(a)
        | Step::XWindow(a)
        | Step::XRound(a)
        | Step::XFrame(a)
        | Step::XMirror(a) => LineNumbers::Few(FewNumbers::One(*a)),
        Step::EsBefore(a, b)
        | Step::EsArrive(a, b)
        | Step::EsMessage(a, b)
        | Step::LeBefore(a, b)
        | Step::LeMessage(a, b)
        | Step::HiArrive(a, b)
        | Step::OrdWindow(a, b)
        | Step::OrdTwin(a, b)
        | Step::XLate(a, b)
        | Step::XSilent(a, b) => LineNumbers::Few(FewNumbers::Two(*a, *b)),
        Step::XLoad(a, b, c) | Step::XFrames(a, b, c) => {
            LineNumbers::Few(FewNumbers::Three(*a, *b, *c))
        }
        Step::XChannel(a, b, c, d) => LineNumbers::Few(FewNumbers::Four(*a, *b, *c, *d)),
        Step::XCycle(ring) => LineNumbers::Ring(ring.as_slice()),
    }
}

/// Whether a step's line speaks of channels.
fn speaks_of_channels(step: &Step) -> bool
    ensures { result ≡ (step_row step.now).speaks_of_channels }
{
    // No other step is about one channel.
    matches!(step, Step::XChannel(..) | Step::XMirror(_))
}

/// The line of a step.
pub fn line_of(step: &Step) -> Line<'_>
    ensures row { row_of result ≡ step_row step.now }
    ensures long { IsLong step.now }
{
    Line {
        keyword: keyword_of(step),
        numbers: numbers_of(step),
        speaks_of_channels: speaks_of_channels(step),
    }
}

/// Whether a keyword is this word.
fn is_word(keyword: &[u8], word: &[u8]) -> bool
    ensures { result ≡ bytes_eq keyword.now word.now }
{
    keyword == word
}

fn with_one(keyword: &[u8], a: u32) -> Option<Step>
    ensures { result ≡ with_keyword step_words keyword.now (steps_with (a ∷ [])) }
{
    if is_word(keyword, b"es-release") {
        return Some(Step::EsRelease(a));
    }
    if is_word(keyword, b"es-link") {
        return Some(Step::EsLink(a));
    }
    if is_word(keyword, b"lo-send") {
        return Some(Step::LoSend(a));
    }
    if is_word(keyword, b"le-own") {
        return Some(Step::LeOwn(a));
    }
    if is_word(keyword, b"le-link") {
        return Some(Step::LeLink(a));
    }
    if is_word(keyword, b"le-send") {
        return Some(Step::LeSend(a));
    }
    if is_word(keyword, b"us-settled") {
        return Some(Step::UsSettled(a));
    }
    if is_word(keyword, b"x-window") {
        return Some(Step::XWindow(a));
    }
    if is_word(keyword, b"x-round") {
        return Some(Step::XRound(a));
    }
    if is_word(keyword, b"x-frame") {
        return Some(Step::XFrame(a));
    }
    if is_word(keyword, b"x-mirror") {
        return Some(Step::XMirror(a));
    }
    None
}

fn with_two(keyword: &[u8], a: u32, b: u32) -> Option<Step>
    requires { keyword.now ≢ codes "x-cycle" }
    ensures { result ≡ with_keyword step_words keyword.now (steps_with (a ∷ b ∷ [])) }
{
    if is_word(keyword, b"es-before") {
        return Some(Step::EsBefore(a, b));
    }
    if is_word(keyword, b"es-arrive") {
        return Some(Step::EsArrive(a, b));
    }
    if is_word(keyword, b"es-message") {
        return Some(Step::EsMessage(a, b));
    }
    if is_word(keyword, b"le-before") {
        return Some(Step::LeBefore(a, b));
    }
    if is_word(keyword, b"le-message") {
        return Some(Step::LeMessage(a, b));
    }
    if is_word(keyword, b"hi-arrive") {
        return Some(Step::HiArrive(a, b));
    }
    if is_word(keyword, b"ord-window") {
        return Some(Step::OrdWindow(a, b));
    }
    if is_word(keyword, b"ord-twin") {
        return Some(Step::OrdTwin(a, b));
    }
    if is_word(keyword, b"x-late") {
        return Some(Step::XLate(a, b));
    }
    if is_word(keyword, b"x-silent") {
        return Some(Step::XSilent(a, b));
    }
    None
}

fn with_three(keyword: &[u8], a: u32, b: u32, c: u32) -> Option<Step>
    requires { keyword.now ≢ codes "x-cycle" }
    ensures { result ≡ with_keyword step_words keyword.now (steps_with (a ∷ b ∷ c ∷ [])) }
{
    if is_word(keyword, b"x-load") {
        return Some(Step::XLoad(a, b, c));
    }
    if is_word(keyword, b"x-frames") {
        return Some(Step::XFrames(a, b, c));
    }
    None
}

fn with_four(keyword: &[u8], a: u32, b: u32, c: u32, d: u32) -> Option<Step>
    requires { keyword.now ≢ codes "x-cycle" }
    ensures { result ≡ with_keyword step_words keyword.now (steps_with (a ∷ b ∷ c ∷ d ∷ [])) }
{
    if is_word(keyword, b"x-channel") {
        return Some(Step::XChannel(a, b, c, d));
    }
    None
}

/// The step that a keyword and few numbers say. Of a cycle it isn't asked, which may have more.
pub fn step_with(keyword: &[u8], numbers: FewNumbers) -> Option<Step>
    requires { keyword.now ≢ codes "x-cycle" }
    ensures { result ≡ with_keyword step_words keyword.now (steps_with (numbers_in numbers)) }
{
    match numbers {
        FewNumbers::One(a) => with_one(keyword, a),
        FewNumbers::Two(a, b) => with_two(keyword, a, b),
        FewNumbers::Three(a, b, c) => with_three(keyword, a, b, c),
        FewNumbers::Four(a, b, c, d) => with_four(keyword, a, b, c, d),
    }
}
