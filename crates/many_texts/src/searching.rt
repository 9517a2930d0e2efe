//! What do parts of a search do that no command shows?

ghost use Rattle.std.specs.Prelude.{◌≡◌, All, IfOk};
ghost use Rattle.search_trees.specs.Task.{IsTask};

use crate::events::succeed;
use crate::{Case, Stopped};
use branch_tree::{Task, Worked, work};
use certificate::{Node, read};
use incumbent::Incumbent;
use instance_text::{TextError, read as read_instance};
use line_text::{NumberWord, number_word, push_number_word};
use path_bounds::Propagator;
use search_trees::Name;
use std::alloc::{AllocError, Global};
use std::marker::Brand;
use steal_pool::{Hand, Searched, pool};
use tree_check::check;
use tt_choice::Decision;
use tt_choice::Decision::Before;
use ttp_model::{Instance, MOST_TICKS, MemoryFault, ModelError};
use used_decisions::{Standing, proof_of, without_unused};

/// A part of a search.
#[derive(Clone, Copy)]
pub enum Part {
    /// How many nodes are left of a certificate without branches that no step uses.
    Fewer,
    /// How many prove its bound where the node that a word tells was left; 0 where that is missed.
    Without,
    /// By how many steps a ring of orders and messages is closed, however far the horizon is.
    Ring,
    /// Which child of the root each hand of a pool takes: the first word tells how many hands there are, the others which of them takes.
    Hands,
    /// What a watch sees that another one offered.
    Watch,
    /// How many events of a search's core succeed.
    Events,
}

/// The part that a word names.
pub fn part_of(word: &[u8]) -> Option<Part> {
    match word {
        b"fewer" => Some(Part::Fewer),
        b"without" => Some(Part::Without),
        b"ring" => Some(Part::Ring),
        b"hands" => Some(Part::Hands),
        b"watch" => Some(Part::Watch),
        b"events" => Some(Part::Events),
        _ => None,
    }
}

/// Writes a word and a number behind it.
fn put(text: &mut Vec<u8>, word: &str, number: u64) -> Result<(), AllocError> {
    text.extend_from_slice(word.as_bytes())?;
    push_number_word(text, number)
}

/// The place that a word names; 0 where it names none.
fn place_of(word: &str) -> usize {
    match number_word(word.as_bytes()) {
        NumberWord::Number(place) => place as usize,
        _ => 0,
    }
}

/// The instance of a case.
fn instance_of(alloc: Global, case: &Case) -> Result<Instance, Stopped> {
    match read_instance(alloc, case.first.as_slice()) {
        Ok(instance) => Ok(instance),
        Err(TextError::OutOfMemory | TextError::Model(ModelError::OutOfMemory)) => {
            Err(Stopped("memory was refused"))
        }
        Err(_) => Err(Stopped("an instance isn't one")),
    }
}

/// How many nodes are left of a case's certificate.
fn nodes_left(alloc: Global, case: &Case) -> Result<usize, Stopped> {
    let i = instance_of(alloc, case)?;
    let Ok(cert) = read(alloc, case.second.as_slice()) else {
        return Err(Stopped("a certificate isn't one"));
    };
    let Ok(_low) = check(alloc, &i, &cert) else {
        return Err(Stopped("a certificate proves nothing"));
    };
    Ok(without_unused(alloc, &i, cert).nodes().len())
}

/// The names of a branch and of its two children.
fn names(alloc: Global) -> Result<Vec<Name>, MemoryFault> {
    let root = Name::root(alloc);
    let first = root.child(alloc, 0)?;
    let second = root.child(alloc, 1)?;
    Ok(vec![in alloc; root, first, second]?)
}

/// The nodes with their names, as far as there are both, but for the node at this place.
fn standing_without<'a>(
    alloc: Global,
    nodes: &'a [Node],
    names: &'a [Name],
    place: usize,
) -> Result<Vec<Standing<'a>>, MemoryFault> {
    let mut standing = Vec::new(alloc);
    for k in 0..nodes.len().min(names.len()) {
        let node = if k == place { None } else { Some(&nodes[k]) };
        standing.push(Standing {
            name: &names[k],
            node,
        })?;
    }
    Ok(standing)
}

/// How many nodes prove the bound of a case's certificate where the one at this place was left; 0 where that is missed.
fn nodes_without(alloc: Global, case: &Case, place: usize) -> Result<usize, Stopped> {
    let i = instance_of(alloc, case)?;
    let Ok(cert) = read(alloc, case.second.as_slice()) else {
        return Err(Stopped("a certificate isn't one"));
    };
    let names = names(alloc)?;
    let standing = standing_without(alloc, cert.nodes(), names.as_slice(), place)?;
    match proof_of(alloc, &i, cert.version(), cert.low(), standing, 1)? {
        Some(proof) => Ok(proof.nodes().len()),
        None => Ok(0),
    }
}

/// Makes a decision, where it is open and a plan may be left. Whether it does.
fn decide(
    alloc: Global,
    propagator: &mut Propagator,
    decision: Decision,
) -> Result<bool, MemoryFault> {
    let facts = propagator.facts();
    if propagator.closed() || !facts.choice().is_open_decision(facts.instance(), decision) {
        return Ok(false);
    }
    propagator.decide(alloc, decision)?;
    Ok(true)
}

/// Process b goes before a, which sends to c, which goes before d, which sends to b.
const RING: &[Decision] = &[Before(1, 0), Before(2, 3)];

/// By how many steps a ring is closed where no plan is known; 0 where it isn't.
fn steps_of_ring(alloc: Global, case: &Case) -> Result<usize, Stopped> {
    let i = instance_of(alloc, case)?;
    let mut propagator = Propagator::start(alloc, &i, MOST_TICKS + 1)?;
    for decision in RING {
        decide(alloc, &mut propagator, *decision)?;
    }
    if !propagator.closed() {
        return Ok(0);
    }
    Ok(propagator.leaf(alloc)?.steps.as_slice().len())
}

/// Whether a ring is closed, by as few steps as it takes to go around it.
fn told_as_few(steps: usize) -> &'static str {
    match steps {
        0 => "open",
        1..=8 => "few steps",
        _ => "many steps",
    }
}

/// The root's children, in order.
fn children(alloc: Global, instance: &Instance) -> Result<Vec<Task>, Stopped>
    ensures { IfOk result (λ tasks. All (IsTask instance.now) tasks.items) }
{
    let root = Task::root(alloc, instance)?;
    match work(alloc, instance, root, instance.past_horizon()) {
        Ok(Worked::Split(_kind, tasks)) => Ok(tasks),
        Ok(_) => Err(Stopped("the root was not split")),
        Err((_, fault)) => Err(fault.into()),
    }
}

/// Pushes tasks, in order.
fn push_all<J: Searched>(hand: &mut Hand<J>, tasks: Vec<Task>) -> Result<(), Stopped>
    requires { All (IsTask J.instance) tasks.items }
{
    for task in tasks {
        if let Err((_, fault)) = hand.push(task) {
            return Err(fault.into());
        }
    }
    Ok(())
}

/// Pushes the root's children by the first of these hands.
fn push_children<J: Searched>(
    alloc: Global,
    instance: &Instance,
    hands: &mut Vec<Hand<J>>,
) -> Result<(), Stopped>
    requires { instance.now ≡ J.instance }
{
    let tasks = children(alloc, instance)?;
    if hands.is_empty() {
        return Err(Stopped("there is no hand"));
    }
    let hand = &mut hands[0];
    push_all(hand, tasks)
}

/// Which child of the root the hand at this place takes.
fn taken_at<J: Searched>(hands: &mut Vec<Hand<J>>, place: usize) -> Option<u32> {
    if place >= hands.len() {
        return None;
    }
    let hand = &mut hands[place];
    let task = hand.take()?;
    task.name().get(0)
}

/// Writes what hands take, one after another, once the first of so many has pushed the root's children.
fn take_in_turn<J: Searched>(
    alloc: Global,
    instance: &Instance,
    hands: usize,
    takers: &[&str],
    text: &mut Vec<u8>,
) -> Result<(), Stopped>
    requires { instance.now ≡ J.instance }
{
    let mut hands = pool::<J>(alloc, instance, hands)?;
    push_children(alloc, instance, &mut hands)?;
    for taker in takers {
        match taken_at(&mut hands, place_of(*taker)) {
            Some(child) => push_number_word(text, u64::from(child))?,
            None => text.extend_from_slice(b" -")?,
        }
    }
    Ok(())
}

/// Writes what the hands of a pool take.
fn put_hands(
    alloc: Global,
    case: &Case,
    words: &[&str],
    text: &mut Vec<u8>,
) -> Result<(), Stopped> {
    let [hands, takers @ ..] = words else {
        return Err(Stopped("no word tells how many hands there are"));
    };
    text.extend_from_slice(b"takes")?;
    let instance = instance_of(alloc, case)?;
    take_in_turn::<Brand>(alloc, &instance, place_of(*hands), takers, text)
}

/// Writes what a watch sees that another one offered, what it is answered where it offers more, and the word's value at the end.
fn put_seen(alloc: Global, text: &mut Vec<u8>) -> Result<(), MemoryFault> {
    let (word, first) = Incumbent::begin(alloc, 101)?;
    let mut first = first;
    let mut second = word.split(alloc, &mut first)?;
    word.offer(&mut first, 9);
    let seen = word.look(&mut second);
    let told = word.offer(&mut second, 12);
    word.join(&mut first, second);
    let last = word.close(first);
    put(text, "sees", u64::from(seen))?;
    push_number_word(text, u64::from(told))?;
    push_number_word(text, u64::from(last))?;
    Ok(())
}

/// Writes what a part of a search does.
pub fn tell(
    alloc: Global,
    part: Part,
    case: &Case,
    words: &[&str],
    text: &mut Vec<u8>,
) -> Result<(), Stopped> {
    match part {
        Part::Fewer => put(text, "nodes", nodes_left(alloc, case)? as u64)?,
        Part::Without => {
            let place = match words {
                [place, ..] => place_of(*place),
                [] => 0,
            };
            put(text, "nodes", nodes_without(alloc, case, place)? as u64)?
        }
        Part::Ring => text.extend_from_slice(told_as_few(steps_of_ring(alloc, case)?).as_bytes())?,
        Part::Hands => put_hands(alloc, case, words, text)?,
        Part::Watch => put_seen(alloc, text)?,
        Part::Events => put(text, "events", u64::from(succeed(alloc)?))?,
    }
    text.extend_from_slice(b"\n")?;
    Ok(())
}
