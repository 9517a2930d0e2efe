//! What do the decisions of a path say, and which branch said it last?

ghost use Rattle.std.specs.Prelude.{◌≡◌, ◌∷◌, [], ◌++◌, List, replicate, None, Some, if◌then◌else◌, length, slice_index_or, slice_set, IfOk, OnOk, OnErr};
ghost use Rattle.ttp_model.specs.Instance.{Instance, node_at};
ghost use Rattle.tt_choice.specs.declared.decision.Decision.TheVariants.{Place, Cap, Before, AtMost, AtLeast, Channel};
ghost use Rattle.used_decisions.specs.declared.turn.Turn.{Turn};
ghost use Rattle.used_decisions.specs.Tables.{AreTables, IsStood, Tells, order_place};

use crate::turn::{Cut, OnChannel, Placed, Turn};
use std::alloc::Global;
use tt_choice::Decision;
use ttp_model::{Instance, MemoryFault};

/// What decisions say of each part of a choice, with the branch that said it last.
#[derive(Drop)]
pub struct Tables {
    /// The slot order, as far as it is decided.
    pub order: Vec<Placed>,
    /// By node, the branch that fixed its capacity above the least option.
    pub above_least: Vec<Option<u32>>,
    /// By node, the branch that fixed its capacity below the greatest option.
    pub below_most: Vec<Option<u32>>,
    /// By two processes, a row for each first one, the branch that put it before the second.
    pub before: Vec<Option<u32>>,
    /// By message, its least round.
    pub least: Vec<Option<Cut>>,
    /// By message, its greatest round.
    pub greatest: Vec<Option<Cut>>,
    /// By message, its channel.
    pub channels: Vec<Option<OnChannel>>,
}

/// What stood where a decision tells: the levels of one or two branches, a bound, or a channel.
#[derive(Clone, Copy)]
pub struct Stood {
    pub level: Option<u32>,
    pub below: Option<u32>,
    pub cut: Option<Cut>,
    pub channel: Option<OnChannel>,
}

/// What stands at a place, if anything does.
pub fn item_at<T: Copy>(items: &[Option<T>], k: usize) -> Option<T>
    ensures { result ≡ slice_index_or items.now k None }
{
    if k < items.len() { items[k] } else { None }
}

/// Makes a list of so many places, at which nothing stands.
fn make_places<T: Copy>(items: &mut Vec<Option<T>>, count: usize) -> Result<(), MemoryFault>
    ensures { OnOk result (items.new.items ≡ replicate count None) }
{
    items.clear();
    items.resize(count, None)?;
    Ok(())
}

/// Puts something at a place that is there.
fn put_at<T: Copy>(items: &mut Vec<Option<T>>, k: usize, item: Option<T>)
    ensures { items.new.items ≡ slice_set items.old.items k item }
{
    if k < items.len() {
        items[k] = item;
    }
}

/// Puts a branch at a place that is there, where a test says so.
fn put_where(items: &mut Vec<Option<u32>>, k: usize, level: u32, test: bool)
    ensures { items.new.items ≡ (if test then slice_set items.old.items k (Some level) else items.old.items) }
{
    if test {
        put_at(items, k, Some(level));
    }
}

/// How many options a node's capacity has: none where it isn't there.
fn options(instance: &Instance, n: u32) -> usize
    ensures { result ≡ length (node_at instance.now n).capacities }
{
    match instance.nodes().get(n as usize) {
        Some(node) => node.capacities.len(),
        None => 0,
    }
}

/// Where the order of two processes stands: behind the table, where one of them isn't there.
pub fn order_place(instance: &Instance, p: u32, q: u32) -> usize
    ensures { result ≡ order_place (length instance.now.processes) p q }
{
    let count = instance.processes().len();
    let (p, q) = (p as usize, q as usize);
    if p < count && q < count {
        p * count + q
    } else {
        count * count
    }
}

impl Stood {
    /// Nothing that is taken back.
    fn nothing() -> Stood {
        Stood {
            level: None,
            below: None,
            cut: None,
            channel: None,
        }
    }

    /// A branch, or none.
    fn branch(level: Option<u32>) -> Stood
        ensures { result.level ≡ level }
    {
        Stood {
            level,
            below: None,
            cut: None,
            channel: None,
        }
    }

    /// A bound, or none.
    fn bound(cut: Option<Cut>) -> Stood
        ensures { result.cut ≡ cut }
    {
        Stood {
            level: None,
            below: None,
            cut,
            channel: None,
        }
    }

    /// A channel, or none.
    fn on(channel: Option<OnChannel>) -> Stood
        ensures { result.channel ≡ channel }
    {
        Stood {
            level: None,
            below: None,
            cut: None,
            channel,
        }
    }
}

impl Tables {
    /// Of no decisions.
    pub fn new(alloc: Global, instance: &Instance) -> Result<Tables, MemoryFault>
        ensures { IfOk result (AreTables instance.now []) }
    {
        let mut tables = Tables::empty(alloc);
        match tables.fill(instance) {
            Ok(()) => Ok(tables),
            Err(fault) => {
                drop(tables);
                Err(fault)
            }
        }
    }

    /// Without a place for any part of a choice.
    fn empty(alloc: Global) -> Tables {
        Tables {
            order: Vec::new(alloc),
            above_least: Vec::new(alloc),
            below_most: Vec::new(alloc),
            before: Vec::new(alloc),
            least: Vec::new(alloc),
            greatest: Vec::new(alloc),
            channels: Vec::new(alloc),
        }
    }

    /// Become tables of no decisions, with a place for each part of a choice.
    fn fill(&mut self, instance: &Instance) -> Result<(), MemoryFault>
        ensures { OnOk result (AreTables instance.now [] self.new) }
    {
        let nodes = instance.nodes().len();
        let messages = instance.messages().len();
        let processes = instance.processes().len();
        self.order.clear();
        make_places(&mut self.above_least, nodes)?;
        make_places(&mut self.below_most, nodes)?;
        make_places(&mut self.before, processes * processes)?;
        make_places(&mut self.least, messages)?;
        make_places(&mut self.greatest, messages)?;
        make_places(&mut self.channels, messages)?;
        Ok(())
    }

    /// Tells the next decision. What stood in its place.
    pub fn tell(&mut self, instance: &Instance, turn: Turn) -> Result<Stood, MemoryFault>
        ensures ok { (turns : List Turn) → AreTables instance.now turns self.old
            → IfOk result (Tells instance.now turns turn self.new) }
        ensures err { (turns : List Turn) → AreTables instance.now turns self.old
            → OnErr result (AreTables instance.now turns self.new) }
    {
        let level = turn.level;
        match turn.decision {
            Decision::Place(node) => self.tell_place(node, level),
            Decision::Cap(n, k) => Ok(self.tell_capacity(instance, n, k, level)),
            Decision::Before(p, q) => Ok(self.tell_order(instance, p, q, level)),
            Decision::AtMost(m, round) => Ok(self.tell_greatest(m, round, level)),
            Decision::AtLeast(m, round) => Ok(self.tell_least(m, round, level)),
            Decision::Channel(m, channel) => Ok(self.tell_channel(m, channel, level)),
        }
    }

    fn tell_place(&mut self, node: u32, level: u32) -> Result<Stood, MemoryFault>
        ensures ok { (i : Instance) (turns : List Turn) → AreTables i turns self.old
            → IfOk result (Tells i turns (record { decision = Place node; level = level }) self.new) }
        ensures err { (i : Instance) (turns : List Turn) → AreTables i turns self.old
            → OnErr result (AreTables i turns self.new) }
    {
        self.order.push(Placed { node, level })?;
        Ok(Stood::nothing())
    }

    fn tell_capacity(&mut self, instance: &Instance, n: u32, k: u32, level: u32) -> Stood
        ensures { (turns : List Turn) → AreTables instance.now turns self.old
            → Tells instance.now turns (record { decision = Cap n k; level = level }) self.new result }
    {
        let stood = Stood {
            level: item_at(self.above_least.as_slice(), n as usize),
            below: item_at(self.below_most.as_slice(), n as usize),
            cut: None,
            channel: None,
        };
        let is_above = k > 0;
        let is_below = (k as usize) + 1 < options(instance, n);
        put_where(&mut self.above_least, n as usize, level, is_above);
        put_where(&mut self.below_most, n as usize, level, is_below);
        stood
    }

    fn tell_order(&mut self, instance: &Instance, p: u32, q: u32, level: u32) -> Stood
        ensures { (turns : List Turn) → AreTables instance.now turns self.old
            → Tells instance.now turns (record { decision = Before p q; level = level }) self.new result }
    {
        let place = order_place(instance, p, q);
        let stood = item_at(self.before.as_slice(), place);
        put_at(&mut self.before, place, Some(level));
        Stood::branch(stood)
    }

    fn tell_greatest(&mut self, m: u32, round: u32, level: u32) -> Stood
        ensures { (i : Instance) (turns : List Turn) → AreTables i turns self.old
            → Tells i turns (record { decision = AtMost m round; level = level }) self.new result }
    {
        let stood = item_at(self.greatest.as_slice(), m as usize);
        put_at(&mut self.greatest, m as usize, Some(Cut { round, level }));
        Stood::bound(stood)
    }

    fn tell_least(&mut self, m: u32, round: u32, level: u32) -> Stood
        ensures { (i : Instance) (turns : List Turn) → AreTables i turns self.old
            → Tells i turns (record { decision = AtLeast m round; level = level }) self.new result }
    {
        let stood = item_at(self.least.as_slice(), m as usize);
        put_at(&mut self.least, m as usize, Some(Cut { round, level }));
        Stood::bound(stood)
    }

    fn tell_channel(&mut self, m: u32, channel: u32, level: u32) -> Stood
        ensures { (i : Instance) (turns : List Turn) → AreTables i turns self.old
            → Tells i turns (record { decision = Channel m channel; level = level }) self.new result }
    {
        let stood = item_at(self.channels.as_slice(), m as usize);
        put_at(
            &mut self.channels,
            m as usize,
            Some(OnChannel { channel, level }),
        );
        Stood::on(stood)
    }

    /// Takes the last decision back, by what stood in its place.
    pub fn take_back(&mut self, instance: &Instance, turn: Turn, stood: Stood)
        ensures { (turns : List Turn) → Tells instance.now turns turn self.old stood
            → AreTables instance.now turns self.new }
    {
        match turn.decision {
            Decision::Place(_) => {
                let _last = self.order.pop();
            }
            Decision::Cap(n, _) => {
                put_at(&mut self.above_least, n as usize, stood.level);
                put_at(&mut self.below_most, n as usize, stood.below);
            }
            Decision::Before(p, q) => {
                put_at(&mut self.before, order_place(instance, p, q), stood.level)
            }
            Decision::AtMost(m, _) => put_at(&mut self.greatest, m as usize, stood.cut),
            Decision::AtLeast(m, _) => put_at(&mut self.least, m as usize, stood.cut),
            Decision::Channel(m, _) => put_at(&mut self.channels, m as usize, stood.channel),
        }
    }
}
