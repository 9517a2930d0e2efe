//! What a schedule is made from, and small changes of it.

ghost use Rattle.std.specs.Prelude.{◌≡◌, ◌<◌, ◌+◌, length};

use crate::chance::Chance;
use crate::network::Network;
use crate::shelf::Shelf;
use crate::table::Table;

/// How many lists are taken to make one.
pub const DRAFT_TABLES: usize = 6;

/// A slot order, a capacity for each node, the processes of each node in the order in which they run,
/// and which messages wait.
#[derive(Drop)]
pub struct Draft {
    pub order: Table,
    /// By node, a place in its list of capacities.
    pub options: Table,
    /// The processes in their order, node after node.
    pub line: Table,
    /// By process, its place in the line.
    pub places: Table,
    /// By message, how many frames with room it lets pass.
    pub holds: Table,
    /// By process, how many ticks go by at least from its start to the last end: by what runs behind it on its node, and by chains.
    pub tails: Table,
}

/// A change of a draft.
#[derive(Clone, Copy)]
pub enum Change {
    /// Two positions of the slot order are exchanged.
    Slots(usize, usize),
    /// The node at the first position of the slot order goes to the second.
    Slot(usize, usize),
    /// A node takes this option.
    Option(usize, u64),
    /// The process at the first place of the line goes to the second.
    Line(usize, usize),
    /// A message lets so many frames pass.
    Hold(usize, u64),
}

impl Change {
    /// Whether it is about slots: their order, or how long they are.
    pub fn is_of_slots(self) -> bool {
        match self {
            Change::Slots(_, _) | Change::Slot(_, _) | Change::Option(_, _) => true,
            Change::Line(_, _) | Change::Hold(_, _) => false,
        }
    }
}

impl Draft {
    /// Nodes in their own order, with the capacities that carry most, and processes the earlier the
    /// longer the chains that begin with them take. No process then waits for a later one.
    pub fn new(shelf: &mut Shelf, network: &Network) -> Self
        requires { 5 < length shelf.old.tables.items }
        ensures { length shelf.new.tables.items + 6 ≡ length shelf.old.tables.items }
    {
        let mut draft = Draft {
            order: shelf.numbered(network.roomy.len()),
            options: shelf.copy(&network.roomy),
            line: shelf.copy(network.residents.all()),
            places: shelf.copy(&network.homes),
            holds: shelf.zeros(network.bytes.len()),
            tails: shelf.copy(&network.chains),
        };
        let last = draft.line.len();
        draft.renumber(0, last);
        draft.measure_all(network);
        draft
    }

    /// The same draft, in other lists.
    pub fn copy(&self, shelf: &mut Shelf) -> Self
        requires { 5 < length shelf.old.tables.items }
        ensures { length shelf.new.tables.items + 6 ≡ length shelf.old.tables.items }
    {
        Draft {
            order: shelf.copy(&self.order),
            options: shelf.copy(&self.options),
            line: shelf.copy(&self.line),
            places: shelf.copy(&self.places),
            holds: shelf.copy(&self.holds),
            tails: shelf.copy(&self.tails),
        }
    }

    /// Becomes the same as another one of the same instance.
    pub fn take_over(&mut self, other: &Draft) {
        self.order.take_over(&other.order);
        self.options.take_over(&other.options);
        self.line.take_over(&other.line);
        self.places.take_over(&other.places);
        self.holds.take_over(&other.holds);
        self.tails.take_over(&other.tails);
    }

    /// The capacity of a node in bytes.
    pub fn capacity(&self, network: &Network, node: usize) -> u64 {
        network.capacity_at(node, self.options.place_at(node))
    }

    /// Exchanges nodes of the order by chance.
    pub fn shuffle(&mut self, chance: &mut Chance) {
        let nodes = self.order.len();
        for n in 0..nodes {
            self.order.exchange(n, chance.below(nodes));
        }
    }

    /// Whether a process of the same node stands before this one in the line.
    pub fn has_neighbour_before(&self, network: &Network, p: usize) -> bool {
        self.places.at(p) > network.firsts.at(p)
    }

    /// The process of the same node that stands next in the line.
    pub fn neighbour_after(&self, network: &Network, p: usize) -> Option<usize> {
        let place = self.places.place_at(p).saturating_add(1);
        let next = self.line.place_at(place);
        if place < self.line.len() && network.share_a_node(p, next) {
            Some(next)
        } else {
            None
        }
    }

    /// Whether a change changes nothing.
    pub fn has(&self, change: Change) -> bool {
        match change {
            Change::Slots(a, b) | Change::Slot(a, b) | Change::Line(a, b) => a == b,
            Change::Option(node, option) => self.options.at(node) == option,
            Change::Hold(message, frames) => self.holds.at(message) == frames,
        }
    }

    /// Makes a change, and gives the one that takes it back.
    pub fn make(&mut self, network: &Network, change: Change) -> Change {
        match change {
            Change::Slots(a, b) => {
                self.order.exchange(a, b);
                change
            }
            Change::Slot(from, to) => {
                self.order.carry(from, to);
                Change::Slot(to, from)
            }
            Change::Option(node, option) => {
                let before = self.options.at(node);
                self.options.set(node, option);
                Change::Option(node, before)
            }
            Change::Line(from, to) => {
                self.line.carry(from, to);
                self.renumber(from.min(to), from.max(to));
                let node = network.homes.place_at(self.line.place_at(to));
                self.measure(network, node);
                Change::Line(to, from)
            }
            Change::Hold(message, frames) => {
                let before = self.holds.at(message);
                self.holds.set(message, frames);
                Change::Hold(message, before)
            }
        }
    }

    /// Measures the tails of all processes.
    fn measure_all(&mut self, network: &Network) {
        for node in 0..self.order.len() {
            self.measure(network, node);
        }
    }

    /// Measures the tails of a node's processes, the last first.
    fn measure(&mut self, network: &Network, node: usize) {
        let mut tail = 0u64;
        for place in network.residents.places(node).rev() {
            let p = self.line.place_at(place);
            let behind = tail.saturating_add(network.wcets.at(p));
            tail = behind.max(network.chains.at(p));
            self.tails.set(p, tail);
        }
    }

    /// Notes the places of the processes from one place of the line to another.
    fn renumber(&mut self, first: usize, last: usize) {
        for place in first..last.saturating_add(1).min(self.line.len()) {
            self.places.set(self.line.place_at(place), place as u64);
        }
    }
}
