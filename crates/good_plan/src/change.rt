//! Which change is tried next.

use crate::chance::Chance;
use crate::draft::{Change, Draft};
use crate::network::Network;
use crate::path::Path;

/// What changes are chosen by.
#[derive(Clone, Copy)]
pub struct Choice<'a> {
    pub network: &'a Network<'a>,
    pub draft: &'a Draft,
    pub path: &'a Path,
    /// Whether messages may be made to wait.
    pub holds: bool,
}

impl Choice<'_> {
    /// A change by chance: of each five three of what makes the schedule long, where there is one.
    pub fn next(&self, chance: &mut Chance) -> Change {
        if chance.below(5) < 3
            && let Some((before, after)) = self.path.link(chance)
            && let Some(change) = self.urge(before, after, chance)
        {
            change
        } else {
            self.anywhere(chance)
        }
    }

    /// A change that may let a process start earlier that waits for another one.
    fn urge(&self, before: usize, after: usize, chance: &mut Chance) -> Option<Change> {
        if !self.network.share_a_node(before, after) {
            return Some(self.urge_message(before, chance));
        }
        let next = self.draft.neighbour_after(self.network, before) == Some(after);
        if next && !self.network.is_linked(before, after) {
            let place = self.draft.places.place_at(before);
            Some(Change::Line(place, place.saturating_add(1)))
        } else {
            None
        }
    }

    /// A change that may bring a message of this process earlier.
    fn urge_message(&self, sender: usize, chance: &mut Chance) -> Change {
        let node = self.network.homes.place_at(sender);
        let position = self.draft.order.find(node as u64);
        if self.holds && chance.below(10) < 3 {
            return match self.give_way(sender, node, chance) {
                Some(change) => change,
                None => self.hold(node, chance),
            };
        }
        match chance.below(4) {
            0 => self.option(node, chance),
            1 => Change::Slots(position, chance.below(self.draft.order.len())),
            2 => Change::Slot(position, chance.below(self.draft.order.len())),
            _ => self.advance(sender, chance),
        }
    }

    /// A message of this process that goes later than it could lets fewer frames pass; where it lets none pass, one that goes
    /// before it lets one more pass.
    fn give_way(&self, sender: usize, node: usize, chance: &mut Chance) -> Option<Change> {
        let Some(message) = self.held_up(sender, chance) else {
            return None;
        };
        let passes = self.draft.holds.at(message);
        if passes > 0 {
            return Some(Change::Hold(message, passes - 1));
        }
        match self.in_front(message, node, chance) {
            Some(other) => Some(Change::Hold(other, self.draft.holds.at(other).saturating_add(1))),
            None => None,
        }
    }

    /// One of the messages of a process that go later than they could, by chance.
    fn held_up(&self, sender: usize, chance: &mut Chance) -> Option<usize> {
        let mut found = None;
        let mut count = 0usize;
        for m in self.network.outgoing.row(sender) {
            if self.path.is_held_up(*m as usize) {
                count = count.saturating_add(1);
                if chance.below(count) == 0 {
                    found = Some(*m as usize);
                }
            }
        }
        found
    }

    /// One of the messages of a node that go in a round in which this one could, by chance.
    fn in_front(&self, message: usize, node: usize, chance: &mut Chance) -> Option<usize> {
        let mut found = None;
        let mut count = 0usize;
        for m in self.network.messages_of(node) {
            let other = *m as usize;
            if other != message && self.path.is_in_front(other, message) {
                count = count.saturating_add(1);
                if chance.below(count) == 0 {
                    found = Some(other);
                }
            }
        }
        found
    }

    /// A message of this node waits for a later frame or, mostly, for none.
    fn hold(&self, node: usize, chance: &mut Chance) -> Change {
        let messages = self.network.messages_of(node);
        let place = chance.below(messages.len());
        let message = messages.get(place).copied().unwrap_or(0);
        Change::Hold(message as usize, u64::from(chance.below(4) == 0))
    }

    /// Another capacity of a node, which carries each of its messages.
    fn option(&self, node: usize, chance: &mut Chance) -> Change {
        let roomy = self.network.roomy.place_at(node);
        let choices = self.network.options(node).len().saturating_sub(roomy);
        Change::Option(node, roomy.saturating_add(chance.below(choices)) as u64)
    }

    /// A process goes before the one that runs before it on its node.
    fn advance(&self, p: usize, chance: &mut Chance) -> Change {
        if self.draft.has_neighbour_before(self.network, p) {
            let place = self.draft.places.place_at(p);
            Change::Line(place, place.saturating_sub(1))
        } else {
            self.move_process(p, chance)
        }
    }

    /// Any change.
    fn anywhere(&self, chance: &mut Chance) -> Change {
        let nodes = self.draft.order.len();
        let p = chance.below(self.draft.line.len());
        match chance.below(8) {
            0 => Change::Slots(chance.below(nodes), chance.below(nodes)),
            1 => Change::Slot(chance.below(nodes), chance.below(nodes)),
            2 => self.option(chance.below(nodes), chance),
            3 | 4 | 5 => self.advance(p, chance),
            _ => self.move_process(p, chance),
        }
    }

    /// A process goes to another place among those of its node.
    fn move_process(&self, p: usize, chance: &mut Chance) -> Change {
        let others = self.network.residents.row(self.network.homes.place_at(p));
        let other = others.get(chance.below(others.len())).copied().unwrap_or(0);
        Change::Line(
            self.draft.places.place_at(p),
            self.draft.places.place_at(other as usize),
        )
    }
}
