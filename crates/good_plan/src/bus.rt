//! The slots of a round, and what the frames of each node carry.

ghost use Rattle.std.specs.Prelude.{◌≡◌, ◌<◌, ◌+◌, length};

use crate::draft::Draft;
use crate::network::Network;
use crate::shelf::Shelf;
use crate::table::Table;
use std::ops::Range;
use ttp_model::BOTH_CHANNELS;

/// The round of a frame that carries nothing yet.
const UNUSED: u64 = u64::MAX;

/// The first channel, as a plan tells it.
const FIRST: u64 = 0;

/// The second one.
const SECOND: u64 = 1;

/// Both of them.
const BOTH: u64 = BOTH_CHANNELS as u64;

/// A message that asks for room in a frame.
#[derive(Clone, Copy)]
struct Parcel {
    bytes: u64,
    /// Whether it is to be on both channels.
    both: bool,
}

/// When slots begin and end, and which frames have room. Times are ticks.
#[derive(Drop)]
pub struct Bus {
    /// By node, when its slot begins in a round and when it ends, and how many bytes it carries.
    begins: Table,
    ends: Table,
    pub capacities: Table,
    round_length: u64,
    /// The frames that carry something, node after node: which round, and how many bytes so far on the first channel.
    rounds: Table,
    loads: Table,
    /// By node, the first of its frames that isn't too early for what it sends next.
    passed: Table,
    /// Whether there is a second channel, and how many bytes they carry there.
    has_second: bool,
    second_loads: Table,
}

impl Bus {
    /// No slots, for so many nodes and messages, on one channel or two.
    pub fn new(shelf: &mut Shelf, nodes: usize, messages: usize, has_second: bool) -> Self
        requires { 6 < length shelf.old.tables.items }
        ensures { length shelf.new.tables.items + 7 ≡ length shelf.old.tables.items }
    {
        let frames = messages.saturating_mul(2);
        Bus {
            begins: shelf.zeros(nodes),
            ends: shelf.zeros(nodes),
            capacities: shelf.zeros(nodes),
            round_length: 1,
            rounds: shelf.zeros(frames),
            loads: shelf.zeros(frames),
            passed: shelf.zeros(nodes),
            has_second,
            second_loads: shelf.zeros(if has_second { frames } else { 0 }),
        }
    }

    /// Takes the slots of a draft.
    pub fn lay_out(&mut self, network: &Network, draft: &Draft) {
        let mut time = 0u64;
        for position in 0..draft.order.len() {
            let node = draft.order.place_at(position);
            let capacity = draft.capacity(network, node);
            self.begins.set(node, time);
            self.capacities.set(node, capacity);
            time = time.saturating_add(network.slot_length(capacity));
            self.ends.set(node, time);
        }
        self.round_length = time.max(1);
    }

    /// Takes all out of the frames.
    pub fn empty(&mut self, network: &Network) {
        self.passed.take_over(&network.frames);
        self.rounds.fill(UNUSED);
        self.loads.fill(0);
        self.second_loads.fill(0);
    }

    /// The first round in which a node sends at this time or later.
    pub fn first_round(&self, node: usize, time: u64) -> u64 {
        let wait = time.saturating_sub(self.begins.at(node));
        wait.div_ceil(self.round_length.max(1))
    }

    /// When the frame of a node in this round has been sent.
    pub fn end_of(&self, node: usize, round: u64) -> u64 {
        round
            .saturating_mul(self.round_length)
            .saturating_add(self.ends.at(node))
    }

    /// Puts a message into a frame of this round or later, and gives the frame's round and the message's channel.
    pub fn load(
        &mut self,
        network: &Network,
        draft: &Draft,
        node: usize,
        m: usize,
        first: u64,
    ) -> (u64, u64) {
        let parcel = Parcel {
            bytes: network.bytes.at(m),
            both: network.is_on_both(m),
        };
        let mut passes = draft.holds.at(m);
        let mut next = first;
        for frame in self.frames_from(network, node, first) {
            if self.rounds.at(frame) == UNUSED {
                self.rounds.set(frame, next);
            }
            let round = self.rounds.at(frame);
            if round >= first
                && let Some(channel) = self.channel_with_room(node, frame, parcel)
            {
                if passes == 0 {
                    self.put(frame, channel, parcel.bytes);
                    return (round, channel);
                }
                passes = passes.saturating_sub(1);
            }
            next = round.saturating_add(1).max(first);
        }
        (first, if parcel.both { BOTH } else { FIRST })
    }

    /// The frames of a node that are of this round or later, or carry nothing yet. A node never asks for an earlier round than before, as its
    /// processes run one after another.
    fn frames_from(&mut self, network: &Network, node: usize, first: u64) -> Range<usize> {
        let end = network.frames.place_at(node.saturating_add(1));
        let mut begin = end;
        for frame in self.passed.place_at(node)..end {
            if self.rounds.at(frame) >= first {
                begin = frame;
                break;
            }
        }
        self.passed.set(node, begin as u64);
        begin..end
    }

    /// The channel on which a frame has room for a message, as a plan tells it: the first that has. A message that is to be on
    /// both needs room on both.
    fn channel_with_room(&self, node: usize, frame: usize, parcel: Parcel) -> Option<u64> {
        let capacity = self.capacities.at(node);
        let first = self.loads.at(frame).saturating_add(parcel.bytes) <= capacity;
        if !self.has_second {
            return if first { Some(FIRST) } else { None };
        }
        let second = self.second_loads.at(frame).saturating_add(parcel.bytes) <= capacity;
        match (parcel.both, first, second) {
            (true, true, true) => Some(BOTH),
            (false, true, _) => Some(FIRST),
            (false, false, true) => Some(SECOND),
            _ => None,
        }
    }

    /// Puts so many bytes into a frame, on this channel or on both.
    fn put(&mut self, frame: usize, channel: u64, bytes: u64) {
        if channel != SECOND {
            let load = self.loads.at(frame).saturating_add(bytes);
            self.loads.set(frame, load);
        }
        if channel != FIRST {
            let load = self.second_loads.at(frame).saturating_add(bytes);
            self.second_loads.set(frame, load);
        }
    }
}
