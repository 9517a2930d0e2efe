//! The schedule of a draft: each process starts as early as its place in the line allows, and each
//! message goes into the first frame with room, or into one of the next where it is to wait.

ghost use Rattle.std.specs.Prelude.{◌≡◌, ◌<◌, ◌+◌, length};

use crate::bus::Bus;
use crate::draft::Draft;
use crate::network::Network;
use crate::path::Path;
use crate::shelf::Shelf;
use crate::table::Table;

/// How many lists are taken to make it.
pub const TIMETABLE_TABLES: usize = 15;

/// When processes start and messages are sent, and what is known on the way there. Times are ticks.
#[derive(Drop)]
pub struct Timetable {
    pub starts: Table,
    pub rounds: Table,
    /// By message, its channel as a plan tells it.
    pub channels: Table,
    pub delay: u64,
    /// What the delay comes to at least, by the processes that something has arrived at.
    least: u64,
    /// By how much processes end too late, together.
    pub lateness: u64,
    /// By process, for how many processes and messages it still waits.
    waiting: Table,
    /// The processes that wait for nothing, as they come.
    queue: Table,
    pub path: Path,
    pub bus: Bus,
}

impl Timetable {
    /// Nothing runs or is sent yet.
    pub fn new(shelf: &mut Shelf, network: &Network) -> Self
        requires { 14 < length shelf.old.tables.items }
        ensures { length shelf.new.tables.items + 15 ≡ length shelf.old.tables.items }
    {
        let messages = network.bytes.len();
        Timetable {
            starts: shelf.copy(&network.releases),
            rounds: shelf.zeros(messages),
            channels: shelf.zeros(messages),
            delay: 0,
            least: 0,
            lateness: 0,
            waiting: shelf.copy(&network.waits),
            queue: shelf.zeros(0),
            path: Path::new(shelf, network.homes.len(), messages),
            bus: Bus::new(
                shelf,
                network.roomy.len(),
                messages,
                network.has_second_channel(),
            ),
        }
    }

    /// What is to be small: the delay, with a part of all that is late. With all of it, schedules that
    /// are late somewhere would differ by far more than the leeway of a climb.
    pub fn cost(&self) -> u64 {
        self.delay.saturating_add(self.lateness / 8)
    }

    /// Makes the schedule of a draft whose slots the bus has. None is made, and the answer is false, where processes of
    /// the line wait for each other in a ring, or where it would take longer than so many ticks.
    pub fn make(&mut self, network: &Network, draft: &Draft, most: u64) -> bool {
        self.bus.empty(network);
        self.clear(network, draft);
        for turn in 0..network.homes.len() {
            if turn >= self.queue.len() || self.least > most {
                return false;
            }
            let p = self.queue.place_at(turn);
            self.run(network, draft, p);
        }
        true
    }

    /// Nothing runs or is sent yet.
    fn clear(&mut self, network: &Network, draft: &Draft) {
        self.delay = 0;
        self.least = 0;
        self.lateness = 0;
        self.path.begin();
        self.starts.take_over(&network.releases);
        self.waiting.take_over(&network.waits);
        self.queue.clear();
        for p in 0..network.homes.len() {
            if draft.has_neighbour_before(network, p) {
                self.waiting.count_one(p);
            }
            self.enqueue_if_free(p);
        }
    }

    /// Puts a process at the end of the queue, where it waits for nothing.
    fn enqueue_if_free(&mut self, p: usize) {
        if self.waiting.at(p) == 0 {
            self.queue.push(p as u64);
        }
    }

    /// Runs a process at the time when all that it waited for is there, and sends its messages.
    fn run(&mut self, network: &Network, draft: &Draft, p: usize) {
        let end = self.starts.at(p).saturating_add(network.wcets.at(p));
        self.judge(network, p, end);
        if let Some(q) = draft.neighbour_after(network, p) {
            self.arrive(draft, q, end, p);
        }
        let instance = network.instance;
        for l in network.links_from(p) {
            self.arrive(draft, instance.link_at(*l as usize).after as usize, end, p);
        }
        self.send(network, draft, p, end);
    }

    /// Notes when a process ends.
    fn judge(&mut self, network: &Network, p: usize, end: u64) {
        if end > self.delay {
            self.delay = end;
            self.path.ends_last(p);
        }
        let late = end.saturating_sub(network.latest.at(p));
        self.lateness = self.lateness.saturating_add(late);
        self.path.is_late(p, late);
    }

    /// Something that a process waits for is there at this time, and came from another process.
    fn arrive(&mut self, draft: &Draft, q: usize, time: u64, from: usize) {
        if time > self.starts.at(q) {
            self.starts.set(q, time);
            self.least = self.least.max(time.saturating_add(draft.tails.at(q)));
            self.path.block(q, from);
        }
        self.waiting.set(q, self.waiting.at(q).saturating_sub(1));
        self.enqueue_if_free(q);
    }

    /// Sends the messages of a process that ends at this time.
    fn send(&mut self, network: &Network, draft: &Draft, p: usize, end: u64) {
        let messages = network.outgoing.row(p);
        if messages.is_empty() {
            return;
        }
        let cluster = network.instance.cluster();
        let node = network.homes.place_at(p);
        let ready = end.saturating_add(u64::from(cluster.copy_out));
        let first = self.bus.first_round(node, ready);
        for m in messages {
            let m = *m as usize;
            let (round, channel) = self.bus.load(network, draft, node, m, first);
            self.rounds.set(m, round);
            self.channels.set(m, channel);
            self.path.send(m, first, round);
            let sent = self.bus.end_of(node, round);
            let arrival = sent.saturating_add(u64::from(cluster.copy_in));
            self.deliver(network, draft, m, arrival, p);
        }
    }

    /// A message arrives at its receivers.
    fn deliver(&mut self, network: &Network, draft: &Draft, m: usize, time: u64, from: usize) {
        for q in network.receivers(m) {
            self.arrive(draft, *q as usize, time, from);
        }
    }
}
