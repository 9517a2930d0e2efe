//! How long the chains of links and messages are that are still to come.

ghost use Rattle.std.specs.Prelude.{◌≡◌, ◌<◌, ◌+◌, length};

use crate::network::Network;
use crate::shelf::Shelf;
use crate::table::Table;

/// For each process the time that the longest chain of links and messages takes at least that begins with it.
pub fn chain_times(shelf: &mut Shelf, network: &Network) -> Table
    requires { 0 < length shelf.old.tables.items }
    ensures { length shelf.new.tables.items + 1 ≡ length shelf.old.tables.items }
{
    let mut times = shelf.copy(&network.wcets);
    for _ in 0..times.len() {
        lengthen_by_links(network, &mut times);
        lengthen_by_messages(network, &mut times);
    }
    times
}

/// For each message the time of the longest chain that begins with one of its receivers.
pub fn receiver_times(shelf: &mut Shelf, network: &Network, times: &Table) -> Table
    requires { 0 < length shelf.old.tables.items }
    ensures { length shelf.new.tables.items + 1 ≡ length shelf.old.tables.items }
{
    let mut longest = shelf.zeros(0);
    for message in network.instance.messages() {
        longest.push(longest_of(message.receivers.as_slice(), times));
    }
    longest
}

/// The longest time of these processes.
fn longest_of(processes: &[u32], times: &Table) -> u64 {
    let mut longest = 0;
    for q in processes {
        longest = times.at(*q as usize).max(longest);
    }
    longest
}

/// Makes the times of chains over links longer by one process, where there is one more.
fn lengthen_by_links(network: &Network, times: &mut Table) {
    for link in network.instance.links() {
        let before = link.before as usize;
        let chain = times.at(link.after as usize);
        times.raise(before, chain.saturating_add(network.wcets.at(before)));
    }
}

/// The same for the chains over messages.
fn lengthen_by_messages(network: &Network, times: &mut Table) {
    for message in network.instance.messages() {
        let sender = message.sender as usize;
        let transfer = network.transfer(sender);
        let chain = longest_of(message.receivers.as_slice(), times).saturating_add(transfer);
        times.raise(sender, chain.saturating_add(network.wcets.at(sender)));
    }
}
