//! Which messages are sent, and who reads each?

ghost use Rattle.std.specs.Prelude.{◌≡◌, ◌<◌, ◌≤◌, ◌++◌, All, IfErr, IfOk, OnOk, length};
ghost use Rattle.std.specs.List.{flat_map};
ghost use Rattle.ttp_model.specs.declared.limits.TheConstants.{MOST_LINKS, MOST_MESSAGES};
ghost use Rattle.rates_model.specs.Rates.{message_at};
ghost use Rattle.rates_model.specs.Cycles.{jobs_of};
ghost use Rattle.rates_model.specs.Rules.{IsRatesProcess};
ghost use Rattle.endless_schedules.specs.Faults.{IsTableFault};
ghost use Rattle.endless_schedules.specs.Places.{ArePlaces};
ghost use Rattle.endless_schedules.specs.Unrolled.{job_message, jobs_reading, messages_of, readers, sent_of, stores_reading, unrolled_links, unrolled_messages};

use crate::fault::TableFault;
use crate::names::numbered;
use crate::places::Places;
use rates_model::{Rates, RatesMessage};
use std::alloc::Global;
use ttp_model::{MOST_MESSAGES, MemoryFault, Message, Numbers, Part};

/// Adds the jobs of q that read job `k` of a message's sender in the same cycle.
fn push_jobs_reading(
    list: &mut Vec<u32>,
    rates: &Rates,
    places: &Places,
    message: &RatesMessage,
    k: u32,
    q: u32,
) -> Result<(), MemoryFault>
    requires places { ArePlaces rates.now places.now }
    requires sender { IsRatesProcess rates.now message.now.sender }
    requires there { k < jobs_of rates.now message.now.sender }
    requires receiver { IsRatesProcess rates.now q }
    ensures { OnOk result (list.new.items ≡ list.old.items ++ jobs_reading rates.now message.now k q) }
{
    for j in 0..rates.jobs_of(q as usize) {
        if rates.reads_now(message.sender, q, message.delay, k, j) {
            list.push(places.of_job(rates, q, j))?;
        }
    }
    Ok(())
}

/// Adds all jobs that do.
fn push_all_reading(
    list: &mut Vec<u32>,
    rates: &Rates,
    places: &Places,
    message: &RatesMessage,
    k: u32,
) -> Result<(), MemoryFault>
    requires places { ArePlaces rates.now places.now }
    requires sender { IsRatesProcess rates.now message.now.sender }
    requires there { k < jobs_of rates.now message.now.sender }
    requires receivers { All (IsRatesProcess rates.now) message.now.receivers }
    ensures { OnOk result (list.new.items
        ≡ list.old.items ++ flat_map (jobs_reading rates.now message.now k) message.now.receivers) }
{
    for q in message.receivers.as_slice() {
        push_jobs_reading(list, rates, places, message, k, *q)?;
    }
    Ok(())
}

/// Adds the stores of message `m` that keep job `k` of its sender.
fn push_stores_reading(
    list: &mut Vec<u32>,
    rates: &Rates,
    places: &Places,
    m: usize,
    k: u32,
) -> Result<(), MemoryFault>
    requires places { ArePlaces rates.now places.now }
    requires inside { m < length rates.now.messages }
    requires there { k < jobs_of rates.now (message_at rates.now m).sender }
    ensures { OnOk result (list.new.items ≡ list.old.items ++ stores_reading rates.now m k) }
{
    let jobs = rates.jobs_of(rates.message_at(m).sender as usize);
    if k + 1 != jobs {
        return Ok(());
    }
    let first = places.first_stores[m];
    for place in 0..places.storing[m].len() {
        list.push(first + place as u32)?;
    }
    Ok(())
}

/// All that read job `k` of the sender of message `m`.
fn readers(
    alloc: Global,
    rates: &Rates,
    places: &Places,
    m: usize,
    k: u32,
) -> Result<Numbers, MemoryFault>
    requires places { ArePlaces rates.now places.now }
    requires inside { m < length rates.now.messages }
    requires there { k < jobs_of rates.now (message_at rates.now m).sender }
    ensures { IfOk result (λ list. list ≡ readers rates.now m k) }
{
    let mut list = Vec::new(alloc);
    push_all_reading(&mut list, rates, places, rates.message_at(m), k)?;
    push_stores_reading(&mut list, rates, places, m, k)?;
    Ok(Numbers::new(list))
}

/// The message with what job `k` of the sender of message `m` makes, for these receivers.
#[tactic(auto, unfolding(crate::specs::Unrolled::job_message))]
fn job_message(
    alloc: Global,
    rates: &Rates,
    places: &Places,
    m: usize,
    k: u32,
    receivers: Numbers,
) -> Result<Message, MemoryFault>
    requires places { ArePlaces rates.now places.now }
    requires inside { m < length rates.now.messages }
    requires there { k < jobs_of rates.now (message_at rates.now m).sender }
    requires readers { receivers ≡ readers rates.now m k }
    ensures { IfOk result (λ made. made ≡ job_message rates.now m k) }
{
    let message = rates.message_at(m);
    let jobs = rates.jobs_of(message.sender as usize);
    let name = numbered(alloc, &message.name, jobs, k)?;
    Ok(Message {
        name,
        sender: places.of_job(rates, message.sender, k),
        receivers,
        bytes: message.bytes,
        both: message.both,
    })
}

/// Adds what is sent of job `k` of the sender of message `m`: nothing where nobody reads it.
fn push_message(
    alloc: Global,
    list: &mut Vec<Message>,
    rates: &Rates,
    places: &Places,
    m: usize,
    k: u32,
) -> Result<(), MemoryFault>
    requires places { ArePlaces rates.now places.now }
    requires inside { m < length rates.now.messages }
    requires there { k < jobs_of rates.now (message_at rates.now m).sender }
    ensures { OnOk result (list.new.items ≡ list.old.items ++ sent_of rates.now m k) }
{
    let receivers = readers(alloc, rates, places, m, k)?;
    if !receivers.is_empty() {
        list.push(job_message(alloc, rates, places, m, k, receivers)?)?;
    }
    Ok(())
}

/// Adds what is sent of message `m`.
fn push_messages(
    alloc: Global,
    list: &mut Vec<Message>,
    rates: &Rates,
    places: &Places,
    m: usize,
) -> Result<(), MemoryFault>
    requires places { ArePlaces rates.now places.now }
    requires inside { m < length rates.now.messages }
    ensures { OnOk result (list.new.items ≡ list.old.items ++ messages_of rates.now m) }
{
    let jobs = rates.jobs_of(rates.message_at(m).sender as usize);
    for k in 0..jobs {
        push_message(alloc, list, rates, places, m, k)?;
    }
    Ok(())
}

/// All messages of a cycle, unless these are too many; its links aren't.
pub fn all_messages(
    alloc: Global,
    rates: &Rates,
    places: &Places,
) -> Result<Vec<Message>, TableFault>
    requires places { ArePlaces rates.now places.now }
    requires links { length (unrolled_links rates.now) ≤ MOST_LINKS }
    ensures ok { IfOk result (λ messages. messages.items ≡ unrolled_messages rates.now) }
    ensures err { IfErr result (IsTableFault rates.now) }
{
    let mut messages = Vec::new(alloc);
    for m in 0..rates.messages().len() {
        push_messages(alloc, &mut messages, rates, places, m)?;
        if messages.len() > MOST_MESSAGES {
            return Err(TableFault::TooMany(Part::Messages));
        }
    }
    Ok(messages)
}
