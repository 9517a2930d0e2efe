//! What the tables `[[message]]` state.

ghost use Rattle.std.specs.Prelude.{◌≡◌, IfOk, IfErr};
ghost use Rattle.toml.specs.View.{table_view};
ghost use Rattle.rates_text.specs.Faults.{IsFaultOfPart};
ghost use Rattle.rates_text.specs.Index.{index_by};
ghost use Rattle.rates_text.specs.Stated.{message_of, messages_of};
ghost use Rattle.rates_text.specs.Views.{table_views};

use crate::error::{RatesKey, RatesTable, RatesTextError};
use crate::names::RatesNames;
use crate::{fields, keys};
use instance_text::Place;
use rates_model::RatesMessage;
use std::alloc::Global;
use toml::Table;

/// The message of a table.
fn message(
    alloc: Global,
    table: &Table,
    index: usize,
    processes: &RatesNames,
) -> Result<RatesMessage, RatesTextError>
    ensures ok { IfOk result (λ m. message_of (index_by processes.now) index
        (table_view table.now) ≡ Ok m) }
    ensures err { IfErr result (IsFaultOfPart (message_of (index_by processes.now) index
        (table_view table.now))) }
{
    let place = RatesTable::Of(Place::Message(index));
    keys::judge(table, place)?;
    let name = fields::name(alloc, table, place, RatesKey::Name)?;
    let sender = fields::index(table, place, RatesKey::From, processes)?;
    let receivers = fields::indices(alloc, table, place, RatesKey::To, processes)?;
    let bytes = fields::number(table, place, RatesKey::Bytes)?;
    let both = fields::truth_or(table, place, RatesKey::Both, false)?;
    let delay = fields::number_or(table, place, RatesKey::Delay, 0)?;
    Ok(RatesMessage {
        name,
        sender,
        receivers,
        bytes,
        both,
        delay,
    })
}

/// The messages of these tables.
pub fn messages(
    alloc: Global,
    tables: &[&Table],
    processes: &RatesNames,
) -> Result<Vec<RatesMessage>, RatesTextError>
    ensures ok { IfOk result (λ ms. messages_of (index_by processes.now) (table_views tables.now)
        ≡ Ok ms.items) }
    ensures err { IfErr result (IsFaultOfPart (messages_of (index_by processes.now)
        (table_views tables.now))) }
{
    let mut messages = Vec::new(alloc);
    for (index, table) in tables.iter().enumerate() {
        messages.push(message(alloc, table, index, processes)?)?;
    }
    Ok(messages)
}
