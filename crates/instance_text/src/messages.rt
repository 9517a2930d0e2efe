//! What the tables `[[message]]` state.

ghost use Rattle.std.specs.Prelude.{◌≡◌, IfOk, IfErr};
ghost use Rattle.toml.specs.View.{table_view};
ghost use Rattle.instance_text.specs.Faults.{IsFaultOfPart};
ghost use Rattle.instance_text.specs.Index.{index_by};
ghost use Rattle.instance_text.specs.Stated.{message_of, messages_of};
ghost use Rattle.instance_text.specs.Views.{table_views};

use crate::error::{Key, Place, TextError};
use crate::names::Names;
use crate::{fields, keys};
use std::alloc::Global;
use toml::Table;
use ttp_model::Message;

/// The message of a table.
fn message(
    alloc: Global,
    table: &Table,
    index: usize,
    processes: &Names,
) -> Result<Message, TextError>
    ensures ok { IfOk result (λ m. message_of (index_by processes.now) index
        (table_view table.now) ≡ Ok m) }
    ensures err { IfErr result (IsFaultOfPart (message_of (index_by processes.now) index
        (table_view table.now))) }
{
    let place = Place::Message(index);
    keys::judge(table, place)?;
    let name = fields::name(alloc, table, place, Key::Name)?;
    let sender = fields::index(table, place, Key::From, processes)?;
    let receivers = fields::indices(alloc, table, place, Key::To, processes)?;
    let bytes = fields::number(table, place, Key::Bytes)?;
    let both = fields::truth_or(table, place, Key::Both, false)?;
    Ok(Message {
        name,
        sender,
        receivers,
        bytes,
        both,
    })
}

/// The messages of these tables.
pub fn messages(
    alloc: Global,
    tables: &[&Table],
    processes: &Names,
) -> Result<Vec<Message>, TextError>
    ensures ok { IfOk result (λ ms. messages_of (index_by processes.now) (table_views tables.now)
        ≡ Ok ms.items) }
    ensures err { IfErr result (IsFaultOfPart (messages_of (index_by processes.now)
        (table_views tables.now))) }
{
    let mut messages = Vec::new(alloc);
    for (index, table) in tables.iter().enumerate() {
        messages.push(message(alloc, table, index, processes)?)?;
    }
    Ok(messages)
}
