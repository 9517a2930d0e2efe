//! Which tables a text has.

ghost use Rattle.std.specs.Prelude.{◌≡◌, IfOk, IfErr};
ghost use Rattle.toml.specs.View.{table_view};
ghost use Rattle.instance_text.specs.Faults.{IsFaultOfPart};
ghost use Rattle.instance_text.specs.Stated.{stated_tables};
ghost use Rattle.instance_text.specs.Views.{tables_view};

use crate::error::{Key, Place, TextError};
use crate::{fields, keys};
use std::alloc::Global;
use toml::Table;

/// The tables of a text, those of each array in their order.
#[derive(Drop)]
pub struct Tables<'a> {
    pub cluster: &'a Table,
    pub nodes: Vec<&'a Table>,
    pub processes: Vec<&'a Table>,
    pub links: Vec<&'a Table>,
    pub messages: Vec<&'a Table>,
}

/// The tables in the top table.
pub fn tables_of(alloc: Global, table: &Table) -> Result<Tables<'_>, TextError>
    ensures ok { IfOk result (λ ts. stated_tables (table_view table.now) ≡ Ok (tables_view ts)) }
    ensures err { IfErr result (IsFaultOfPart (stated_tables (table_view table.now))) }
{
    let place = Place::Top;
    keys::judge(table, place)?;
    let cluster = fields::table(table, place, Key::Cluster)?;
    let nodes = fields::tables(alloc, table, place, Key::Node)?;
    let processes = fields::tables(alloc, table, place, Key::Process)?;
    let links = fields::tables_if_any(alloc, table, place, Key::Link)?;
    let messages = fields::tables_if_any(alloc, table, place, Key::Message)?;
    Ok(Tables {
        cluster,
        nodes,
        processes,
        links,
        messages,
    })
}
