//! What the tables `[[link]]` state.

ghost use Rattle.std.specs.Prelude.{◌≡◌, IfOk, IfErr};
ghost use Rattle.toml.specs.View.{table_view};
ghost use Rattle.instance_text.specs.Faults.{IsFaultOfPart};
ghost use Rattle.instance_text.specs.Index.{index_by};
ghost use Rattle.instance_text.specs.Stated.{link_of, links_of};
ghost use Rattle.instance_text.specs.Views.{table_views};

use crate::error::{Key, Place, TextError};
use crate::names::Names;
use crate::{fields, keys};
use std::alloc::Global;
use toml::Table;
use ttp_model::Link;

/// The link of a table.
fn link(table: &Table, index: usize, processes: &Names) -> Result<Link, TextError>
    ensures { result ≡ link_of (index_by processes.now) index (table_view table.now) }
{
    let place = Place::Link(index);
    keys::judge(table, place)?;
    let before = fields::index(table, place, Key::From, processes)?;
    let after = fields::index(table, place, Key::To, processes)?;
    Ok(Link { before, after })
}

/// The links of these tables.
pub fn links(alloc: Global, tables: &[&Table], processes: &Names) -> Result<Vec<Link>, TextError>
    ensures ok { IfOk result (λ ls. links_of (index_by processes.now) (table_views tables.now)
        ≡ Ok ls.items) }
    ensures err { IfErr result (IsFaultOfPart (links_of (index_by processes.now)
        (table_views tables.now))) }
{
    let mut links = Vec::new(alloc);
    for (index, table) in tables.iter().enumerate() {
        links.push(link(table, index, processes)?)?;
    }
    Ok(links)
}
