//! What the tables `[[node]]` state.

ghost use Rattle.std.specs.Prelude.{◌≡◌, IfOk, IfErr};
ghost use Rattle.toml.specs.View.{table_view};
ghost use Rattle.instance_text.specs.Faults.{IsFaultOfPart};
ghost use Rattle.instance_text.specs.Stated.{stated_node, nodes_of};
ghost use Rattle.instance_text.specs.Views.{table_views};

use crate::error::{Key, Place, TextError};
use crate::{fields, keys};
use std::alloc::Global;
use toml::Table;
use ttp_model::Node;

/// The node of a table.
fn node(alloc: Global, table: &Table, index: usize) -> Result<Node, TextError>
    ensures ok { IfOk result (λ n. stated_node index (table_view table.now) ≡ Ok n) }
    ensures err { IfErr result (IsFaultOfPart (stated_node index (table_view table.now))) }
{
    let place = Place::Node(index);
    keys::judge(table, place)?;
    let name = fields::name(alloc, table, place, Key::Name)?;
    let capacities = fields::numbers(alloc, table, place, Key::Capacities)?;
    Ok(Node { name, capacities })
}

/// The nodes of these tables.
pub fn nodes(alloc: Global, tables: &[&Table]) -> Result<Vec<Node>, TextError>
    ensures ok { IfOk result (λ ns. nodes_of (table_views tables.now) ≡ Ok ns.items) }
    ensures err { IfErr result (IsFaultOfPart (nodes_of (table_views tables.now))) }
{
    let mut nodes = Vec::new(alloc);
    for (index, table) in tables.iter().enumerate() {
        nodes.push(node(alloc, table, index)?)?;
    }
    Ok(nodes)
}
