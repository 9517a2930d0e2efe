//! What the tables `[[node]]` state.

ghost use Rattle.std.specs.Prelude.{◌≡◌, IfOk, IfErr};
ghost use Rattle.toml.specs.View.{table_view};
ghost use Rattle.rates_text.specs.Faults.{IsFaultOfPart};
ghost use Rattle.rates_text.specs.Stated.{stated_node, nodes_of};
ghost use Rattle.rates_text.specs.Views.{table_views};

use crate::error::{RatesKey, RatesTable, RatesTextError};
use crate::{fields, keys};
use instance_text::Place;
use rates_model::RatesNode;
use std::alloc::Global;
use toml::Table;

/// The node of a table.
fn node(alloc: Global, table: &Table, index: usize) -> Result<RatesNode, RatesTextError>
    ensures ok { IfOk result (λ n. stated_node index (table_view table.now) ≡ Ok n) }
    ensures err { IfErr result (IsFaultOfPart (stated_node index (table_view table.now))) }
{
    let place = RatesTable::Of(Place::Node(index));
    keys::judge(table, place)?;
    let name = fields::name(alloc, table, place, RatesKey::Name)?;
    let capacity = fields::number(table, place, RatesKey::Capacity)?;
    Ok(RatesNode { name, capacity })
}

/// The nodes of these tables.
pub fn nodes(alloc: Global, tables: &[&Table]) -> Result<Vec<RatesNode>, RatesTextError>
    ensures ok { IfOk result (λ ns. nodes_of (table_views tables.now) ≡ Ok ns.items) }
    ensures err { IfErr result (IsFaultOfPart (nodes_of (table_views tables.now))) }
{
    let mut nodes = Vec::new(alloc);
    for (index, table) in tables.iter().enumerate() {
        nodes.push(node(alloc, table, index)?)?;
    }
    Ok(nodes)
}
