//! Which instance a text states.

ghost use Rattle.std.specs.Prelude.{◌≡◌, ◌≢◌, Ok, IfOk, IfErr, IsOkUnless};
ghost use Rattle.toml.specs.Data.{Members};
ghost use Rattle.toml.specs.View.{table_view};
ghost use Rattle.ttp_model.specs.Instance.{Instance};
ghost use Rattle.ttp_model.specs.Rules.{IsInstance};
ghost use Rattle.instance_text.specs.Faults.{IsFaultOfPart, IsDocument, IsTextFault, States, IsFirstTextFault};
ghost use Rattle.instance_text.specs.Stated.{stated_by, stated_in, processes_of, node_names};
ghost use Rattle.instance_text.specs.Index.{cut_index_in};
ghost use Rattle.ttp_model.specs.Parts.{instance_of};
ghost use Rattle.instance_text.specs.Views.{table_views, tables_view};
ghost use Rattle.instance_text.specs.declared.error.TextError.TheVariants.{OutOfMemory};

use crate::error::TextError;
use crate::names::Names;
use crate::top::Tables;
use crate::{cluster, links, messages, nodes, processes, top};
use std::alloc::Global;
use std::str;
use toml::Table;
use ttp_model::{Instance, Node, Parts, Process};

/// The top table that the bytes are. Takes no memory for bytes that are no UTF-8.
pub fn document(alloc: Global, bytes: &[u8]) -> Result<Table, TextError>
    ensures ok { IfOk result (λ table. IsDocument bytes.now (table_view table)) }
    ensures err { IfErr result (IsTextFault bytes.now) }
{
    let Ok(text) = str::from_utf8(bytes) else {
        return Err(TextError::NotToml);
    };
    match toml::table_from_str(alloc, text) {
        Ok(table) => Ok(table),
        Err(e) => {
            if e.is_memory() {
                Err(TextError::OutOfMemory)
            } else {
                Err(TextError::NotToml)
            }
        }
    }
}

/// The parts that a top table states, with each index in 32 bits, or the first fault of the table: all that `read` judges
/// before it asks the model.
pub fn stated_parts(alloc: Global, table: &Table) -> Result<Parts, TextError>
    ensures ok { IfOk result (λ ps. stated_by cut_index_in (table_view table.now) ≡ Ok (instance_of ps)) }
    ensures err { IfErr result (IsFaultOfPart (stated_by cut_index_in (table_view table.now))) }
{
    let tables = top::tables_of(alloc, table)?;
    let parts = parts_in(alloc, &tables);
    drop(tables);
    parts
}

/// The parts that these tables state, one list after another.
fn parts_in(alloc: Global, tables: &Tables) -> Result<Parts, TextError>
    ensures ok { IfOk result (λ ps. stated_in cut_index_in (tables_view tables.now) ≡ Ok (instance_of ps)) }
    ensures err { IfErr result (IsFaultOfPart (stated_in cut_index_in (tables_view tables.now))) }
{
    let cluster = cluster::cluster(tables.cluster)?;
    let nodes = nodes::nodes(alloc, &tables.nodes)?;
    let processes = processes_on(alloc, &tables.processes, &nodes)?;
    let names = Names::of(alloc, &processes)?;
    let links = links::links(alloc, &tables.links, &names)?;
    let messages = messages::messages(alloc, &tables.messages, &names)?;
    drop(names);
    Ok(Parts {
        cluster,
        nodes,
        processes,
        links,
        messages,
    })
}

/// The processes of these tables, which may name these nodes.
fn processes_on(alloc: Global, tables: &[&Table], nodes: &[Node]) -> Result<Vec<Process>, TextError>
    ensures ok { IfOk result (λ ps. processes_of (cut_index_in (node_names nodes.now)) (table_views tables.now)
        ≡ Ok ps.items) }
    ensures err { IfErr result (IsFaultOfPart (processes_of (cut_index_in (node_names nodes.now))
        (table_views tables.now))) }
{
    let names = Names::of(alloc, nodes)?;
    let processes = processes::processes(alloc, tables, &names);
    drop(names);
    processes
}

/// The instance that the bytes state, or the first fault: bytes that are no TOML, then the top
/// table with the items of its arrays, the cluster, the nodes, the processes, the links and the
/// messages, and last what `Instance::build` refuses. In a table an unknown key goes first, and then
/// each key in turn: missing, of another kind, a number outside `u32`, a name that isn't there. An
/// array's items are judged one after another, each by all its kinds of fault. Takes time in
/// proportion to the bytes, as far as names spread over their hashes.
pub fn read(alloc: Global, bytes: &[u8]) -> Result<Instance, TextError>
    ensures ok { IfOk result (λ i. States bytes.now (Ok i)) }
    ensures instance { IfOk result IsInstance }
    ensures err { IfErr result (IsFirstTextFault bytes.now) }
    ensures only { (i : Instance) → States bytes.now (Ok i) → IsInstance i
        → IsOkUnless result OutOfMemory }
{
    let table = document(alloc, bytes)?;
    let parts = stated_parts(alloc, &table)?;
    let Parts {
        cluster,
        nodes,
        processes,
        links,
        messages,
    } = parts;
    Ok(Instance::build(alloc, cluster, nodes, processes, links, messages)?)
}
