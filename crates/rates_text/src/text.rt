//! Which cluster of several rates a text states.

ghost use Rattle.std.specs.Prelude.{◌≡◌, Ok, IfOk, IfErr};
ghost use Rattle.toml.specs.View.{table_view};
ghost use Rattle.instance_text.specs.Faults.{IsDocument};
ghost use Rattle.rates_model.specs.Parts.{rates_of};
ghost use Rattle.rates_model.specs.Rules.{IsRates};
ghost use Rattle.rates_text.specs.Faults.{IsFaultOfPart, IsFirstRatesFault, IsTextFault, StatesRates};
ghost use Rattle.rates_text.specs.Kinds.{index_in};
ghost use Rattle.rates_text.specs.Stated.{node_names, process_names, processes_of, stated, stated_in, stated_in_its_ticks, stated_reads};
ghost use Rattle.rates_text.specs.Views.{table_views, tables_view};

use crate::error::RatesTextError;
use crate::names::RatesNames;
use crate::top::Tables;
use crate::{chains, cluster, links, messages, nodes, processes, top};
use instance_text::TextError;
use rates_model::{Rates, RatesCluster, RatesNode, RatesParts, RatesProcess, make_finer};
use std::alloc::Global;
use toml::Table;

/// The top table that the bytes are.
fn document(alloc: Global, bytes: &[u8]) -> Result<Table, RatesTextError>
    ensures ok { IfOk result (λ table. IsDocument bytes.now (table_view table)) }
    ensures err { IfErr result (IsTextFault bytes.now) }
{
    match instance_text::document(alloc, bytes) {
        Ok(table) => Ok(table),
        Err(TextError::OutOfMemory) => Err(RatesTextError::OutOfMemory),
        Err(_) => Err(RatesTextError::NotToml),
    }
}

/// The parts that a top table states, or its first fault: all that `read` judges before it asks for rules.
pub fn stated_parts(alloc: Global, table: &Table) -> Result<RatesParts, RatesTextError>
    ensures ok { IfOk result (λ ps. stated (table_view table.now) ≡ Ok (rates_of ps)) }
    ensures err { IfErr result (IsFaultOfPart (stated (table_view table.now))) }
{
    let mut parts = parts_in_its_ticks(alloc, table)?;
    make_finer(&mut parts);
    Ok(parts)
}

/// These in ticks of the text, whatever round it asks for.
fn parts_in_its_ticks(alloc: Global, table: &Table) -> Result<RatesParts, RatesTextError>
    ensures ok { IfOk result (λ ps. stated_in_its_ticks (table_view table.now) ≡ Ok (rates_of ps)) }
    ensures err { IfErr result (IsFaultOfPart (stated_in_its_ticks (table_view table.now))) }
{
    let tables = top::tables_of(alloc, table)?;
    let parts = parts_in(alloc, &tables);
    drop(tables);
    parts
}

/// The parts that these tables state, one list after another.
fn parts_in(alloc: Global, tables: &Tables) -> Result<RatesParts, RatesTextError>
    ensures ok { IfOk result (λ ps. stated_in (tables_view tables.now) ≡ Ok (rates_of ps)) }
    ensures err { IfErr result (IsFaultOfPart (stated_in (tables_view tables.now))) }
{
    let cluster = cluster::cluster(tables.cluster)?;
    let nodes = nodes::nodes(alloc, &tables.nodes)?;
    let processes = processes_on(alloc, &tables.processes, &nodes)?;
    parts_behind(alloc, tables, cluster, nodes, processes)
}

/// The processes of these tables, which may name these nodes.
fn processes_on(
    alloc: Global,
    tables: &[&Table],
    nodes: &[RatesNode],
) -> Result<Vec<RatesProcess>, RatesTextError>
    ensures ok { IfOk result (λ ps. processes_of (index_in (node_names nodes.now)) (table_views tables.now)
        ≡ Ok ps.items) }
    ensures err { IfErr result (IsFaultOfPart (processes_of (index_in (node_names nodes.now))
        (table_views tables.now))) }
{
    let names = RatesNames::of(alloc, nodes)?;
    let processes = processes::processes(alloc, tables, &names);
    drop(names);
    processes
}

/// The parts with what links, messages and chains of these tables state, which may name these processes.
fn parts_behind(
    alloc: Global,
    tables: &Tables,
    cluster: RatesCluster,
    nodes: Vec<RatesNode>,
    processes: Vec<RatesProcess>,
) -> Result<RatesParts, RatesTextError>
    ensures ok { IfOk result (λ ps. stated_reads (index_in (process_names processes.items)) (tables_view tables.now)
        cluster nodes.items processes.items ≡ Ok (rates_of ps)) }
    ensures err { IfErr result (IsFaultOfPart (stated_reads (index_in (process_names processes.items)) (tables_view tables.now)
        cluster nodes.items processes.items)) }
{
    let names = RatesNames::of(alloc, &processes)?;
    let links = links::links(alloc, &tables.links, &names)?;
    let messages = messages::messages(alloc, &tables.messages, &names)?;
    let chains = chains::chains(alloc, &tables.chains, &names)?;
    drop(names);
    Ok(RatesParts {
        cluster,
        nodes,
        processes,
        links,
        messages,
        chains,
    })
}

/// The cluster of several rates that the bytes state, in ticks so fine that its round is as long as they ask for, or the first fault, in the order of `RatesTextError`. Takes time in
/// proportion to the bytes, as far as names spread over their hashes.
pub fn read(alloc: Global, bytes: &[u8]) -> Result<Rates, RatesTextError>
    ensures ok { IfOk result (λ rates. StatesRates bytes.now (Ok rates)) }
    ensures keeps { IfOk result IsRates }
    ensures err { IfErr result (IsFirstRatesFault bytes.now) }
{
    let table = document(alloc, bytes)?;
    let parts = stated_parts(alloc, &table)?;
    Ok(Rates::build(parts)?)
}
