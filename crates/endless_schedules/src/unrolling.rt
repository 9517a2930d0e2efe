//! Which instance is it in which all jobs of a cycle run?

ghost use Rattle.std.specs.Prelude.{◌≡◌, IfErr, IfOk};
ghost use Rattle.ttp_model.specs.Refusals.{IsRefusal};
ghost use Rattle.ttp_model.specs.Rules.{IsInstance};
ghost use Rattle.endless_schedules.specs.Refusals.{IsUnrollFault};
ghost use Rattle.endless_schedules.specs.Unrolled.{unrolled};

use crate::fault::TableFault;
use crate::tables::tables_of;
use rates_model::Rates;
use std::alloc::Global;
use ttp_model::{Instance, ModelError, Part, Parts};

/// The tables of an instance that is refused, and why.
#[derive(Drop)]
pub struct Unrollable {
    pub tables: Parts,
    pub error: ModelError,
}

/// Why a cluster of several rates has no instance.
#[derive(Drop)]
pub enum UnrollFault {
    /// When one of its lists would be longer than that of any instance.
    TooMany(Part),
    /// When it breaks another rule of instances; with its tables, which have the names of jobs.
    Refused(Unrollable),
    /// When memory was wanted, and refused.
    OutOfMemory,
}

impl From<TableFault> for UnrollFault {
    ghost use Rattle.endless_schedules.specs.Refusals.{told};

    ghost from_gives = { λ e f. f ≡ told e };

    fn from(fault: TableFault) -> UnrollFault {
        match fault {
            TableFault::TooMany(part) => UnrollFault::TooMany(part),
            TableFault::Memory => UnrollFault::OutOfMemory,
        }
    }
}

/// The tables of the instance again, which is refused for this.
fn refused_for(alloc: Global, rates: &Rates, error: ModelError) -> UnrollFault
    requires { IsRefusal (unrolled rates.now) error }
    ensures { IsUnrollFault rates.now result }
{
    let _processes = rates.processes();
    match error {
        ModelError::OutOfMemory => UnrollFault::OutOfMemory,
        error => match tables_of(alloc, rates) {
            Ok(tables) => UnrollFault::Refused(Unrollable { tables, error }),
            Err(fault) => UnrollFault::from(fault),
        },
    }
}

/// The instance in which all jobs of a cycle run, or why it is refused: a list that is too long before anything is made, then the
/// first rule that it breaks. Takes time and memory in proportion to the instance and to the tables of the cluster.
pub fn unroll(alloc: Global, rates: &Rates) -> Result<Instance, UnrollFault>
    ensures ok { IfOk result (λ i. i ≡ unrolled rates.now) }
    ensures instance { IfOk result IsInstance }
    ensures err { IfErr result (IsUnrollFault rates.now) }
{
    let _processes = rates.processes();
    let tables = tables_of(alloc, rates)?;
    let Parts {
        cluster,
        nodes,
        processes,
        links,
        messages,
    } = tables;
    match Instance::build(alloc, cluster, nodes, processes, links, messages) {
        Ok(instance) => Ok(instance),
        Err(error) => Err(refused_for(alloc, rates, error)),
    }
}
