//! What are the tables of a plan?

ghost use Rattle.std.specs.Prelude.{◌≡◌, ◌<◌, [], IfOk, length, slice_index_or};
ghost use Rattle.ttp_model.specs.Plans.{IsValid};

use crate::row::Row;
use crate::rows::rows_of;
use std::alloc::Global;
use std::marker::Model;
use tt_layout::cycle_rounds;
use ttp_model::{Instance, MemoryFault, Plan};

/// The table of one node.
#[derive(Drop)]
struct Table {
    rows: Vec<Row>,
}

impl Model for Table {
    ghost use Rattle.std.specs.Prelude.{List};
    ghost use Rattle.medl_tables.specs.declared.row.Row.{Row};

    ghost Value = { List Row };

    ghost view = { λ s. s.rows.items };
}

/// The table of each node: for each slot of the cycle, in order of time, who sends and what the
/// frame carries for the node.
#[derive(Drop)]
pub struct Medl {
    rounds: u32,
    tables: Vec<Table>,
}

impl Model for Medl {
    ghost use Rattle.medl_tables.specs.Medl.{Medl};

    ghost Value = { Medl };

    ghost view = { λ s. record { rounds = s.rounds; rows = s.tables.items } };
}

impl Medl {
    ghost use Rattle.medl_tables.specs.Medl.{AreTables, medl_of};

    /// The tables of a valid plan. A step for each row, and in each node's table one for each round
    /// and message.
    pub fn of(alloc: Global, instance: &Instance, plan: &Plan) -> Result<Self, MemoryFault>
        requires { IsValid instance.now plan.now }
        ensures tables { IfOk result (λ medl. medl ≡ medl_of instance.now plan.now) }
        ensures valid { IfOk result (AreTables instance.now) }
    {
        let rounds = cycle_rounds(instance, plan);
        let count = instance.nodes().len();
        let mut tables = Vec::with_capacity(alloc, count)?;
        for node in 0..count {
            let rows = rows_of(alloc, instance, plan, node as u32)?;
            tables.push(Table { rows })?;
        }
        Ok(Medl { rounds, tables })
    }

    /// How many rounds the cycle has.
    pub fn rounds(&self) -> u32
        ensures { result ≡ self.now.rounds }
    {
        self.rounds
    }

    /// How many nodes there are.
    pub fn nodes(&self) -> usize
        ensures { result ≡ length self.now.rows }
    {
        self.tables.len()
    }

    /// The rows of a node's table, in order of time.
    pub fn rows(&self, node: u32) -> &[Row]
        requires { node < length self.now.rows }
        ensures { result.now ≡ slice_index_or self.now.rows node [] }
    {
        self.tables[node as usize].rows.as_slice()
    }
}
