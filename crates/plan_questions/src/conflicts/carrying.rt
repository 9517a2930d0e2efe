//! Does a certificate that constraints leave no plan show the same of fewer?

ghost use Rattle.std.specs.Prelude.{◌≡◌, IfOk, IfSome};
ghost use Rattle.certificate.specs.Versions.{answer_version};
ghost use Rattle.instance_variants.specs.Only.{only};
ghost use Rattle.plan_questions.specs.Searches.{IsShown, Tells};

use super::conflict::Conflict;
use super::renumbered::renumbered;
use crate::asking::Asking;
use crate::sought::{Sought, any_plan};
use certificate::Cert;
use instance_variants::{Constraints, with_only};
use planner::{Gate, Options, SolveFault};
use std::alloc::Global;
use std::marker::Sync;
use std::sync::Wait;
use std::thread::Threads;
use ttp_model::{Instance, MemoryFault};
use used_decisions::{accepted, branches_among};

/// The certificate of a conflict for an instance by fewer of its constraints, where a check of it says that there is no plan either.
fn carried_over(
    alloc: Global,
    looser: &Instance,
    conflict: &Conflict,
    fewer: &Constraints,
    options: Options,
) -> Result<Option<Cert>, MemoryFault>
    requires { conflict.now.cert.version ≡ answer_version looser.now }
    ensures { IfOk result (λ found. IfSome found (IsShown looser.now options)) }
{
    let _nodes = looser.nodes();
    let low = looser.past_horizon();
    let version = conflict.cert.version();
    let Some(nodes) = renumbered(alloc, &conflict.kept, fewer, low, &conflict.cert)? else {
        return Ok(None);
    };
    if branches_among(nodes.as_slice()) as u64 > options.budget {
        return Ok(None);
    }
    match accepted(alloc, looser, version, low, nodes)? {
        Some(cert) => Ok(Some(cert)),
        None => Ok(None),
    }
}

/// What there is of an instance by fewer constraints than a conflict's: its certificate may tell, and else a search does.
pub fn without<R: Threads + Wait + Sync, G: Gate + Sync>(
    rt: &R,
    asking: &Asking<'_, G>,
    instance: &Instance,
    conflict: &Conflict,
    fewer: &Constraints,
) -> Result<Sought, SolveFault>
    requires { conflict.now.cert.version ≡ answer_version instance.now }
    ensures { IfOk result (Tells (only instance.now fewer.now) asking.now.options) }
{
    let looser = with_only(asking.alloc, instance, fewer)?;
    let sought = match carried_over(asking.alloc, &looser, conflict, fewer, asking.options) {
        Ok(Some(cert)) => Ok(Sought::Absent { cert }),
        Ok(None) => any_plan(rt, asking, &looser),
        Err(fault) => Err(fault.into()),
    };
    drop(looser);
    sought
}
