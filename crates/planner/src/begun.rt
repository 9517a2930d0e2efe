//! Which search goes on where a certificate ends?

ghost use Rattle.std.specs.Prelude.{◌≡◌, IfErr, IfOk};
ghost use Rattle.tree_check.specs.Proofs.{Proves};
ghost use Rattle.search_workers.specs.Searching.{IsFound};
ghost use Rattle.planner.specs.Begun.{IsBegun, IsBeginFault};

use crate::fault::BeginFault;
use crate::replay::Replay;
use certificate::Cert;
use search_workers::{Aims, FoundPlan, Piece, Search, aim};
use std::alloc::Global;
use ttp_model::Instance;

/// A search that goes on where a certificate ends.
#[derive(Drop)]
pub struct Begun {
    /// What stays of the certificate is worked, and where its leaves are open again there are tasks, in preorder.
    pub search: Search,
    /// The certificate's leaf of each task, in their order.
    pub leaves: Vec<Piece>,
}

/// The search that goes on from a certificate that proves its bound, with a settled plan that is known, where one is. A leaf is open again where its
/// goal is below the one at which the search works; of the others no step stays after which no more is known.
///
/// The certificate's tree is gone through once: each node's choice is made anew, and each step of a leaf that stays closed is taken once. Takes memory
/// for copies of all nodes, and for names.
pub fn begin(
    alloc: Global,
    instance: &Instance,
    cert: &Cert,
    aims: Aims,
    best: Option<FoundPlan>,
) -> Result<Begun, BeginFault>
    requires proves { Proves instance.now cert.now }
    requires found { IsFound instance.now best }
    ensures ok { IfOk result (IsBegun instance.now aims best cert.now) }
    ensures err { IfErr result (IsBeginFault instance.now cert.now) }
{
    let aim = aim(instance, aims, &best);
    let mut replay = Replay::new(alloc, instance, aim)?;
    replay.go_through(alloc, instance, cert)?;
    Ok(replay.into_begun(alloc, best))
}
