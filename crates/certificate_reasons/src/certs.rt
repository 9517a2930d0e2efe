//! Why does a certificate not prove its bound?

ghost use Rattle.std.specs.Prelude.{◌≡◌, ◌≢◌, ◌+◌, ◌++◌, ◌∷◌, ◌<◌, ◌^◌, ℕ, [], Err, IfOk, List, OnOk};
ghost use Rattle.tt_choice.specs.Branches.{IsBranch, child_choices, root_choice};
ghost use Rattle.tt_choice.specs.Choice.{Choice, bare};
ghost use Rattle.certificate.specs.Cert.{Cert};
ghost use Rattle.certificate.specs.Lines.{lines};
ghost use Rattle.certificate.specs.Spelling.{SpellsCert};
ghost use Rattle.tree_check.specs.declared.fault.CertFault.TheVariants.{OutOfMemory};
ghost use Rattle.tree_check.specs.Faults.{IsFirstTreeFault, IsJudged};
ghost use Rattle.tree_check.specs.Proofs.{Suits, choices_below};
ghost use Rattle.tree_check.specs.Turns.{IsWalk};
ghost use Rattle.certificate_reasons.specs.Certs.{HasNoProof, IsCertReason, IsGreatLow, IsTreeReason, line_of};

use crate::lines::{CertLine, cert_line};
use crate::nodes::{FaultSpot, NodeReason, node_reason};
use crate::whole::read_whole;
use certificate::{Branch, Cert, Node};
use sentences::Word::Number;
use sentences::tell;
use std::alloc::Global;
use std::fmt;
use std::fmt::Display;
use tree_check::{CertFault, NodeFault, Walk};
use ttp_model::{Instance, MemoryFault};

/// The line of the bound, and of the first node.
const LOW_LINE: u64 = 2;

const FIRST_NODE_LINE: u64 = 3;

/// A bound past the first tick behind the horizon; in ticks.
#[derive(Clone, Copy)]
pub struct GreatLow {
    pub low: u32,
    pub horizon: u32,
    /// The greatest bound, which says that there is no plan.
    pub most: u32,
    pub by: u32,
}

/// Why a certificate doesn't prove its bound.
#[derive(Clone, Copy)]
pub enum NoProof<'a> {
    GreatLow(GreatLow),
    Node(NodeReason<'a>),
}

/// The line of a certificate that is at fault, and what is wrong there.
#[derive(Clone, Copy)]
pub struct CertReason<'a> {
    pub line: CertLine<'a>,
    pub why: NoProof<'a>,
}

/// Why a bound is refused.
fn great_low(instance: &Instance, low: u32) -> GreatLow
    requires { instance.now.cluster.horizon + 1 < low }
    ensures { IsGreatLow instance.now low result }
{
    let most = instance.past_horizon();
    GreatLow {
        low,
        horizon: instance.cluster().horizon,
        most,
        by: low.saturating_sub(most),
    }
}

/// Goes on to the choices that a branch leads to that suits its own.
fn enter_branch(
    alloc: Global,
    instance: &Instance,
    walk: &mut Walk,
    branch: &Branch,
) -> Result<(), MemoryFault>
    requires walk { (left : List Choice) × IsWalk instance.now walk.old left }
    requires suits { IsBranch instance.now (bare walk.old.choice) branch.now.kind branch.now.children }
    ensures { OnOk result ((left : List Choice) → IsWalk instance.now walk.old left
        → IsWalk instance.now walk.new (child_choices instance.now (bare walk.old.choice) branch.now.kind ++ left)) }
{
    match walk.branch(alloc, instance, branch, 0) {
        Ok(()) => Ok(()),
        Err(CertFault::OutOfMemory) => Err(MemoryFault),
        Err(CertFault::LowTooGreat) => unreachable!(),
        Err(CertFault::At { .. }) => unreachable!(),
    }
}

/// Goes on to the choices that a node leads to that suits its own.
fn enter(
    alloc: Global,
    instance: &Instance,
    walk: &mut Walk,
    node: &Node,
) -> Result<(), MemoryFault>
    requires walk { (left : List Choice) × IsWalk instance.now walk.old left }
    requires suits { (low : ℕ) × Suits instance.now low (bare walk.old.choice) node.now }
    ensures { OnOk result ((left : List Choice) → IsWalk instance.now walk.old left
        → IsWalk instance.now walk.new (choices_below instance.now (bare walk.old.choice) node.now ++ left)) }
{
    match node {
        Node::Branch(branch) => enter_branch(alloc, instance, walk, branch),
        Node::Leaf(_) => Ok(()),
    }
}

/// What is wrong with the node that is the first at fault, which is told at this line: the branches in front of it are entered, and no
/// step of a leaf is taken but those in front of a step at fault.
fn tree_reason<'a>(
    alloc: Global,
    instance: &'a Instance,
    cert: &Cert,
    at: u64,
    fault: NodeFault,
) -> Result<NodeReason<'a>, MemoryFault>
    requires first { IsFirstTreeFault instance.now cert.now.low (root_choice instance.now ∷ []) cert.now.tree 3 at fault }
    requires few { 3 + lines cert.now.tree < 2 ^ 64 }
    ensures { IfOk result (IsTreeReason instance.now cert.now at fault) }
{
    let (low, nodes) = (cert.low(), cert.nodes());
    let mut walk = Walk::new(alloc, instance)?;
    let mut line = FIRST_NODE_LINE;
    for k in 0..nodes.len() {
        let node = &nodes[k];
        walk.go_on(alloc, instance)?;
        let next = line.saturating_add(node.lines());
        if at < next {
            let spot = FaultSpot {
                choice: walk.choice(),
                node,
                behind: at.saturating_sub(line),
            };
            let reason = node_reason(alloc, instance, low, spot, fault)?;
            return Ok(reason);
        }
        enter(alloc, instance, &mut walk, node)?;
        line = next;
    }
    unreachable!()
}

/// Why a certificate doesn't prove its bound.
fn no_proof<'a>(
    alloc: Global,
    instance: &'a Instance,
    cert: &Cert,
    fault: CertFault,
) -> Result<NoProof<'a>, MemoryFault>
    requires judged { IsJudged instance.now cert.now (Err fault) }
    requires told { fault ≢ OutOfMemory }
    requires few { 3 + lines cert.now.tree < 2 ^ 64 }
    ensures { IfOk result (HasNoProof instance.now cert.now fault) }
{
    match fault {
        CertFault::LowTooGreat => Ok(NoProof::GreatLow(great_low(instance, cert.low()))),
        CertFault::At { line, fault } => {
            let reason = tree_reason(alloc, instance, cert, line, fault)?;
            Ok(NoProof::Node(reason))
        }
        CertFault::OutOfMemory => unreachable!(),
    }
}

/// Which line is told of a fault.
fn line_of(fault: CertFault) -> u64
    ensures { result ≡ line_of fault }
{
    match fault {
        CertFault::LowTooGreat | CertFault::OutOfMemory => LOW_LINE,
        CertFault::At { line, .. } => line,
    }
}

/// Why the certificate of a text doesn't prove its bound, by the fault that its check answered: the line that is at fault, and what is
/// wrong there. Takes memory for the certificate, for one path of its tree, and for what is known at a leaf.
pub fn cert_reason<'a>(
    alloc: Global,
    instance: &'a Instance,
    certificate: &'a [u8],
    fault: CertFault,
) -> Result<CertReason<'a>, MemoryFault>
    requires judged { (cert : Cert) × SpellsCert certificate.now cert × IsJudged instance.now cert (Err fault) }
    requires told { fault ≢ OutOfMemory }
    ensures { IfOk result (IsCertReason instance.now certificate.now fault) }
{
    let cert = read_whole(alloc, certificate)?;
    let why = no_proof(alloc, instance, &cert, fault)?;
    drop(cert);
    Ok(CertReason {
        line: cert_line(certificate, line_of(fault)),
        why,
    })
}

impl fmt::Display for GreatLow {
    fn fmt<W: fmt::Write>(&self, f: &mut fmt::Formatter<W>) -> fmt::Result {
        let (low, horizon, most) = (self.low, self.horizon, self.most);
        tell(
            f,
            "The bound is {}, and the horizon is {}: a bound of {} says that there is no plan, and none says more.\n",
            &[
                Number(u64::from(low)),
                Number(u64::from(horizon)),
                Number(u64::from(most)),
            ],
        )
    }
}

impl<'a> fmt::Display for CertReason<'a> {
    fn fmt<W: fmt::Write>(&self, f: &mut fmt::Formatter<W>) -> fmt::Result {
        let line = self.line;
        line.fmt(f)?;
        match self.why {
            NoProof::GreatLow(reason) => reason.fmt(f),
            NoProof::Node(reason) => reason.fmt(f),
        }
    }
}
