//! What is wrong with a node of a certificate's tree?

ghost use Rattle.std.specs.Prelude.{◌<◌, IfOk};
ghost use Rattle.tt_choice.specs.Choice.{Choice, IsChoice, bare};
ghost use Rattle.tree_check.specs.Faults.{IsBranchFault, IsLeafFault, IsNodeFault};
ghost use Rattle.certificate_reasons.specs.Nodes.{IsBranchReason, IsLeafReason, IsLowGoal, IsNodeReason};

use crate::branches::{ChildCount, NotOpen, child_count, not_open};
use crate::refused::{RefusedStep, refused_step};
use certificate::{Branch, Node};
use sentences::Word::Number;
use sentences::tell;
use std::alloc::Global;
use std::fmt;
use std::fmt::Display;
use tree_check::NodeFault;
use tt_choice::Choice;
use ttp_model::{Instance, Leaf, MemoryFault};

/// A leaf's goal that is below the bound; in ticks.
#[derive(Clone, Copy)]
pub struct LowGoal {
    pub goal: u32,
    pub low: u32,
    pub by: u32,
}

/// What is wrong with a node of a certificate's tree.
#[derive(Clone, Copy)]
pub enum NodeReason<'a> {
    ChildCount(ChildCount<'a>),
    NotOpen(NotOpen<'a>),
    LowGoal(LowGoal),
    RefusedStep(RefusedStep<'a>),
    /// The last step of a leaf leaves plans.
    NotClosed,
}

/// Why a leaf's goal is refused.
fn low_goal(goal: u32, low: u32) -> LowGoal
    requires { goal < low }
    ensures { IsLowGoal goal low result }
{
    LowGoal {
        goal,
        low,
        by: low.saturating_sub(goal),
    }
}

/// What is wrong with a branch.
fn branch_reason<'a>(instance: &'a Instance, branch: &Branch, fault: NodeFault) -> NodeReason<'a>
    requires { (c : Choice) × IsBranchFault instance.now c branch.now fault }
    ensures { IsBranchReason instance.now branch.now fault result }
{
    match fault {
        NodeFault::ChildCount => NodeReason::ChildCount(child_count(instance, branch)),
        NodeFault::NotOpen => NodeReason::NotOpen(not_open(instance, branch.kind)),
        NodeFault::LowGoal | NodeFault::RefusedStep | NodeFault::NotClosed => unreachable!(),
    }
}

/// Where a fault is: at a node that stands at a choice, in the line so far behind the node's own.
#[derive(Clone, Copy)]
pub struct FaultSpot<'c> {
    pub choice: &'c Choice,
    pub node: &'c Node,
    pub behind: u64,
}

/// What is wrong with a leaf that stands at a choice, in the line so far behind its own.
fn leaf_reason<'a>(
    alloc: Global,
    instance: &'a Instance,
    low: u32,
    spot: FaultSpot,
    leaf: &Leaf,
    fault: NodeFault,
) -> Result<NodeReason<'a>, MemoryFault>
    requires choice { IsChoice instance.now spot.choice.now }
    requires fault { IsLeafFault instance.now low (bare spot.choice.now) leaf.now 0 spot.behind fault }
    ensures { IfOk result (IsLeafReason instance.now low (bare spot.entry.choice.now) leaf.now spot.entry.behind fault) }
{
    match fault {
        NodeFault::LowGoal => Ok(NodeReason::LowGoal(low_goal(leaf.goal, low))),
        NodeFault::RefusedStep => {
            let steps = leaf.steps.as_slice();
            let place = spot.behind.saturating_sub(1) as usize;
            let step = refused_step(alloc, instance, spot.choice, leaf.goal, steps, place)?;
            Ok(NodeReason::RefusedStep(step))
        }
        NodeFault::NotClosed => Ok(NodeReason::NotClosed),
        NodeFault::ChildCount | NodeFault::NotOpen => unreachable!(),
    }
}

/// What is wrong with a node. Takes memory for what is known at a leaf.
pub fn node_reason<'a>(
    alloc: Global,
    instance: &'a Instance,
    low: u32,
    spot: FaultSpot,
    fault: NodeFault,
) -> Result<NodeReason<'a>, MemoryFault>
    requires choice { IsChoice instance.now spot.choice.now }
    requires fault { IsNodeFault instance.now low (bare spot.choice.now) spot.node.now 0 spot.behind fault }
    ensures { IfOk result (IsNodeReason instance.now low fault spot.entry.behind (bare spot.entry.choice.now) spot.entry.node.now) }
{
    match spot.node {
        Node::Branch(branch) => Ok(branch_reason(instance, branch, fault)),
        Node::Leaf(leaf) => leaf_reason(alloc, instance, low, spot, leaf, fault),
    }
}

impl fmt::Display for LowGoal {
    fn fmt<W: fmt::Write>(&self, f: &mut fmt::Formatter<W>) -> fmt::Result {
        let (goal, low) = (self.goal, self.low);
        tell(
            f,
            "The goal of the leaf is {}, and the bound is {}.\n",
            &[Number(u64::from(goal)), Number(u64::from(low))],
        )
    }
}

impl<'a> fmt::Display for NodeReason<'a> {
    fn fmt<W: fmt::Write>(&self, f: &mut fmt::Formatter<W>) -> fmt::Result {
        match self {
            NodeReason::ChildCount(reason) => reason.fmt(f),
            NodeReason::NotOpen(reason) => reason.fmt(f),
            NodeReason::LowGoal(reason) => reason.fmt(f),
            NodeReason::RefusedStep(reason) => reason.fmt(f),
            NodeReason::NotClosed => {
                f.write_str(
                    "Its steps leave plans: the last one, and no other, has to be one of those that begin with x-.\n",
                )
            }
        }
    }
}
