//! Does a leaf close the choice that it stands at?

ghost use Rattle.std.specs.Prelude.{◌≡◌, ◌≤◌, ℕ, IfErr, IfOk, OnOk};
ghost use Rattle.certificate.specs.declared.node.Node.TheVariants as node;
ghost use Rattle.tt_choice.specs.Choice.{IsChoice, bare};
ghost use Rattle.sought_plans.specs.Known.{first_facts};
ghost use Rattle.tt_infer.specs.Leaves.{ClosesLeaf};
ghost use Rattle.tree_check.specs.Seen.{TellsNode};

use crate::fault::{CertFault, NodeFault};
use tt_choice::Choice;
use tt_infer::Facts;
use ttp_model::Step;

/// Judges the steps of a leaf that stands on this line, with first facts: each of them, one after another, and then whether
/// the last of them leaves no plan.
fn judge_steps(facts: &mut Facts, steps: &[Step], line: u64) -> Result<(), CertFault>
    requires { facts.old.known ≡ first_facts facts.old.instance facts.old.choice }
    ensures room { facts.new.instance ≡ facts.old.instance }
    ensures closes { OnOk result (ClosesLeaf facts.old.instance facts.old.choice (record { goal = facts.old.goal; steps = steps.now })) }
    ensures err { IfErr result (λ fault. (low : ℕ) → low ≤ facts.old.goal → TellsNode facts.old.instance low facts.old.choice
        (node.Leaf (record { goal = facts.old.goal; steps = steps.now })) line fault) }
{
    for place in 0..steps.len() {
        match facts.apply(&steps[place]) {
            Ok(()) => {}
            Err(_) => {
                let line = line.saturating_add(1 + place as u64);
                let fault = NodeFault::RefusedStep;
                return Err(CertFault::At { line, fault });
            }
        }
    }
    if !facts.closed() {
        let fault = NodeFault::NotClosed;
        return Err(CertFault::At { line, fault });
    }
    Ok(())
}

/// Judges a leaf that stands on this line, in the room of facts: its goal, then its steps one after another, then whether
/// the last of them leaves no plan. The room comes back where it closes.
pub fn judge_leaf<'a>(
    room: Facts<'a>,
    low: u32,
    choice: &Choice,
    goal: u32,
    steps: &[Step],
    line: u64,
) -> Result<Facts<'a>, CertFault>
    requires { IsChoice room.instance choice.now }
    ensures room { IfOk result (λ facts. facts.instance ≡ room.entry.instance) }
    ensures goal { OnOk result (low ≤ goal) }
    ensures closes { OnOk result (ClosesLeaf room.entry.instance (bare choice.now) (record { goal = goal; steps = steps.now })) }
    ensures err { IfErr result
        (TellsNode room.entry.instance low (bare choice.now) (node.Leaf (record { goal = goal; steps = steps.now })) line) }
{
    if goal < low {
        let fault = NodeFault::LowGoal;
        return Err(CertFault::At { line, fault });
    }
    let mut facts = room.turned(choice, goal)?;
    match judge_steps(&mut facts, steps, line) {
        Ok(()) => Ok(facts),
        Err(fault) => Err(fault),
    }
}
