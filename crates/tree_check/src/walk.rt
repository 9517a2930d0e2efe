//! How does one choice go through a tree?

ghost use Rattle.std.specs.Prelude.{◌≡◌, ◌<◌, ◌++◌, ◌∷◌, ◌⊎◌, [], List, length, reverse, IfErr, IfNone, IfOk, IfSome, OnOk};
ghost use Rattle.ttp_model.specs.Instance.{Instance};
ghost use Rattle.tt_choice.specs.Choice.{Choice, bare};
ghost use Rattle.tt_choice.specs.Branches.{IsBranch, child_choices, root_choice};
ghost use Rattle.tree_check.specs.declared.walk.Turn.TheVariants as turn;
ghost use Rattle.tree_check.specs.Turns.{IsWalk, TurnsNext, turns_to};
ghost use Rattle.tree_check.specs.Seen.{TellsBranch};

use crate::fault::{CertFault, NodeFault};
use certificate::Branch;
use std::alloc::Global;
use tt_choice::{Choice, Decision};
use ttp_model::{Instance, MemoryFault};

/// What leads to the next choice.
#[derive(Clone, Copy, PartialEq, Eq)]
pub enum Turn {
    /// It is the one that is there.
    Stay,
    /// It has this decision more.
    Down(Decision),
    /// The last decision is taken back, and the next turn leads on.
    Up,
}

/// A choice, and what leads it to those that are still to be proved, the next turn last.
#[derive(Drop)]
pub struct Walk {
    choice: Choice,
    turns: Vec<Turn>,
}

/// Puts a way down to each choice that a decision leads to, and up again, in front of the turns.
fn push_turns(turns: &mut Vec<Turn>, decisions: Vec<Decision>) -> Result<(), MemoryFault>
    ensures { OnOk result (reverse turns.new.items ≡ turns_to decisions.items ++ reverse turns.old.items) }
{
    let mut decisions = decisions;
    while let Some(decision) = decisions.pop() {
        turns.push(Turn::Up)?;
        turns.push(Turn::Down(decision))?;
    }
    Ok(())
}

impl Walk {
    /// In front of the choice of all plans.
    pub fn new(alloc: Global, instance: &Instance) -> Result<Walk, MemoryFault>
        ensures { IfOk result (λ walk. IsWalk instance.now walk (root_choice instance.now ∷ [])) }
    {
        let _processes = instance.processes();
        let choice = Choice::root(alloc, instance)?;
        let turns = vec![in alloc; Turn::Stay]?;
        Ok(Walk { choice, turns })
    }

    /// The choice that is there.
    pub fn choice(&self) -> &Choice
        ensures { result.now ≡ self.now.choice }
    {
        &self.choice
    }

    /// Takes decisions back until a turn leads to a choice. The decision that it has more, if it is another one.
    fn go_up(&mut self) -> Option<Decision>
        requires { (i : Instance) × (left : List Choice) × IsWalk i self.old left }
        ensures down { IfSome result (λ decision. (i : Instance) (left : List Choice) → IsWalk i self.old left
            → TurnsNext i self.new (turn.Down decision) left) }
        ensures stay { IfNone result ((i : Instance) (left : List Choice) → IsWalk i self.old left
            → TurnsNext i self.new turn.Stay left ⊎ (left ≡ [])) }
    {
        'turns: while let Some(turn) = self.turns.pop() {
            match turn {
                Turn::Up => self.choice.undo(),
                Turn::Down(decision) => return Some(decision),
                Turn::Stay => return None,
            }
        }
        None
    }

    /// Goes to the next choice.
    pub fn go_on(&mut self, alloc: Global, instance: &Instance) -> Result<(), MemoryFault>
        requires { (c : Choice) × (left : List Choice) × IsWalk instance.now self.old (c ∷ left) }
        ensures { OnOk result ((c : Choice) (left : List Choice) → IsWalk instance.now self.old (c ∷ left)
            → (bare self.new.choice ≡ c) × IsWalk instance.now self.new left) }
    {
        match self.go_up() {
            Some(decision) => self.choice.decide(alloc, instance, decision),
            None => Ok(()),
        }
    }

    /// Judges a branch of the choice: whether it is open, and then whether it has just its children, which are next.
    pub fn branch(
        &mut self,
        alloc: Global,
        instance: &Instance,
        branch: &Branch,
        line: u64,
    ) -> Result<(), CertFault>
        requires { (left : List Choice) × IsWalk instance.now self.old left }
        ensures suits { OnOk result (IsBranch instance.now (bare self.old.choice) branch.now.kind branch.now.children) }
        ensures below { OnOk result ((left : List Choice) → IsWalk instance.now self.old left
            → IsWalk instance.now self.new (child_choices instance.now (bare self.old.choice) branch.now.kind ++ left)) }
        ensures err { IfErr result (TellsBranch instance.now (bare self.old.choice) branch.now line) }
    {
        if !self.choice.is_open(instance, &branch.kind) {
            let fault = NodeFault::NotOpen;
            return Err(CertFault::At { line, fault });
        }
        let decisions = self.choice.decisions(alloc, instance, &branch.kind)?;
        if decisions.len() != branch.children as usize {
            let fault = NodeFault::ChildCount;
            return Err(CertFault::At { line, fault });
        }
        push_turns(&mut self.turns, decisions)?;
        Ok(())
    }
}
