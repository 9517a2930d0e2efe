//! What is left to search?

ghost use Rattle.std.specs.Prelude.{◌≡◌, IfOk};
ghost use Rattle.tt_choice.specs.Choice.{IsChoice};
ghost use Rattle.search_trees.specs.Task.{root_task, choice_of, task_after, IsTask};

use crate::name::Name;
use crate::shared_list::SharedList;
use std::alloc::Global;
use std::marker::Model;
use tt_choice::{Choice, Decision};
use ttp_model::{Instance, MemoryFault};

/// A subtree that is to be searched: where it stands, and the decisions that lead there from the choice in which nothing is
/// chosen.
#[derive(Drop)]
pub struct Task {
    name: Name,
    decisions: SharedList<Decision>,
}

impl Model for Task {
    ghost use Rattle.search_trees.specs.Task.{Task};

    ghost Value = { Task };

    ghost view = { λ s. record { name = s.name; decisions = s.decisions } };
}

impl Task {
    /// The whole tree. Takes no memory.
    pub fn root(alloc: Global, instance: &Instance) -> Result<Self, MemoryFault>
        ensures value { IfOk result (λ t. t ≡ root_task) }
        ensures task { IfOk result (IsTask instance.now) }
    {
        let _nodes = instance.nodes();
        Ok(Task {
            name: Name::root(alloc),
            decisions: SharedList::new(alloc),
        })
    }

    /// The subtree of a child, with the decision that leads to it.
    pub(crate) fn child(
        &self,
        alloc: Global,
        index: u32,
        decision: Decision,
    ) -> Result<Self, MemoryFault>
        ensures { IfOk result (λ t. t ≡ task_after self.now index decision) }
    {
        let name = self.name.child(alloc, index)?;
        let decisions = self.decisions.with(alloc, decision)?;
        Ok(Task { name, decisions })
    }

    /// The name alone.
    pub fn into_name(self) -> Name
        ensures { result ≡ self.name }
    {
        self.name
    }

    /// Where the subtree stands.
    pub fn name(&self) -> &Name
        ensures { result.now ≡ self.now.name }
    {
        &self.name
    }

    /// The decisions that lead to it, the first first, in memory of their own.
    pub fn decisions(&self, alloc: Global) -> Result<Vec<Decision>, MemoryFault>
        ensures { IfOk result (λ decisions. decisions.items ≡ self.now.decisions) }
    {
        self.decisions.to_vec(alloc)
    }

    /// The choice that it begins with. Takes a pass over the pairs of processes, and a step for each decision.
    pub fn choice(&self, alloc: Global, instance: &Instance) -> Result<Choice, MemoryFault>
        requires { IsTask instance.now self.now }
        ensures value { IfOk result (λ c. c ≡ choice_of instance.now self.now) }
        ensures choice { IfOk result (IsChoice instance.now) }
    {
        let mut choice = Choice::root(alloc, instance)?;
        let decisions = self.decisions(alloc)?;
        for decision in decisions.as_slice() {
            choice.change(alloc, instance, *decision)?;
        }
        Ok(choice)
    }
}
