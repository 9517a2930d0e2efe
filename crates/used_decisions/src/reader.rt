//! Which branches above a leaf do its steps use?

ghost use Rattle.std.specs.Prelude.{◌≡◌, ◌<◌, [], List, All, IfOk};
ghost use Rattle.ttp_model.specs.Instance.{Instance};
ghost use Rattle.ttp_model.specs.Rules.{IsInstance};
ghost use Rattle.tt_choice.specs.Branches.{root_choice};
ghost use Rattle.tt_choice.specs.Decisions.{AreOpenDecisions, chosen};
ghost use Rattle.tt_choice.specs.Kept.{Marked, all_of};
ghost use Rattle.sought_plans.specs.Known.{first_facts};
ghost use Rattle.tt_infer.specs.Leaves.{ClosesSharply};
ghost use Rattle.tt_infer.specs.Uses.{UseKept};
ghost use Rattle.used_decisions.specs.Marks.{KeepsLevels};
ghost use Rattle.used_decisions.specs.Uses.{IsMore};
ghost use Rattle.used_decisions.specs.Steps.{AreStepsTold, HasFlags, IsGivenBy, IsReadOf};

use crate::given::Given;
use crate::levels::Levels;
use crate::path::Path;
use crate::rows::read;
use crate::uses::Uses;
use std::alloc::Global;
use std::marker::Model;
use tt_infer::target;
use ttp_model::{Instance, Leaf, MemoryFault, Step};

/// Reads leaves of an instance one after another. What an earlier step of a leaf gave isn't used of a branch: a leaf that was
/// trimmed has no step that another one makes idle.
#[derive(Drop)]
pub struct Reader<'a> {
    instance: &'a Instance,
    given: Given,
}

impl<'a> Model for Reader<'a> {
    ghost use Rattle.ttp_model.specs.Instance.{Instance};
    ghost use Rattle.used_decisions.specs.Steps.{HasFlags};

    ghost Value = { Instance };

    ghost view = { λ s. s.instance.now };

    ghost invariant = { λ s. HasFlags s.instance.now s.given };
}

/// Marks what steps use, one after another.
fn read_steps(given: &mut Given, path: &Path, steps: &[Step], uses: &mut Uses)
    ensures more { IsMore uses.old uses.new }
    ensures flags { (i : Instance) → HasFlags i given.old → HasFlags i given.new }
    ensures told { IsReadOf path.now uses.old → IsGivenBy path.now.instance given.old []
        → AreStepsTold path.now uses.new [] steps.now }
{
    for step in steps {
        read(given, path, step, uses);
        given.give(target(path.instance(), step));
    }
}

impl<'a> Reader<'a> {
    /// In front of all leaves.
    pub fn new(alloc: Global, instance: &'a Instance) -> Result<Reader<'a>, MemoryFault>
        ensures { IfOk result (λ reader. reader ≡ instance.now) }
    {
        Ok(Reader {
            instance,
            given: Given::nothing(alloc, instance)?,
        })
    }

    /// The branches that a leaf's steps use, of a path with so many: where the steps close what the path's decisions make, each
    /// decision that they use is kept in each marking that keeps those whose levels are answered.
    pub fn used_by(
        &mut self,
        alloc: Global,
        path: &Path,
        leaf: &Leaf,
        depth: u32,
    ) -> Result<Levels, MemoryFault>
        ensures same { self.new ≡ self.old }
        ensures kept { IfOk result (λ levels. (ms : List Marked)
            → path.now.instance ≡ self.old → All (λ turn. turn.level < depth) path.now.turns
            → IsInstance self.old → AreOpenDecisions self.old (root_choice self.old) (all_of ms)
            → KeepsLevels levels path.now.turns ms
            → ClosesSharply self.old (chosen self.old (all_of ms)) leaf.now
            → UseKept self.old ms leaf.now.goal (first_facts self.old (chosen self.old (all_of ms))) [] leaf.now.steps) }
    {
        let mut uses = Uses::nothing(alloc, depth)?;
        self.given.begin_leaf();
        read_steps(&mut self.given, path, leaf.steps.as_slice(), &mut uses);
        Ok(uses.levels(path))
    }
}
