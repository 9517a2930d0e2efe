//! How does a leaf stand at a choice inside the one that it closes?

ghost use Rattle.std.specs.Prelude.{◌≡◌, ◌<◌, ℕ, IfNone, IfOk, IfSome, IsTrue, length};
ghost use Rattle.tt_choice.specs.Choice.{IsChoice, bare};
ghost use Rattle.sought_plans.specs.Known.{first_facts, lo_of, top_of};
ghost use Rattle.tt_infer.specs.Facts.{after};
ghost use Rattle.tt_infer.specs.Leaves.{ClosesLeaf};
ghost use Rattle.side_by_side.specs.Standing.{ClosesAround, IsCutShort, IsFirstUnsent, StandsAs};
ghost use Rattle.side_by_side.specs.Copies.{MayBeCut};

use std::alloc::Global;
use tt_choice::Choice;
use tt_infer::Facts;
use ttp_model::{Leaf, MemoryFault, Step, Steps};

/// A leaf in memory of its own, and the room of facts in which it was found.
#[derive(Drop)]
pub struct PlacedLeaf<'a> {
    pub room: Facts<'a>,
    pub leaf: Leaf,
}

/// These steps in memory of their own.
fn copies(alloc: Global, steps: &[Step]) -> Result<Vec<Step>, MemoryFault>
    ensures { IfOk result (λ copies. copies.items ≡ steps.now) }
{
    let mut copies = Vec::new(alloc);
    copies.reserve_exact(steps.len())?;
    for step in steps {
        let copy = step.copied(alloc)?;
        copies.push(copy)?;
    }
    Ok(copies)
}

/// The same leaf in memory of its own.
fn copy_of_leaf(alloc: Global, leaf: &Leaf) -> Result<Leaf, MemoryFault>
    ensures { IfOk result (λ copy. copy ≡ leaf.now) }
{
    let steps = copies(alloc, leaf.steps.as_slice())?;
    Ok(Leaf {
        goal: leaf.goal,
        steps: Steps::new(steps),
    })
}

/// The first message that has no round left.
fn first_unsent(facts: &Facts) -> Option<u32>
    ensures some { IfSome result (IsFirstUnsent facts.now.instance facts.now.known) }
    ensures none { IfNone result ((m : ℕ) → m < length facts.now.instance.messages → lo_of facts.now.known m < top_of facts.now.known m) }
{
    let count = facts.instance().messages().len() as u32;
    for m in 0..count {
        if facts.top(m) <= facts.lo(m) {
            return Some(m);
        }
    }
    None
}

/// A leaf with its steps before this place, after which these facts are known, and the closer on the rounds of the first message that
/// has none left.
fn cut_short(alloc: Global, facts: &Facts, leaf: &Leaf, place: usize) -> Result<Leaf, MemoryFault>
    requires { MayBeCut facts.now leaf.now place }
    ensures { IfOk result (IsCutShort facts.now.instance facts.now.choice leaf.now) }
{
    let Some(message) = first_unsent(facts) else {
        unreachable!()
    };
    let (before, _) = leaf.steps.as_slice().split_at(place);
    let mut steps = copies(alloc, before)?;
    steps.push(Step::XRound(message))?;
    Ok(Leaf {
        goal: leaf.goal,
        steps: Steps::new(steps),
    })
}

/// A leaf as it stands at a choice inside one that it closes, where these are the first facts of that choice.
fn as_it_stands(alloc: Global, facts: &mut Facts, leaf: &Leaf) -> Result<Leaf, MemoryFault>
    requires first { facts.old ≡ record {
      instance = facts.old.instance;
      choice = facts.old.choice;
      goal = leaf.now.goal;
      known = first_facts facts.old.instance facts.old.choice;
    } }
    requires around { ClosesAround facts.old.instance facts.old.choice leaf.now }
    ensures others { facts.new ≡ after facts.old facts.new.known }
    ensures stands { IfOk result (StandsAs facts.old.instance facts.old.choice leaf.now) }
{
    let steps = leaf.steps.as_slice();
    let _instance = facts.instance();
    for place in 0..steps.len() {
        match facts.apply(&steps[place]) {
            Ok(()) => {}
            Err(_) => return cut_short(alloc, facts, leaf, place),
        }
    }
    copy_of_leaf(alloc, leaf)
}

/// A leaf as it stands at a choice inside one that it closes, with the room of these facts.
fn stand<'a>(
    alloc: Global,
    room: Facts<'a>,
    choice: &Choice,
    leaf: &Leaf,
) -> Result<PlacedLeaf<'a>, MemoryFault>
    requires choice { IsChoice room.instance choice.now }
    requires around { ClosesAround room.instance (bare choice.now) leaf.now }
    ensures room { IfOk result (λ made. made.room.instance ≡ room.entry.instance) }
    ensures stands { IfOk result (λ made. StandsAs room.entry.instance (bare choice.now) leaf.now made.leaf) }
{
    let mut facts = room.turned(choice, leaf.goal)?;
    let leaf = as_it_stands(alloc, &mut facts, leaf)?;
    Ok(PlacedLeaf { room: facts, leaf })
}

/// The same of a leaf that was judged to close that choice itself, or closes one around it.
pub fn leaf_here<'a>(
    alloc: Global,
    room: Facts<'a>,
    choice: &Choice,
    leaf: &Leaf,
    judged: bool,
) -> Result<PlacedLeaf<'a>, MemoryFault>
    requires choice { IsChoice room.instance choice.now }
    requires judged { IsTrue judged → ClosesLeaf room.instance (bare choice.now) leaf.now }
    requires around { ClosesAround room.instance (bare choice.now) leaf.now }
    ensures room { IfOk result (λ made. made.room.instance ≡ room.entry.instance) }
    ensures stands { IfOk result (λ made. StandsAs room.entry.instance (bare choice.now) leaf.now made.leaf) }
{
    if judged {
        let leaf = copy_of_leaf(alloc, leaf)?;
        return Ok(PlacedLeaf { room, leaf });
    }
    stand(alloc, room, choice, leaf)
}
