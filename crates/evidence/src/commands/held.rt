//! Which leaves wait, and which subtrees needn't be worked?

ghost use Rattle.std.specs.Prelude.{◌≤◌, ℕ, length, IfOk, IfSome, IsTrue};
ghost use Rattle.ttp_model.specs.Instance.{Instance};
ghost use Rattle.used_decisions.specs.Needs.{HoldUpTo};
ghost use Rattle.used_decisions.specs.Proved.{all_kept};
ghost use Rattle.used_decisions.specs.RuledOut.{IsRuledOut};

use cert_check::{HeldLeaf, HeldLeaves};
use tt_choice::Decision;
use ttp_model::MemoryFault;
use used_decisions::Needs;

/// Lets a leaf wait where not as many do as are judged together: then no more wait than might before. Whether it waits.
pub fn no_more_leaves_wait_than_may(
    held: &mut HeldLeaves,
    leaf: HeldLeaf,
) -> Result<bool, MemoryFault>
    ensures { IfOk result (λ waits. IsTrue waits → length held.new.leaves.items ≤ held.old.most) }
{
    if held.is_full() {
        return Ok(false);
    }
    held.push(leaf)?;
    Ok(true)
}

/// What leads to a branch that is told as proved: with all of it kept no plan is left there.
pub fn proved_branch_leaves_no_plan<'n>(needs: &'n Needs<'_>) -> Option<&'n [Decision]>
    ensures { IfSome result (λ front. (i : Instance) (low : ℕ) → HoldUpTo i low needs.now → IsRuledOut i low (all_kept front.now)) }
{
    needs.proved()
}
