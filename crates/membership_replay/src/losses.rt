//! Which loss can't be?

ghost use Rattle.std.specs.Prelude.{◌≡◌, ◌<◌, ◌↔◌, IsTrue, length};
ghost use Rattle.ttp_model.specs.Lists.{FindsFailure};
ghost use Rattle.membership_replay.specs.Losses.{IsLossAt, IsLossOf};
ghost use Rattle.membership_replay.specs.Trace.{row_at};

use crate::loss::Loss;
use medl_tables::Medl;

/// The first loss that is outside the cycle, or at a node that isn't there or is the sender.
pub fn first_wrong_loss(medl: &Medl, losses: &[Loss]) -> Option<usize>
    requires { 0 < length medl.now.rows }
    ensures { FindsFailure (length losses.now) (IsLossAt medl.now losses.now) result }
{
    for k in 0..losses.len() {
        if !is_loss_of(medl, losses[k]) {
            return Some(k);
        }
    }
    None
}

/// Whether a loss is of a slot of the cycle, at a node that is there and isn't its sender.
fn is_loss_of(medl: &Medl, loss: Loss) -> bool
    requires { 0 < length medl.now.rows }
    ensures { IsTrue result ↔ IsLossOf medl.now loss }
{
    let nodes = medl.nodes();
    loss.round < medl.rounds()
        && (loss.slot as usize) < nodes
        && (loss.receiver as usize) < nodes
        && loss.receiver != sender_at(medl, loss.slot as usize)
}

/// The sender of the slot of this number in the cycle.
fn sender_at(medl: &Medl, slot: usize) -> u32
    requires { 0 < length medl.now.rows }
    ensures { result ≡ (row_at medl.now 0 slot).sender }
{
    let rows = medl.rows(0);
    if slot < rows.len() {
        rows[slot].sender
    } else {
        0
    }
}
