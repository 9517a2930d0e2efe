//! What is told of an instance that the model refuses?

ghost use Rattle.std.specs.Prelude.{◌≡◌, ◌≢◌, ℕ, ◌∷◌, [], IfOk, List};
ghost use Rattle.ttp_model.specs.Instance.{message_at};
ghost use Rattle.ttp_model.specs.Names.{process_name};
ghost use Rattle.ttp_model.specs.Refusals.{IsRefusal};
ghost use Rattle.ttp_model.specs.declared.error.ModelError.TheVariants as model;
ghost use Rattle.ttp_model.specs.declared.error.Place.TheVariants.{AtMessage, AtNode};
ghost use Rattle.ttp_model.specs.Parts.{instance_of};
ghost use Rattle.instance_reasons.specs.declared.circles.Circle.{Circle};
ghost use Rattle.instance_reasons.specs.declared.circles.CircleStep.{CircleStep};
ghost use Rattle.instance_reasons.specs.declared.joins.ReceiverTwice.{ReceiverTwice};
ghost use Rattle.instance_reasons.specs.declared.ranges.OutsideRange.{OutsideRange};
ghost use Rattle.instance_reasons.specs.declared.rules.RuleReason.TheVariants as reason;
ghost use Rattle.instance_reasons.specs.declared.shared.SharedName.{SharedName};
ghost use Rattle.instance_reasons.specs.declared.times.ShortLead.{ShortLead};

use instance_reasons::{RuleReason, rule_reason};
use std::alloc::{AllocError, Global};
use ttp_model::{ModelError, Parts, Place};

/// A lead has to be twice the precision, and not once.
pub fn lead_lacks_twice_the_precision(
    alloc: Global,
    parts: &Parts,
) -> Result<RuleReason<'_>, AllocError>
    requires { IsRefusal (instance_of parts.now) model.ShortLead }
    ensures { parts.now.cluster.lead ≡ 5 → parts.now.cluster.precision ≡ 3
        → IfOk result (λ told. (r : ShortLead) → told ≡ reason.ShortLead r → (r.twice ≡ 6) × (r.by ≡ 1)) }
{
    rule_reason(alloc, parts, &ModelError::ShortLead)
}

/// Of two entries of one name the first is told first.
pub fn both_of_a_name_are_told(alloc: Global, parts: &Parts) -> Result<RuleReason<'_>, AllocError>
    requires { IsRefusal (instance_of parts.now) (model.NameRepeated (AtNode 1)) }
    ensures { IfOk result (λ told. (r : SharedName) → told ≡ reason.SharedName r → (r.first ≡ 0) × (r.second ≡ 1)) }
{
    rule_reason(alloc, parts, &ModelError::NameRepeated(Place::AtNode(1)))
}

/// A number below those that may stand is told as too little, and not as too much.
pub fn too_little_is_told_as_such(
    alloc: Global,
    parts: &Parts,
) -> Result<RuleReason<'_>, AllocError>
    requires { IsRefusal (instance_of parts.now) (model.OutOfRange (AtMessage 0)) }
    ensures { (message_at (instance_of parts.now) 0).bytes ≡ 0
        → IfOk result (λ told. (r : OutsideRange) → told ≡ reason.OutsideRange r → (r.number.value ≡ 0) × (r.number.least ≡ 1) × (r.by ≡ 1)) }
{
    rule_reason(alloc, parts, &ModelError::OutOfRange(Place::AtMessage(0)))
}

/// Of processes that wait for one another each is told as waiting for the one before it, and the first for the last.
pub fn first_waits_for_the_last<'a>(
    alloc: Global,
    parts: &'a Parts,
    error: &ModelError,
) -> Result<RuleReason<'a>, AllocError>
    requires refusal { IsRefusal (instance_of parts.now) error.now }
    requires other { error.now ≢ model.OutOfMemory }
    ensures { (p q r : ℕ) → error.now ≡ model.Cycle (p ∷ q ∷ r ∷ [])
        → IfOk result (λ told. (x : Circle) (step : CircleStep) (others : List CircleStep) → told ≡ reason.Circle x → x.steps.items ≡ step ∷ others
        → (step.process.now ≡ process_name (instance_of parts.now) p) × (step.other.now ≡ process_name (instance_of parts.now) r)) }
{
    rule_reason(alloc, parts, error)
}

/// Of receivers the one is told that stands twice, and not the one in front of it.
pub fn receiver_that_stands_twice_is_told(
    alloc: Global,
    parts: &Parts,
) -> Result<RuleReason<'_>, AllocError>
    requires { IsRefusal (instance_of parts.now) (model.ReceiverTwice 0) }
    ensures { (message_at (instance_of parts.now) 0).receivers ≡ 5 ∷ 7 ∷ 7 ∷ []
        → IfOk result (λ told. (r : ReceiverTwice) → told ≡ reason.ReceiverTwice r → r.receiver.now ≡ process_name (instance_of parts.now) 7) }
{
    rule_reason(alloc, parts, &ModelError::ReceiverTwice(0))
}
