//! What does a certificate prove? These functions do nothing: their contracts are laws.

ghost use Rattle.std.specs.Prelude.{◌≡◌, ◌+◌, ℕ};
ghost use Rattle.ttp_model.specs.declared.plan.Plan.{Plan};
ghost use Rattle.ttp_model.specs.Instance.{Instance};
ghost use Rattle.ttp_model.specs.Rules.{IsInstance};
ghost use Rattle.ttp_model.specs.Plans.{IsValid};
ghost use Rattle.ttp_model.specs.Delays.{delay, IsLowerBound, IsLeastDelay, HasNoPlan};
ghost use Rattle.certificate.specs.declared.version.Version.TheVariants.{One};
ghost use Rattle.certificate.specs.Cert.{Cert};
ghost use Rattle.certificate.specs.Versions.{Allows};
ghost use Rattle.tree_check.specs.Proofs.{Proves};

/// No valid plan has a delay below a bound that is proved, whoever made the certificate; and where
/// the bound is past the horizon no plan is valid.
pub fn bounds_are_proved()
    ensures bound { (i : Instance) (cert : Cert) → IsInstance i → Proves i cert
        → IsLowerBound i cert.low }
    ensures none { (i : Instance) (cert : Cert) → IsInstance i → Proves i cert
        → cert.low ≡ i.cluster.horizon + 1 → HasNoPlan i }
{}

/// A valid plan whose delay is a bound that is proved is a least one.
pub fn plans_at_the_bound_are_least()
    ensures { (i : Instance) (cert : Cert) (plan : Plan) → IsInstance i → Proves i cert
        → IsValid i plan → delay i plan ≡ cert.low → IsLeastDelay i cert.low }
{}

/// With one channel no line of what proves a bound speaks of channels: no message's channel is free, and no step counts by
/// channel. So it has a text of each version.
pub fn one_channel_needs_no_other_version()
    ensures { (i : Instance) (cert : Cert) → IsInstance i → i.cluster.channels ≡ 1
        → Proves i cert → Allows One cert.tree }
{}
