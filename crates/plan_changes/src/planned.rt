//! What is compared: an instance with a valid plan of it.

ghost use Rattle.std.specs.Prelude.{◌≡◌};
ghost use Rattle.ttp_model.specs.Plans.{IsValid};

use std::marker::Model;
use ttp_model::{Instance, Plan};

/// An instance with a valid plan of it.
#[derive(Drop)]
pub struct Planned<'a> {
    instance: &'a Instance,
    plan: &'a Plan,
}

impl<'a> Model for Planned<'a> {
    ghost use Rattle.ttp_model.specs.Plans.{IsValid};
    ghost use Rattle.plan_changes.specs.Planned.{Planned};

    ghost Value = { Planned };

    ghost view = { λ s. record { instance = s.instance.now; plan = s.plan.now } };

    ghost invariant = { λ s. IsValid s.instance.now s.plan.now };
}

impl<'a> Planned<'a> {
    /// Takes no memory.
    pub fn of(instance: &'a Instance, plan: &'a Plan) -> Self
        requires { IsValid instance.now plan.now }
        ensures { result ≡ record { instance = instance.now; plan = plan.now } }
    {
        Planned { instance, plan }
    }

    pub fn instance(&self) -> &'a Instance
        ensures value { result.now ≡ self.now.instance }
        ensures valid { IsValid self.now.instance self.now.plan }
    {
        self.instance
    }

    pub fn plan(&self) -> &'a Plan
        ensures value { result.now ≡ self.now.plan }
        ensures valid { IsValid self.now.instance self.now.plan }
    {
        self.plan
    }
}
