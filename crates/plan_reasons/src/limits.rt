//! What is it that a process has to end by?

ghost use Rattle.std.specs.Prelude.{◌<◌, length};
ghost use Rattle.plan_reasons.specs.Limits.{IsLimit};

use serde::{Described, Serialize, Serializer};
use ttp_model::Instance;

/// What a process has to end by. Where its deadline and the horizon are one tick it is the deadline.
#[derive(Clone, Copy)]
pub enum Limit {
    Deadline,
    Horizon,
}

/// Which of both comes first for process `p`.
pub fn limit_of(instance: &Instance, p: usize) -> Limit
    requires { p < length instance.now.processes }
    ensures { IsLimit instance.now p result }
{
    if instance.process_at(p).deadline <= instance.cluster().horizon {
        Limit::Deadline
    } else {
        Limit::Horizon
    }
}

impl Limit {
    /// What it is called in a sentence.
    pub fn words(self) -> &'static str {
        match self {
            Limit::Deadline => "its deadline",
            Limit::Horizon => "the horizon",
        }
    }

    /// What it is called as a value.
    pub fn name(self) -> &'static str {
        match self {
            Limit::Deadline => "deadline",
            Limit::Horizon => "horizon",
        }
    }
}

impl Described for Limit {}

impl Serialize for Limit {
    fn serialize<S: Serializer>(&self, out: &mut S) -> Result<(), S::Error> {
        out.str(self.name())
    }
}
