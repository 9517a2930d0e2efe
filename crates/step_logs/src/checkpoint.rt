//! What was known once some decisions were made?

ghost use Rattle.std.specs.Prelude.{◌≡◌};

use crate::journal::Journal;
use std::marker::Model;
use tt_choice::Decision;

/// What was known after decisions, which stand beside it.
#[derive(Drop)]
pub struct Checkpoint<'a> {
    decisions: Vec<Decision>,
    log: Journal<'a>,
}

impl<'a> Model for Checkpoint<'a> {
    ghost use Rattle.step_logs.specs.Propagator.{Checkpoint};

    ghost Value = { Checkpoint };

    ghost view = { λ s. record { decisions = s.decisions.items; log = s.log } };
}

impl<'a> Checkpoint<'a> {
    pub fn new(decisions: Vec<Decision>, log: Journal<'a>) -> Self
        ensures { result ≡ record { decisions = decisions.items; log = log.entry } }
    {
        Checkpoint { decisions, log }
    }

    /// How many decisions were made.
    pub fn count(&self) -> usize {
        self.decisions.len()
    }

    /// The decisions, and what was known.
    pub fn into_parts(self) -> (Vec<Decision>, Journal<'a>)
        ensures { self.entry ≡ record { decisions = result.0.items; log = result.1 } }
    {
        let Checkpoint { decisions, log } = self;
        (decisions, log)
    }
}
