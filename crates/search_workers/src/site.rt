//! What goes with every call of a search, and how is it done?

use crate::aims::Aims;
use crate::gate::Gate;
use std::alloc::Global;
use ttp_model::Instance;
use used_decisions::Manner;

/// What goes with every call of a search: its memory, its instance, and who follows it.
#[derive(Drop)]
pub struct Site<'a, G: Gate> {
    pub alloc: Global,
    pub instance: &'a Instance,
    pub gate: &'a G,
}

/// How a search goes: whether it leaves what isn't needed, and which plans it looks for.
#[derive(Clone, Copy)]
pub struct Course {
    pub manner: Manner,
    pub aims: Aims,
}
