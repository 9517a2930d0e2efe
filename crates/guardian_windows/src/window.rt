//! What is a guardian's window, and which times does it permit?

ghost use Rattle.std.specs.Prelude.{◌↔◌, IsTrue};

/// The ticks in which a guardian lets its node's frame on the bus, for one slot of the cycle.
#[derive(Clone, Copy, PartialEq, Eq)]
pub struct Window {
    /// The round of the slot, from 0.
    pub round: u32,
    /// The node whose slot it is, by its index in the instance.
    pub node: u32,
    /// The first tick inside, on the guardian's own clock.
    pub from: u64,
    /// The first tick after it, on the guardian's own clock.
    pub until: u64,
}

impl Window {
    ghost use Rattle.guardian_windows.specs.Windows.{Permits};

    /// Whether the guardian lets a frame on the bus when its own clock reads this time, in ticks
    /// from the start of the cycle.
    pub fn permits(&self, local_time: u64) -> bool
        ensures { IsTrue result ↔ Permits self.now local_time }
    {
        self.from <= local_time && local_time < self.until
    }
}
