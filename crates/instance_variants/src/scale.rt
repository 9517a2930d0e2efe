//! In what is it counted by how much longer a process runs, and how many ticks are that?

ghost use Rattle.std.specs.Prelude.{◌≡◌, ◌≤◌};
ghost use Rattle.ttp_model.specs.Limits.{most_ticks};
ghost use Rattle.instance_variants.specs.Longer.{number_of, ticks_of};

/// In what it is counted by how much longer a process runs.
#[derive(Clone, Copy, PartialEq, Eq)]
pub enum Scale {
    Ticks,
    /// Of its worst-case execution time, rounded up to whole ticks.
    Thousandths,
}

/// By how many ticks a process runs longer, with a number.
pub fn ticks_of(scale: Scale, x: u32, wcet: u32) -> u64
    ensures { result ≡ ticks_of scale x wcet }
{
    match scale {
        Scale::Ticks => u64::from(x),
        Scale::Thousandths => (u64::from(x) * u64::from(wcet)).div_ceil(1000),
    }
}

/// The greatest number with which a process runs longer by at most so many ticks.
pub fn number_of(scale: Scale, ticks: u32, wcet: u32) -> u32
    requires some { 1 ≤ wcet }
    requires few { ticks ≤ most_ticks }
    ensures { result ≡ number_of scale ticks wcet }
{
    match scale {
        Scale::Ticks => ticks,
        Scale::Thousandths => 1000 * ticks / wcet,
    }
}
