//! How early and how late can a slot be, and how much may it hold, in the plans that are sought?

ghost use Rattle.std.specs.Prelude.{◌≡◌, ◌<◌, ◌≤◌, length};
ghost use Rattle.ttp_model.specs.declared.limits.TheConstants.{MOST_BYTES};
ghost use Rattle.tt_choice.specs.Extremes.{cap_least, cap_most, dur_least, end_least, start_least, start_most};

use tt_infer::Facts;

/// When the slot of node `n` begins in round `r` at least, in ticks.
pub fn start_least(facts: &Facts, n: u32, r: u32) -> u64
    requires { n < length facts.now.instance.nodes }
    ensures { result ≡ start_least facts.now.instance facts.now.choice n r }
{
    facts.setting().start_least(n, r)
}

/// When it begins at most.
pub fn start_most(facts: &Facts, n: u32, r: u32) -> u64
    requires { n < length facts.now.instance.nodes }
    ensures { result ≡ start_most facts.now.instance facts.now.choice n r }
{
    facts.setting().start_most(n, r)
}

/// When it ends at least.
pub fn end_least(facts: &Facts, n: u32, r: u32) -> u64
    requires { n < length facts.now.instance.nodes }
    ensures { result ≡ end_least facts.now.instance facts.now.choice n r }
{
    facts.setting().end_least(n, r)
}

/// How long the slot of node `n` is at least.
pub fn dur_least(facts: &Facts, n: u32) -> u64
    requires { n < length facts.now.instance.nodes }
    ensures { result ≡ dur_least facts.now.instance facts.now.choice n }
{
    facts.setting().dur_least(n)
}

/// How many bytes it carries at most.
pub fn cap_most(facts: &Facts, n: u32) -> u32
    requires { n < length facts.now.instance.nodes }
    ensures value { result ≡ cap_most facts.now.instance facts.now.choice n }
    ensures bound { result ≤ MOST_BYTES }
{
    facts.setting().cap_most(n)
}

/// How many bytes it carries at least.
pub fn cap_least(facts: &Facts, n: u32) -> u32
    requires { n < length facts.now.instance.nodes }
    ensures { result ≡ cap_least facts.now.instance facts.now.choice n }
{
    facts.setting().cap_least(n)
}
