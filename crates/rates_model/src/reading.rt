//! Which job does a job read?

ghost use Rattle.std.specs.Prelude.{◌≡◌, ◌+◌, ◌*◌, ◌<◌, ◌≤◌, length};
ghost use Rattle.ttp_model.specs.declared.limits.TheConstants.{MOST_TICKS};
ghost use Rattle.rates_model.specs.Rates.{period_of};
ghost use Rattle.rates_model.specs.Cycles.{jobs_of};
ghost use Rattle.rates_model.specs.Reads.{last_begun, reads_now};
ghost use Rattle.rates_model.specs.Rules.{IsRatesProcess};

use crate::rates::Rates;

impl Rates {
    /// When the period of a job of a cycle begins.
    pub fn begin_of(&self, p: usize, k: u32) -> u32
        requires inside { p < length self.now.processes }
        requires there { k < jobs_of self.now p }
        ensures value { result ≡ k * period_of self.now p }
        ensures room { result + period_of self.now p ≤ MOST_TICKS }
    {
        let _processes = self.processes();
        k * self.process_at(p).period
    }

    /// The job of p whose period is the last that has begun when that of job `j` of q does, of a cycle.
    pub fn last_begun(&self, p: u32, q: u32, j: u32) -> u32
        requires p { IsRatesProcess self.now p }
        requires q { IsRatesProcess self.now q }
        requires there { j < jobs_of self.now q }
        ensures value { result ≡ last_begun self.now p q j }
        ensures inside { result < jobs_of self.now p }
    {
        let _processes = self.processes();
        self.begin_of(q as usize, j) / self.process_at(p as usize).period
    }

    /// Whether job `j` of q reads job `k` of p in the same cycle.
    pub fn reads_now(&self, p: u32, q: u32, delay: u32, k: u32, j: u32) -> bool
        requires p { IsRatesProcess self.now p }
        requires q { IsRatesProcess self.now q }
        requires one { k < jobs_of self.now p }
        requires other { j < jobs_of self.now q }
        ensures { result ≡ reads_now self.now p q delay k j }
    {
        let jobs = self.jobs_of(p as usize);
        (jobs + self.last_begun(p, q, j)).saturating_sub(delay) == jobs + k
    }
}
