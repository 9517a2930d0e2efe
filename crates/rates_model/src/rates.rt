//! What a cluster of several rates is: tables that keep all rules.

ghost use Rattle.std.specs.Prelude.{◌≡◌, ◌+◌, ◌*◌, ◌<◌, ◌≤◌, All, IfOk, IfErr, IsOk, length, slice_index};
ghost use Rattle.ttp_model.specs.declared.limits.TheConstants.{MOST_TICKS};
ghost use Rattle.rates_model.specs.declared.limits.TheConstants.{LEAST_THROUGH, MOST_THROUGH};
ghost use Rattle.rates_model.specs.Rates.{process_at, link_at, message_at, chain_at, period_of};
ghost use Rattle.rates_model.specs.Cycles.{cycle, round_of, horizon_of, jobs_of};
ghost use Rattle.rates_model.specs.Reads.{leads};
ghost use Rattle.rates_model.specs.Ages.{wait_of};
ghost use Rattle.rates_model.specs.Rules.{AreTicks, IsRates, IsRatesProcess};
ghost use Rattle.rates_model.specs.Refusals.{IsRatesRefusal};
ghost use Rattle.rates_model.specs.Parts.{rates_of};

use crate::error::RatesError;
use crate::parts::{
    Chain, RatesCluster, RatesLink, RatesMessage, RatesNode, RatesParts, RatesProcess,
};
use crate::rules::RatesTicks;
use crate::{leading, rules};
use std::marker::Model;

/// A cluster whose processes have periods of their own, and all its rules are kept.
#[derive(Drop)]
pub struct Rates {
    parts: RatesParts,
    spans: RatesTicks,
}

impl Model for Rates {
    ghost use Rattle.rates_model.specs.Rates.{Rates};
    ghost use Rattle.rates_model.specs.Parts.{rates_of, AreJudged};

    ghost Value = { Rates };

    ghost view = { λ s. rates_of s.parts };

    ghost invariant = { λ s. AreJudged s.parts s.spans };
}

impl Rates {
    /// What the tables are, or the first rule that they break, at its first place. Takes no memory.
    pub fn build(parts: RatesParts) -> Result<Self, RatesError>
        ensures ok { IfOk result (λ rho. rho ≡ rates_of parts) }
        ensures keeps { IfOk result IsRates }
        ensures err { IfErr result (IsRatesRefusal (rates_of parts)) }
    {
        let spans = rules::judge(&parts)?;
        Ok(Rates { parts, spans })
    }

    pub fn cluster(&self) -> &RatesCluster
        ensures value { result.now ≡ self.now.cluster }
        ensures keeps { IsRates self.now }
    {
        &self.parts.cluster
    }

    pub fn nodes(&self) -> &[RatesNode]
        ensures value { result.now ≡ self.now.nodes }
        ensures keeps { IsRates self.now }
    {
        self.parts.nodes.as_slice()
    }

    pub fn processes(&self) -> &[RatesProcess]
        ensures value { result.now ≡ self.now.processes }
        ensures keeps { IsRates self.now }
    {
        self.parts.processes.as_slice()
    }

    pub fn links(&self) -> &[RatesLink]
        ensures value { result.now ≡ self.now.links }
        ensures keeps { IsRates self.now }
    {
        self.parts.links.as_slice()
    }

    pub fn messages(&self) -> &[RatesMessage]
        ensures value { result.now ≡ self.now.messages }
        ensures keeps { IsRates self.now }
    {
        self.parts.messages.as_slice()
    }

    pub fn chains(&self) -> &[Chain]
        ensures value { result.now ≡ self.now.chains }
        ensures keeps { IsRates self.now }
    {
        self.parts.chains.as_slice()
    }

    /// The ticks after which all periods begin together again.
    pub fn cycle(&self) -> u32
        ensures value { result ≡ cycle self.now }
        ensures bound { result ≤ MOST_TICKS }
        ensures keeps { IsRates self.now }
    {
        self.spans.cycle
    }

    /// The ticks of a round.
    pub fn round(&self) -> u32
        ensures value { result ≡ round_of self.now }
        ensures bound { result ≤ MOST_TICKS }
        ensures keeps { IsRates self.now }
    {
        self.spans.round
    }

    /// The ticks of the whole rounds in a cycle.
    pub fn horizon(&self) -> u32
        ensures value { result ≡ horizon_of self.now }
        ensures bound { result ≤ MOST_TICKS }
    {
        let round = self.round();
        let cycle = self.cycle();
        if round == 0 { 0 } else { cycle / round * round }
    }

    /// The process of an index.
    pub fn process_at(&self, p: usize) -> &RatesProcess
        requires { p < length self.now.processes }
        ensures value { result.now ≡ process_at self.now p }
        ensures period { AreTicks result.now.period }
        ensures room { result.now.release + result.now.wcet ≤ result.now.deadline }
        ensures within { result.now.deadline ≤ result.now.period }
        ensures node { result.now.node < length self.now.nodes }
    {
        &self.processes()[p]
    }

    /// The link of an index.
    pub fn link_at(&self, l: usize) -> RatesLink
        requires { l < length self.now.links }
        ensures value { result ≡ link_at self.now l }
        ensures before { IsRatesProcess self.now result.before }
        ensures after { IsRatesProcess self.now result.after }
    {
        self.links()[l]
    }

    /// The message of an index.
    pub fn message_at(&self, m: usize) -> &RatesMessage
        requires { m < length self.now.messages }
        ensures value { result.now ≡ message_at self.now m }
        ensures sender { IsRatesProcess self.now result.now.sender }
        ensures receivers { All (IsRatesProcess self.now) result.now.receivers }
    {
        &self.messages()[m]
    }

    /// The chain of an index.
    pub fn chain_at(&self, c: usize) -> &Chain
        requires { c < length self.now.chains }
        ensures value { result.now ≡ chain_at self.now c }
        ensures least { LEAST_THROUGH ≤ length result.now.through }
        ensures most { length result.now.through ≤ MOST_THROUGH }
        ensures through { All (IsRatesProcess self.now) result.now.through }
        ensures age { result.now.age ≤ MOST_TICKS }
    {
        &self.chains()[c]
    }

    /// How many jobs a process has in a cycle.
    pub fn jobs_of(&self, p: usize) -> u32
        requires { p < length self.now.processes }
        ensures value { result ≡ jobs_of self.now p }
        ensures whole { result * period_of self.now p ≡ cycle self.now }
        ensures few { result ≤ MOST_TICKS }
    {
        self.cycle() / self.process_at(p).period
    }

    /// By how many periods what q reads of p may be old: of several ways the oldest.
    pub fn wait_of(&self, p: u32, q: u32) -> u32
        ensures { result ≡ wait_of self.now p q }
    {
        if leading::leads(&self.parts, p, q, 1) {
            1
        } else {
            0
        }
    }
}
