//! What is known of the plans that are sought, and what is it about?

ghost use Rattle.std.specs.Prelude.{◌≡◌, ◌<◌, IfOk, IsTrue, length};
ghost use Rattle.ttp_model.specs.declared.plan.Plan.{Plan};
ghost use Rattle.tt_choice.specs.Choice.{IsChoice, bare};
ghost use Rattle.tt_choice.specs.Decisions.{choice_after, IsOpenDecision};
ghost use Rattle.sought_plans.specs.Known.{Fits, IsSought, es_of, le_of, lo_of, top_of, bef_of, first_facts};
ghost use Rattle.tt_choice.specs.Branches.{IsUnorderedPair, order_pair};
ghost use Rattle.sought_plans.specs.Conclusions.{GoesFirst, sharpened};
ghost use Rattle.tt_infer.specs.Facts.{AreFacts, after};
ghost use Rattle.tt_infer.specs.Setting.{inference};
ghost use Rattle.tt_infer.specs.Answers.{Takes};

use crate::fault::StepFault;
use crate::rules;
use sought_plans::{Known, Setting};
use std::alloc::Global;
use std::marker::Model;
use tt_choice::{Choice, Decision};
use ttp_model::{Instance, MemoryFault, Step};

/// What is known of the plans of a choice with a delay below a goal: when each process starts at
/// least and ends at most, in which rounds each message can be sent, which processes go before
/// which, and whether no plan is left. It is true of each settled plan among them.
#[derive(Drop)]
pub struct Facts<'a> {
    setting: Setting<'a>,
    known: Known,
}

impl<'a> Model for Facts<'a> {
    ghost use Rattle.tt_infer.specs.Facts.{Facts, AreFacts};
    ghost use Rattle.tt_infer.specs.Setting.{inference};

    ghost Value = { Facts };

    ghost view = { λ s. inference s.setting s.known };

    ghost invariant = { λ s. AreFacts (inference s.setting s.known) };
}

impl<'a> Facts<'a> {
    /// What is known at first of the plans of the choice with a delay below `goal` ticks. Takes
    /// memory for all that is known later too, and a pass over the nodes for each of them.
    pub fn new(
        alloc: Global,
        instance: &'a Instance,
        choice: &Choice,
        goal: u32,
    ) -> Result<Facts<'a>, MemoryFault>
        requires { IsChoice instance.now choice.now }
        ensures { IfOk result (λ f. f ≡ record {
          instance = instance.now;
          choice = choice.now;
          goal = goal;
          known = first_facts instance.now choice.now;
        }) }
    {
        let _nodes = instance.nodes();
        let setting = Setting::new(alloc, instance, choice, goal)?;
        let known = Known::first(alloc, instance, choice)?;
        Ok(Facts { setting, known })
    }

    /// What is known at first of the plans of another choice of the instance with a delay below `goal` ticks, in the room of these
    /// facts. No decision is kept. Takes a few passes along the prefix and one over the nodes for each of them.
    pub fn turned(self, choice: &Choice, goal: u32) -> Result<Facts<'a>, MemoryFault>
        requires { IsChoice self.instance choice.now }
        ensures { IfOk result (λ f. f ≡ record {
          instance = self.entry.instance;
          choice = bare choice.now;
          goal = goal;
          known = first_facts self.entry.instance (bare choice.now);
        }) }
    {
        let setting = self.setting.turned(choice, goal)?;
        let known = self.known.restarted(setting.instance(), setting.choice())?;
        Ok(Facts { setting, known })
    }

    /// What is known at first of the plans of other facts that are as decided, in the room of these facts.
    pub fn after(
        self,
        alloc: Global,
        before: &Facts<'a>,
        decision: Decision,
    ) -> Result<Facts<'a>, MemoryFault>
        requires { IsOpenDecision before.now.instance before.now.choice decision }
        ensures { IfOk result (λ f. f ≡ record {
          instance = before.now.instance;
          choice = choice_after before.now.instance before.now.choice decision;
          goal = before.now.goal;
          known = first_facts before.now.instance (choice_after before.now.instance before.now.choice decision);
        }) }
    {
        let setting = self.setting.after(alloc, &before.setting, decision)?;
        let known = self.known.restarted(setting.instance(), setting.choice())?;
        Ok(Facts { setting, known })
    }

    /// What is known at first of the plans that other facts are about, in the room of these facts. No decision is kept.
    pub fn anew(self, before: &Facts<'a>) -> Result<Facts<'a>, MemoryFault>
        ensures { IfOk result (λ f. f ≡ record {
          instance = before.now.instance;
          choice = bare before.now.choice;
          goal = before.now.goal;
          known = first_facts before.now.instance (bare before.now.choice);
        }) }
    {
        let setting = self.setting.set_to(&before.setting)?;
        let known = self.known.restarted(setting.instance(), setting.choice())?;
        Ok(Facts { setting, known })
    }

    /// What is known of the plans of other facts in which process `p` goes before `q`, in the room of these facts: what was
    /// known of all, and that order.
    pub fn supposing(
        self,
        alloc: Global,
        before: &Facts<'a>,
        p: u32,
        q: u32,
    ) -> Result<Facts<'a>, MemoryFault>
        requires { IsUnorderedPair before.now.instance before.now.choice p q }
        ensures { IfOk result (λ f. f ≡ record {
          instance = before.now.instance;
          choice = order_pair before.now.choice p q;
          goal = before.now.goal;
          known = sharpened before.now.instance before.now.known (GoesFirst p q);
        }) }
    {
        let setting = self
            .setting
            .after(alloc, &before.setting, Decision::Before(p, q))?;
        let mut known = self.known.set_to(&before.known)?;
        known.go_first(setting.instance(), p, q);
        Ok(Facts { setting, known })
    }

    /// Takes a step, or refuses it: then nothing has changed. A step of loads takes a pass over the
    /// processes or the messages, `XLate` one over the messages, `UsSettled` one over both, `XCycle` a
    /// pass over the links and one over the messages for each two neighbours, `OrdTwin` at most a pass
    /// over the links for each link, `XSilent` one over the messages, a step that names a receiver a
    /// pass over the message's receivers, and each other step a few look-ups. Takes no memory.
    pub fn apply(&mut self, step: &Step) -> Result<(), StepFault>
        ensures others { self.new ≡ after self.old self.new.known }
        ensures step { Takes self.old.instance self.old.choice self.old.goal self.old.known
            step.now self.new.known result }
    {
        rules::take(&mut self.known, &self.setting, step)
    }

    /// Whether no plan is left.
    pub fn closed(&self) -> bool
        ensures value { result ≡ self.now.known.closed }
        ensures none { IsTrue result → (plan : Plan)
            → ¬ IsSought self.now.instance self.now.choice self.now.goal plan }
    {
        self.known.is_closed()
    }

    /// Process `p` starts at this tick or later.
    pub fn es(&self, p: u32) -> u32
        requires { p < length self.now.instance.processes }
        ensures { result ≡ es_of self.now.known p }
    {
        self.known.es(p)
    }

    /// Process `p` ends at this tick or earlier.
    pub fn le(&self, p: u32) -> u32
        requires { p < length self.now.instance.processes }
        ensures { result ≡ le_of self.now.known p }
    {
        self.known.le(p)
    }

    /// Message `m` is sent in this round or later.
    pub fn lo(&self, m: u32) -> u32
        requires { m < length self.now.instance.messages }
        ensures { result ≡ lo_of self.now.known m }
    {
        self.known.lo(m)
    }

    /// Message `m` is sent in an earlier round than this.
    pub fn top(&self, m: u32) -> u32
        requires { m < length self.now.instance.messages }
        ensures { result ≡ top_of self.now.known m }
    {
        self.known.top(m)
    }

    /// By process, when it starts at least.
    pub fn starts(&self) -> &[u32]
        ensures { result.now ≡ self.now.known.es }
    {
        self.known.starts()
    }

    /// By process, when it ends at most.
    pub fn ends(&self) -> &[u32]
        ensures { result.now ≡ self.now.known.le }
    {
        self.known.ends()
    }

    /// By message, its least round.
    pub fn first_rounds(&self) -> &[u32]
        ensures { result.now ≡ self.now.known.lo }
    {
        self.known.first_rounds()
    }

    /// By message, the first round that is too late.
    pub fn late_rounds(&self) -> &[u32]
        ensures { result.now ≡ self.now.known.top }
    {
        self.known.late_rounds()
    }

    /// Whether process `p` is known to end before `q` starts: never where one of them isn't there.
    pub fn bef(&self, p: u32, q: u32) -> bool
        ensures { result ≡ bef_of self.now.known p q }
    {
        self.known.bef(p, q)
    }

    /// The instance whose plans are sought.
    pub fn instance(&self) -> &'a Instance
        ensures value { result.now ≡ self.now.instance }
        ensures inference { AreFacts self.now }
    {
        self.setting.instance()
    }

    /// The choice that they are in.
    pub fn choice(&self) -> &Choice
        ensures value { result.now ≡ self.now.choice }
        ensures inference { AreFacts self.now }
    {
        self.setting.choice()
    }

    /// All of that.
    pub fn known(&self) -> &Known
        ensures value { result.now ≡ self.now.known }
        ensures fits { Fits self.now.instance result.now }
    {
        &self.known
    }

    /// Which plans are sought, with how far their slots move: its questions take one step, where those of a choice go over all nodes.
    pub fn setting(&self) -> &Setting<'a>
        ensures { inference result.now self.now.known ≡ self.now }
    {
        &self.setting
    }

    /// Their delays are below this tick.
    pub fn goal(&self) -> u32
        ensures { result ≡ self.now.goal }
    {
        self.setting.goal()
    }
}
