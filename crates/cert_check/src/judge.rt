//! Which of the leaves that wait is the first that can't be read or doesn't close?

ghost use Rattle.std.specs.Prelude.{◌≡◌, All, Err, IfErr, IfOk, Ok, OnOk};
ghost use Rattle.ttp_model.specs.Instance.{Instance};
ghost use Rattle.certificate.specs.declared.fault.CertTextError.TheVariants as text;
ghost use Rattle.cert_check.specs.declared.fault.StreamFault.TheVariants.{Text};
ghost use Rattle.cert_check.specs.Waiting.{IsLeafAnswer, Judges, TellsBefore, Waits};

use crate::fault::StreamFault;
use crate::leaves::HeldLeaf;
use certificate::{CertTextError, read_steps};
use rayon::current_num_threads;
use std::alloc::Global;
use std::thread::Threads;
use tree_check::judge_leaf;
use tt_infer::Facts;
use ttp_model::{Instance, Step};

/// However many processors there are, no more threads than these are started for a batch. A limit,
/// not tuned.
const MOST_OTHERS: usize = 31;

/// Who judges whether leaves close the choices that they stand at, below a bound, and has so many other threads for it.
#[derive(Drop)]
pub struct Judge<'a, T> {
    pub rt: &'a T,
    pub alloc: Global,
    pub instance: &'a Instance,
    pub low: u32,
    pub others: usize,
}

/// Room for one leaf after another: what is known, and its steps.
#[derive(Drop)]
pub struct LeafRoom<'a> {
    pub facts: Facts<'a>,
    pub steps: Vec<Step>,
}

impl<'a, T: Threads> Judge<'a, T> {
    /// With a thread for each other processor.
    pub fn new(rt: &'a T, alloc: Global, instance: &'a Instance, low: u32) -> Judge<'a, T>
        ensures instance { result.instance.now ≡ instance.now }
        ensures low { result.low ≡ low }
    {
        let others = current_num_threads(rt).saturating_sub(1).min(MOST_OTHERS);
        Judge {
            rt,
            alloc,
            instance,
            low,
            others,
        }
    }
}

impl<'a, T> Judge<'a, T> {
    /// Reads the steps of a leaf, and judges it in this room, which comes back where it closes.
    fn leaf(&self, room: LeafRoom<'a>, held: &HeldLeaf) -> Result<LeafRoom<'a>, StreamFault>
        requires of { room.facts.instance ≡ self.now.instance.now }
        requires waits { Waits self.now.instance.now held.now }
        ensures of { IfOk result (λ same. same.facts.instance ≡ self.now.instance.now) }
        ensures ok { OnOk result (IsLeafAnswer self.now.instance.now self.now.low held.now (Ok tt)) }
        ensures err { IfErr result (λ fault. IsLeafAnswer self.now.instance.now self.now.low held.now (Err fault)) }
    {
        let LeafRoom { facts, steps } = room;
        match read_steps(
            self.alloc,
            held.version,
            steps,
            held.line,
            held.count,
            held.steps.as_slice(),
        ) {
            Ok(steps) => {
                match judge_leaf(
                    facts,
                    self.low,
                    &held.choice,
                    held.goal,
                    steps.as_slice(),
                    held.line,
                ) {
                    Ok(facts) => Ok(LeafRoom { facts, steps }),
                    Err(fault) => Err(StreamFault::Cert(fault)),
                }
            }
            Err(fault) => Err(StreamFault::Text(fault)),
        }
    }

    /// Reads and judges leaves one after another in this room, which comes back where they all close. Else tells what is wrong
    /// with the first that can't be read or doesn't.
    pub fn run(&self, room: LeafRoom<'a>, run: &[HeldLeaf]) -> Result<LeafRoom<'a>, StreamFault>
        requires of { room.facts.instance ≡ self.now.instance.now }
        requires waits { All (Waits self.now.instance.now) run.now }
        ensures of { IfOk result (λ same. same.facts.instance ≡ self.now.instance.now) }
        ensures ok { OnOk result (Judges self.now.instance.now self.now.low run.now (Ok tt)) }
        ensures err { IfErr result (λ fault. Judges self.now.instance.now self.now.low run.now (Err fault)) }
    {
        let mut room = room;
        for k in 0..run.len() {
            match self.leaf(room, &run[k]) {
                Ok(same) => room = same,
                Err(fault) => return Err(fault),
            }
        }
        Ok(room)
    }

    /// Room for leaves, the first of which this is.
    pub fn room(&self, first: &HeldLeaf) -> Result<LeafRoom<'a>, StreamFault>
        requires { Waits self.now.instance.now first.now }
        ensures of { IfOk result (λ room. room.facts.instance ≡ self.now.instance.now) }
        ensures err { IfErr result (λ fault. fault ≡ Text text.OutOfMemory) }
    {
        let facts = Facts::new(self.alloc, self.instance, &first.choice, self.low)?;
        let steps = Vec::new(self.alloc);
        Ok(LeafRoom { facts, steps })
    }

    /// Reads and judges leaves in room of their own.
    pub fn alone(&self, run: &[HeldLeaf]) -> Result<(), StreamFault>
        requires { All (Waits self.now.instance.now) run.now }
        ensures { Judges self.now.instance.now self.now.low run.now result }
    {
        let Some(first) = run.first() else {
            return Ok(());
        };
        let room = self.room(first)?;
        match self.run(room, run) {
            Ok(_) => Ok(()),
            Err(fault) => Err(fault),
        }
    }
}

/// What is told of leaves where this is wrong with one: a fault of their text goes before one of a leaf that is read.
pub fn told_before(alloc: Global, leaves: &[HeldLeaf], fault: StreamFault) -> StreamFault
    requires { (i : Instance) × All (Waits i) leaves.now }
    ensures { TellsBefore leaves.now fault result }
{
    let StreamFault::Cert(_) = fault else {
        return fault;
    };
    for k in 0..leaves.len() {
        let held = &leaves[k];
        let room = Vec::new(alloc);
        if let Err(text) = read_steps(
            alloc,
            held.version,
            room,
            held.line,
            held.count,
            held.steps.as_slice(),
        ) {
            return StreamFault::Text(text);
        }
    }
    fault
}
