//! Which leaves of a certificate wait together, where its nodes come one after another?

ghost use Rattle.std.specs.Prelude.{◌≡◌, ◌∷◌, [], ◌<◌, ◌≤◌, ◌+◌, ◌^◌, ◌++◌, ℕ, All, List, Err, IfErr, IfOk, IsFalse, IsTrue, Ok, OnErr, OnOk, length};
ghost use Rattle.ttp_model.specs.Instance.{Instance};
ghost use Rattle.tt_choice.specs.Choice.{Choice, bare};
ghost use Rattle.certificate.specs.declared.stream.CertStream.{CertStream};
ghost use Rattle.certificate.specs.Sources.{Origin};
ghost use Rattle.certificate.specs.Streams.{StreamIsFrom, bytes_taken};
ghost use Rattle.cert_check.specs.declared.leaves.HeldLeaf.{HeldLeaf};
ghost use Rattle.tree_check.specs.Turns.{IsWalk};
ghost use Rattle.cert_check.specs.declared.ahead.Ahead.TheVariants.{More};
ghost use Rattle.cert_check.specs.Waiting.{Judges, TakeFails, Takes, Waits, held_leaf};
ghost use Rattle.cert_check.specs.UnderWay.{AnswersAll, GoesOn, IsFirst, IsSomewhere, Stands, to_come};

use crate::ahead::Ahead;
use crate::fault::StreamFault;
use crate::judge::told_before;
use crate::leaves::{HeldLeaf, HeldLeaves};
use certificate::{CertStream, CertTextError, Head, Version};
use std::alloc::Global;
use std::io::Read;
use tree_check::Walk;
use ttp_model::{Instance, MemoryFault};

/// The walk through a tree whose nodes come one after another, and the leaves that wait: a batch after the other.
#[derive(Drop)]
pub struct Batches {
    walk: Walk,
    held: HeldLeaves,
    ahead: Ahead,
    /// The lines of a leaf's steps.
    text: Vec<u8>,
}

impl Batches {
    /// In front of the first node. No more leaves are to wait than `most`, but for one.
    pub fn new(alloc: Global, instance: &Instance, most: usize) -> Result<Batches, MemoryFault>
        ensures { IfOk result (IsFirst instance.now) }
    {
        let walk = Walk::new(alloc, instance)?;
        Ok(Batches {
            walk,
            held: HeldLeaves::new(alloc, most),
            ahead: Ahead::More,
            text: Vec::new(alloc),
        })
    }

    /// Whether nodes may be ahead.
    pub fn is_open(&self) -> bool
        ensures yes { IsTrue result → self.now.ahead ≡ More }
        ensures no { IsFalse result → ¬ (self.now.ahead ≡ More) }
    {
        match self.ahead {
            Ahead::More => true,
            Ahead::End => false,
            Ahead::Fault(_) => false,
        }
    }

    /// Lets a leaf wait whose line says this, and whose steps stand in the text.
    fn hold(
        &mut self,
        alloc: Global,
        version: Version,
        goal: u32,
        count: u32,
        line: u64,
    ) -> Result<(), MemoryFault>
        ensures walk { self.new.walk ≡ self.old.walk }
        ensures few { count < 2 ^ 32 }
        ensures most { self.new.held.most ≡ self.old.held.most }
        ensures kept { OnErr result (self.new.held.leaves.items ≡ self.old.held.leaves.items) }
        ensures held { OnOk result (self.new.held.leaves.items
            ≡ self.old.held.leaves.items ++ held_leaf (bare self.old.walk.choice) version goal count line self.old.text ∷ []) }
    {
        let choice = self.held.choice_like(alloc, self.walk.choice())?;
        let steps = self.held.text_of(alloc, &mut self.text);
        self.held.push(HeldLeaf {
            choice,
            version,
            goal,
            count,
            line,
            steps,
        })
    }

    /// Takes a node whose line says this: judges a branch, and lets a leaf wait.
    fn take(
        &mut self,
        alloc: Global,
        instance: &Instance,
        version: Version,
        head: Head,
        line: u64,
    ) -> Result<(), StreamFault>
        requires walk { (c : Choice) × (left : List Choice) × IsWalk instance.now self.old.walk (c ∷ left) }
        requires line { line < 2 ^ 63 }
        ensures takes { OnOk result ((c : Choice) (left : List Choice) → IsWalk instance.now self.old.walk (c ∷ left)
            → Takes instance.now version self.new.walk self.old.held.leaves.items self.new.held.leaves.items head line self.old.text c left) }
        ensures kept { OnErr result (self.new.held.leaves.items ≡ self.old.held.leaves.items) }
        ensures err { IfErr result (λ fault. (c : Choice) (left : List Choice) → IsWalk instance.now self.old.walk (c ∷ left)
            → TakeFails instance.now head line c fault) }
        ensures few { length self.new.held.leaves.items ≤ length self.old.held.leaves.items + 1 }
        ensures most { self.new.held.most ≡ self.old.held.most }
    {
        match (self.walk.go_on(alloc, instance), head) {
            (Ok(()), Head::OfBranch(branch)) => {
                match self.walk.branch(alloc, instance, &branch, line) {
                    Ok(()) => Ok(()),
                    Err(fault) => Err(StreamFault::Cert(fault)),
                }
            }
            (Ok(()), Head::OfLeaf(goal, count)) => match self.hold(
                alloc, version, goal, count, line,
            ) {
                Ok(()) => Ok(()),
                Err(_) => Err(StreamFault::Text(CertTextError::OutOfMemory)),
            },
            (Err(_), _) => Err(StreamFault::Text(CertTextError::OutOfMemory)),
        }
    }

    /// Takes the next node. What stands ahead then.
    fn take_next<R: Read>(
        &mut self,
        alloc: Global,
        instance: &Instance,
        stream: &mut CertStream<R>,
    ) -> Ahead
        requires open { self.old.ahead ≡ More }
        requires somewhere { IsSomewhere instance.now R.remaining stream.old self.old }
        ensures stands { (low : ℕ) (first : CertStream R) (front : List HeldLeaf)
            → Stands instance.now low R.remaining first stream.old self.old.walk (front ++ self.old.held.leaves.items) self.old.ahead
            → Stands instance.now low R.remaining first stream.new self.new.walk (front ++ self.new.held.leaves.items) result }
        ensures few { length self.new.held.leaves.items ≤ length self.old.held.leaves.items + 1 }
        ensures most { self.new.held.most ≡ self.old.held.most }
        ensures less { to_come result stream.new < to_come self.old.ahead stream.old }
    {
        match stream.next_piece(alloc, &mut self.text) {
            Err(fault) => Ahead::Fault(StreamFault::from(fault)),
            Ok(next) => {
                let Some(said) = next else {
                    return Ahead::End;
                };
                match self.take(alloc, instance, stream.version(), said.0, said.1) {
                    Ok(()) => Ahead::More,
                    Err(fault) => Ahead::Fault(fault),
                }
            }
        }
    }

    /// Reads on until as many leaves wait as are judged together, or no further node is taken.
    pub fn read_on<R: Read>(
        &mut self,
        alloc: Global,
        instance: &Instance,
        stream: &mut CertStream<R>,
    )
        requires somewhere { IsSomewhere instance.now R.remaining stream.old self.old }
        requires room { length self.old.held.leaves.items < self.old.held.most }
        ensures { GoesOn instance.now R.remaining stream.old stream.new self.old self.new }
    {
        'nodes: while self.is_open() {
            self.ahead = self.take_next(alloc, instance, stream);
            if self.held.is_full() {
                return;
            }
        }
    }

    /// Hands the leaves that wait over, and lets none wait.
    pub fn hand_over(&mut self, front: &mut Vec<HeldLeaf>) -> Result<(), MemoryFault>
        ensures walk { self.new.walk ≡ self.old.walk }
        ensures ahead { self.new.ahead ≡ self.old.ahead }
        ensures most { self.new.held.most ≡ self.old.held.most }
        ensures empty { OnOk result (self.new.held.leaves.items ≡ []) }
        ensures front { OnOk result (front.new.items ≡ self.old.held.leaves.items) }
    {
        self.held.hand_over(front)
    }

    /// What is told where this is wrong with the leaves in front, once what is left was read.
    pub fn told<R: Read>(
        &self,
        alloc: Global,
        front: &[HeldLeaf],
        fault: StreamFault,
        stream: &mut CertStream<R>,
    ) -> StreamFault
        requires waits { (i : Instance) × All (Waits i) (front.now ++ self.now.held.leaves.items) }
        ensures answers { (i : Instance) (low : ℕ) (first : CertStream R)
            → Stands i low R.remaining first stream.old self.now.walk (front.now ++ self.now.held.leaves.items) self.now.ahead → Judges i low front.now (Err fault)
            → AnswersAll i low R.remaining first (bytes_taken stream.new) (Err result) }
        ensures from { (origin : Origin) → StreamIsFrom R.remaining stream.old origin → StreamIsFrom R.remaining stream.new origin }
    {
        let fault = told_before(alloc, front, fault);
        let fault = told_before(alloc, self.held.as_slice(), fault);
        self.ahead.told(alloc, fault, stream)
    }

    /// What is told where no further node is taken, no leaf waits, and those in front close.
    pub fn end<R: Read>(&self, alloc: Global, stream: &mut CertStream<R>) -> Result<(), StreamFault>
        requires { ¬ (self.now.ahead ≡ More) }
        ensures answers { (i : Instance) (low : ℕ) (first : CertStream R) (hs : List HeldLeaf)
            → Stands i low R.remaining first stream.old self.now.walk hs self.now.ahead → Judges i low hs (Ok tt)
            → AnswersAll i low R.remaining first (bytes_taken stream.new) result }
        ensures from { (origin : Origin) → StreamIsFrom R.remaining stream.old origin → StreamIsFrom R.remaining stream.new origin }
    {
        self.ahead.end(alloc, stream)
    }
}
