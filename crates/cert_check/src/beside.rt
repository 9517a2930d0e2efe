//! How are leaves judged while the next ones are read?

ghost use Rattle.std.specs.Prelude.{◌<◌, ◌≤◌, ◌++◌, All, Err, IfErr, Ok, OnErr, OnOk, length};
ghost use Rattle.certificate.specs.declared.stream.CertStream.{CertStream};
ghost use Rattle.certificate.specs.Sources.{Origin};
ghost use Rattle.certificate.specs.Streams.{StreamIsFrom, bytes_taken};
ghost use Rattle.cert_check.specs.Waiting.{Judges, RunCloses, Waits};
ghost use Rattle.cert_check.specs.UnderWay.{AnswersAll, GoesOn, IsBegun, IsSomewhere, Stands};

use crate::batches::Batches;
use crate::fault::StreamFault;
use crate::judge::Judge;
use crate::leaves::HeldLeaf;
use crate::shares::{are_many, places_of_both};
use certificate::CertStream;
use rayon::join_mut;
use std::io::Read;
use std::sync::atomic::AtomicUsize;
use std::thread::Threads;

impl<'a, T: Threads + Sync> Judge<'a, T> {
    /// Judges leaves in so many other threads, and in this one once it has read the next batch. The places of runs that close.
    #[cycle(threads)]
    fn share<R: Read>(
        &self,
        others: usize,
        leaves: &[HeldLeaf],
        next: &AtomicUsize,
        batches: &mut Batches,
        stream: &mut CertStream<R>,
    ) -> Vec<usize>
        requires waits { All (Waits self.now.instance.now) leaves.now }
        requires somewhere { IsSomewhere self.now.instance.now R.remaining stream.old batches.old }
        requires room { length batches.old.held.leaves.items < batches.old.held.most }
        ensures closed { All (RunCloses self.now.instance.now self.now.low leaves.now) result.items }
        ensures on { GoesOn self.now.instance.now R.remaining stream.old stream.new batches.old batches.new }
    {
        if others == 0 {
            batches.read_on(self.alloc, self.instance, stream);
            return self.closed_runs(leaves, next);
        }
        let mut run = || -> Vec<usize>
            requires { All (Waits self.now.instance.now) leaves.now }
            ensures { All (RunCloses self.entry.now.instance.now self.entry.now.low leaves.entry.now) result.items }
        { self.closed_runs(leaves, next) };
        let mut go_on = || -> Vec<usize>
            requires { (0 < others) × All (Waits self.now.instance.now) leaves.now × IsSomewhere self.now.instance.now R.remaining stream.now batches.now × (length batches.now.held.leaves.items < batches.now.held.most) }
            ensures closed { All (RunCloses self.entry.now.instance.now self.entry.now.low leaves.entry.now) result.items }
            ensures on { GoesOn self.entry.now.instance.now R.remaining stream.entry.now stream.exit.now batches.entry.now batches.exit.now }
        { self.share(others - 1, leaves, next, batches, stream) };
        let (places, more) = join_mut(self.rt, &mut run, &mut go_on);
        places_of_both(places, more)
    }

    /// Judges leaves, and reads the next batch meanwhile in this thread where they are worth others.
    fn beside<R: Read>(
        &self,
        leaves: &[HeldLeaf],
        batches: &mut Batches,
        stream: &mut CertStream<R>,
    ) -> Result<(), StreamFault>
        requires waits { All (Waits self.now.instance.now) leaves.now }
        requires together { length leaves.now ≤ batches.old.held.most }
        requires somewhere { IsSomewhere self.now.instance.now R.remaining stream.old batches.old }
        requires room { length batches.old.held.leaves.items < batches.old.held.most }
        ensures judges { Judges self.now.instance.now self.now.low leaves.now result }
        ensures on { GoesOn self.now.instance.now R.remaining stream.old stream.new batches.old batches.new }
    {
        if !are_many(leaves) {
            let judged = self.alone(leaves);
            batches.read_on(self.alloc, self.instance, stream);
            return judged;
        }
        let next = AtomicUsize::new(0);
        let closed = self.share(self.others, leaves, &next, batches, stream);
        self.rest(leaves, closed.as_slice())
    }

    /// The same; and where one is at fault the rest is read, and what is told then is told.
    fn next_batch<R: Read>(
        &self,
        leaves: &[HeldLeaf],
        batches: &mut Batches,
        stream: &mut CertStream<R>,
    ) -> Result<(), StreamFault>
        requires together { length leaves.now ≤ batches.old.held.most }
        requires somewhere { (first : CertStream R) × Stands self.now.instance.now self.now.low R.remaining first stream.old batches.old.walk (leaves.now ++ batches.old.held.leaves.items) batches.old.ahead }
        requires room { length batches.old.held.leaves.items < batches.old.held.most }
        ensures judges { OnOk result (Judges self.now.instance.now self.now.low leaves.now (Ok tt)) }
        ensures on { OnOk result (GoesOn self.now.instance.now R.remaining stream.old stream.new batches.old batches.new) }
        ensures answers { IfErr result (λ fault. (first : CertStream R)
            → Stands self.now.instance.now self.now.low R.remaining first stream.old batches.old.walk (leaves.now ++ batches.old.held.leaves.items) batches.old.ahead
            → AnswersAll self.now.instance.now self.now.low R.remaining first (bytes_taken stream.new) (Err fault)) }
        ensures from { OnErr result ((first : CertStream R)
            → Stands self.now.instance.now self.now.low R.remaining first stream.old batches.old.walk (leaves.now ++ batches.old.held.leaves.items) batches.old.ahead
            → (origin : Origin) → StreamIsFrom R.remaining first origin → StreamIsFrom R.remaining stream.new origin) }
    {
        match self.beside(leaves, batches, stream) {
            Ok(()) => Ok(()),
            Err(fault) => Err(batches.told(self.alloc, leaves, fault, stream)),
        }
    }

    /// Judges all leaves of a certificate, a batch after the other. The first fault of its tree.
    pub fn through<R: Read>(
        &self,
        batches: &mut Batches,
        stream: &mut CertStream<R>,
    ) -> Result<(), StreamFault>
        requires begun { IsBegun self.now.instance.now stream.old batches.old }
        ensures answers { AnswersAll self.now.instance.now self.now.low R.remaining stream.old (bytes_taken stream.new) result }
        ensures from { (origin : Origin) → StreamIsFrom R.remaining stream.old origin → StreamIsFrom R.remaining stream.new origin }
    {
        let mut front = Vec::new(self.alloc);
        'batches: while batches.is_open() {
            self.next_batch(front.as_slice(), batches, stream)?;
            batches.hand_over(&mut front)?;
        }
        self.next_batch(front.as_slice(), batches, stream)?;
        batches.end(self.alloc, stream)
    }
}
