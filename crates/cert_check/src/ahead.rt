//! What stands ahead of the nodes that were taken, and what is told of all of them?

ghost use Rattle.std.specs.Prelude.{◌≡◌, List, ℕ, Err, IfErr, Ok, OnOk};
ghost use Rattle.ttp_model.specs.Instance.{Instance};
ghost use Rattle.tt_choice.specs.Choice.{Choice};
ghost use Rattle.certificate.specs.declared.node.Node.{Node};
ghost use Rattle.certificate.specs.declared.stream.CertStream.{CertStream};
ghost use Rattle.certificate.specs.Sources.{Origin};
ghost use Rattle.certificate.specs.Streams.{LeavesNodes, StreamIsFrom, bytes_taken};
ghost use Rattle.tree_check.specs.declared.walk.Walk.{Walk};
ghost use Rattle.cert_check.specs.declared.ahead.Ahead.TheVariants.{More};
ghost use Rattle.cert_check.specs.declared.leaves.HeldLeaf.{HeldLeaf};
ghost use Rattle.cert_check.specs.Waiting.{Finishes, Judges};
ghost use Rattle.cert_check.specs.UnderWay.{AnswersAll, IsAhead, IsLinesFault, LeavesRest, Stands, told_of};

use crate::fault::StreamFault;
use certificate::{CertStream, CertTextError};
use std::alloc::Global;
use std::io::Read;

/// What stands ahead of the nodes that were taken.
#[derive(Clone, Copy, PartialEq, Eq)]
pub enum Ahead {
    /// Others, as far as is known.
    More,
    /// The end.
    End,
    /// Lines that are at fault, or a branch that is.
    Fault(StreamFault),
}

/// Reads the nodes that are left, and judges none.
pub fn pass_nodes<R: Read>(alloc: Global, stream: &mut CertStream<R>) -> Result<(), StreamFault>
    ensures rest { OnOk result ((rest : List Node) × LeavesNodes R.remaining stream.old (Ok rest)) }
    ensures err { IfErr result (IsLinesFault (LeavesNodes R.remaining stream.old) (bytes_taken stream.new)) }
    ensures from { (origin : Origin) → StreamIsFrom R.remaining stream.old origin → StreamIsFrom R.remaining stream.new origin }
{
    'rest: while let Some(_passed) = stream.next_node(alloc)? {}
    Ok(())
}

/// What is told where this is wrong with the nodes that were taken, and this is said of those that are left.
fn first_of(fault: StreamFault, rest: Result<(), StreamFault>) -> StreamFault
    ensures { result ≡ told_of fault rest }
{
    match (fault, rest) {
        (StreamFault::Text(text), Err(StreamFault::Text(CertTextError::At { .. }))) => {
            StreamFault::Text(text)
        }
        (_, Err(later)) => later,
        (fault, Ok(())) => fault,
    }
}

impl Ahead {
    /// Reads what is left.
    fn pass<R: Read>(self, alloc: Global, stream: &mut CertStream<R>) -> Result<(), StreamFault>
        ensures rest { (i : Instance) (at : CertStream R) (w : Walk) (left : List Choice) → IsAhead i R.remaining at stream.old w left self
            → LeavesRest i R.remaining at left self (bytes_taken stream.new) result }
        ensures from { (origin : Origin) → StreamIsFrom R.remaining stream.old origin → StreamIsFrom R.remaining stream.new origin }
    {
        match self {
            Ahead::More => pass_nodes(alloc, stream),
            Ahead::End => Ok(()),
            Ahead::Fault(fault) => match fault {
                StreamFault::Cert(_) => pass_nodes(alloc, stream),
                fault => Err(fault),
            },
        }
    }

    /// What is told where this is wrong with the leaves that wait, once what is left was read.
    pub fn told<R: Read>(
        self,
        alloc: Global,
        fault: StreamFault,
        stream: &mut CertStream<R>,
    ) -> StreamFault
        ensures answers { (i : Instance) (low : ℕ) (first : CertStream R) (w : Walk) (hs : List HeldLeaf)
            → Stands i low R.remaining first stream.old w hs self → Finishes i low hs (Err fault)
            → AnswersAll i low R.remaining first (bytes_taken stream.new) (Err result) }
        ensures from { (origin : Origin) → StreamIsFrom R.remaining stream.old origin → StreamIsFrom R.remaining stream.new origin }
    {
        let rest = self.pass(alloc, stream);
        first_of(fault, rest)
    }

    /// What is told where no further node is taken, and all leaves close.
    pub fn end<R: Read>(self, alloc: Global, stream: &mut CertStream<R>) -> Result<(), StreamFault>
        requires { ¬ (self ≡ More) }
        ensures answers { (i : Instance) (low : ℕ) (first : CertStream R) (w : Walk) (hs : List HeldLeaf)
            → Stands i low R.remaining first stream.old w hs self → Judges i low hs (Ok tt)
            → AnswersAll i low R.remaining first (bytes_taken stream.new) result }
        ensures from { (origin : Origin) → StreamIsFrom R.remaining stream.old origin → StreamIsFrom R.remaining stream.new origin }
    {
        self.pass(alloc, stream)?;
        match self {
            Ahead::Fault(fault) => Err(fault),
            Ahead::End => Ok(()),
            Ahead::More => Ok(()),
        }
    }
}
