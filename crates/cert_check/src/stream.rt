//! Do the bytes of a reader spell a certificate that proves its bound?

ghost use Rattle.std.specs.Prelude.{◌≡◌, ◌+◌, ◌∷◌, [], ◌≤◌, IfOk, IfSome, length};
ghost use Rattle.ttp_model.specs.Delays.{HasNoPlan, IsLowerBound};
ghost use Rattle.certificate.specs.Cert.{Cert};
ghost use Rattle.certificate.specs.Limits.{most_text_bytes};
ghost use Rattle.certificate.specs.Sources.{Origin};
ghost use Rattle.certificate.specs.Spelling.{SpellsCert};
ghost use Rattle.certificate.specs.Streams.{IsFresh, LeavesCert, StreamIsFrom, bytes_taken, next_line, still_to_come, stream_reader};
ghost use Rattle.tree_check.specs.Proofs.{Proves};
ghost use Rattle.cert_check.specs.Streams.{IsAnswerOf, IsBoundUnlessStopped, IsStreamJudged, IsTakenFrom, TakesAll};
ghost use Rattle.cert_check.specs.UnderWay.{AnswersAll, StopsAt};

use crate::ahead::pass_nodes;
use crate::batches::Batches;
use crate::fault::StreamFault;
use crate::judge::Judge;
use certificate::CertStream;
use std::alloc::Global;
use std::io::Read;
use std::thread::Threads;
use tree_check::CertFault;
use ttp_model::Instance;

/// Goes through all nodes, of whose leaves up to `batch` wait together, but for one. The first fault of their tree.
fn go_through<T: Threads + Sync, R: Read>(
    judge: &Judge<T>,
    batch: usize,
    stream: &mut CertStream<R>,
) -> Result<(), StreamFault>
    requires due { still_to_come stream.old ≡ 1 ∷ [] }
    requires line { next_line stream.old ≡ 3 }
    ensures answers { AnswersAll judge.now.instance.now judge.now.low R.remaining stream.old (bytes_taken stream.new) result }
    ensures from { (origin : Origin) → StreamIsFrom R.remaining stream.old origin → StreamIsFrom R.remaining stream.new origin }
{
    match Batches::new(judge.alloc, judge.instance, batch) {
        Ok(batches) => {
            let mut batches = batches;
            judge.through(&mut batches, stream)
        }
        Err(_) => {
            pass_nodes(judge.alloc, stream)?;
            Err(StreamFault::Cert(CertFault::OutOfMemory))
        }
    }
}

/// The bound, in ticks, that a stream's certificate proves; else the first fault. Nothing is read behind lines that are at fault.
fn judge<R: Read>(
    rt: &(impl Threads + Sync),
    alloc: Global,
    instance: &Instance,
    batch: usize,
    stream: &mut CertStream<R>,
) -> Result<u32, StreamFault>
    requires { IsFresh stream.old }
    ensures answer { IsAnswerOf instance.now (LeavesCert R.remaining stream.old) result }
    ensures bound { IfOk result (λ low. IsLowerBound instance.now low) }
    ensures none { IfOk result
        (λ low. low ≡ instance.now.cluster.horizon + 1 → HasNoPlan instance.now) }
    ensures stops { StopsAt (bytes_taken stream.new) result }
    ensures from { (origin : Origin) → StreamIsFrom R.remaining stream.old origin → StreamIsFrom R.remaining stream.new origin }
{
    let low = stream.low()?;
    if low > instance.past_horizon() {
        pass_nodes(alloc, stream)?;
        return Err(StreamFault::Cert(CertFault::LowTooGreat));
    }
    go_through(&Judge::new(rt, alloc, instance, low), batch, stream)?;
    Ok(low)
}

/// The same, and the rest is read all the same, unless the reader failed or the text is too long.
fn judge_all<R: Read>(
    rt: &(impl Threads + Sync),
    alloc: Global,
    instance: &Instance,
    batch: usize,
    stream: &mut CertStream<R>,
) -> Result<u32, StreamFault>
    requires { IsFresh stream.old }
    ensures answer { IsAnswerOf instance.now (LeavesCert R.remaining stream.old) result }
    ensures bound { IfOk result (λ low. IsLowerBound instance.now low) }
    ensures none { IfOk result
        (λ low. low ≡ instance.now.cluster.horizon + 1 → HasNoPlan instance.now) }
    ensures all { TakesAll (bytes_taken stream.new) (R.remaining (stream_reader stream.new).now) result }
    ensures from { (origin : Origin) → StreamIsFrom R.remaining stream.old origin → StreamIsFrom R.remaining stream.new origin }
{
    match judge(rt, alloc, instance, batch, stream) {
        Err(StreamFault::Read) => Err(StreamFault::Read),
        Err(StreamFault::TooLong) => Err(StreamFault::TooLong),
        answer => {
            stream.read_on()?;
            answer
        }
    }
}

/// The bound, in ticks, that the certificate of a reader's bytes proves, as `check` says it of one that was read whole; else the
/// first fault: of the reader, of a text that is too long, of the text, of the certificate. After a fault of the text or of the
/// certificate the rest is still read; of no reader more than `certificate::MOST_TEXT_BYTES` and one byte are taken.
///
/// Leaves are judged together on all processors, up to `batch` of them, 0 being taken as 1, while this thread reads on until as many
/// others wait. So no more than `batch` leaves wait, nor are more judged at a time. Takes memory for one path of the tree, and for all
/// those leaves with their lines and choices.
pub fn check_stream<R: Read>(
    rt: &(impl Threads + Sync),
    alloc: Global,
    instance: &Instance,
    reader: &mut R,
    batch: usize,
) -> Result<u32, StreamFault>
    ensures answer { IsStreamJudged instance.now (R.remaining reader.old) result }
    ensures only { IfSome (R.remaining reader.old) (λ bytes. (cert : Cert) → length bytes ≤ most_text_bytes → SpellsCert bytes cert
        → Proves instance.now cert → IsBoundUnlessStopped cert.low result) }
    ensures bound { IfOk result (λ low. IsLowerBound instance.now low) }
    ensures none { IfOk result
        (λ low. low ≡ instance.now.cluster.horizon + 1 → HasNoPlan instance.now) }
    ensures taken { IsTakenFrom (R.remaining reader.old) (R.remaining reader.new) result }
{
    let mut stream = CertStream::new(alloc, reader);
    let answer = judge_all(rt, alloc, instance, batch, &mut stream);
    let _reader = stream.into_reader();
    answer
}
