//! Which nodes does a reader give, one after another?

ghost use Rattle.std.specs.Prelude.{◌≡◌, ◌+◌, ◌∷◌, ◌<◌, ◌≤◌, ◌^◌, [], List, length, reverse, IfOk, IfErr, IfNone, IfSome, OnOk};
ghost use Rattle.std.specs.Io.KnownBytes.{IsAtEnd};
ghost use Rattle.certificate.specs.declared.node.Node.{Node};
ghost use Rattle.certificate.specs.Limits.{most_branches_above, most_text_bytes};
ghost use Rattle.ttp_model.specs.declared.step.Step.{Step};
ghost use Rattle.certificate.specs.Lines.{node_lines};
ghost use Rattle.certificate.specs.Words.{count_of, node_of_head};
ghost use Rattle.certificate.specs.Cert.{Cert};
ghost use Rattle.certificate.specs.Reading.{Reading};
ghost use Rattle.certificate.specs.Sources.{Origin};
ghost use Rattle.certificate.specs.Opened.{TakesChild, certificate_with, still_due};
ghost use Rattle.certificate.specs.Streams.{IsFresh, LeavesNodes, LeavesCert, LeavesNext, LeavesPiece, BytesRead, StreamIsFrom, IsCertFault, IsNodeFault, stream_version, next_line, still_to_come, bytes_taken, stream_reader};
ghost use Rattle.certificate.specs.Blocks.{Stops};

use crate::block::Block;
use crate::fault::SourceFault;
use crate::head::Head;
use crate::low::low_from;
use crate::node::Node;
use crate::nodes::{next_node, take_due};
use crate::pieces::piece_of;
use crate::reader_lines::ReaderLines;
use crate::source::LineSource;
use crate::version::Version;
use std::alloc::Global;
use std::io::Read;

/// The certificate that a reader's bytes spell: its bound, and then its nodes, each in front of those below it. No more
/// bytes are taken than `MOST_TEXT_BYTES` and one, in blocks. Memory is held for a block, a line, a node with its steps,
/// and a count for each open branch and the tree itself, of which there are at most `MOST_BRANCHES_ABOVE + 2`.
///
/// After a fault nothing but `read_on` is to be called.
#[derive(Drop)]
pub struct CertStream<'a, R> {
    lines: ReaderLines<'a, R>,
    version: Version,
    due: Vec<u32>,
}

impl<'a, R: Read> CertStream<'a, R> {
    /// Takes no byte yet, and no memory.
    pub fn new(alloc: Global, reader: &'a mut R) -> CertStream<'a, R>
        ensures fresh { IsFresh result }
        ensures text { (reading : Reading Cert) → LeavesCert R.remaining result reading → BytesRead (R.remaining reader.old) reading }
        ensures from { StreamIsFrom R.remaining result (record { reader = reader.entry.ghost_name; bytes = R.remaining reader.old }) }
    {
        let block = Block::new(alloc);
        CertStream {
            lines: ReaderLines { reader, block },
            version: Version::One,
            due: Vec::new(alloc),
        }
    }

    /// The bound, in ticks, which the first two lines state.
    pub fn low(&mut self) -> Result<u32, SourceFault>
        requires { IsFresh self.old }
        // Whatever nodes it leaves, with the bound they are what the whole text gives.
        ensures low { IfOk result (λ low. (read : Reading (List Node)) → LeavesNodes R.remaining self.new read
            → LeavesCert R.remaining self.old (certificate_with (stream_version self.new) low read)) }
        ensures due { OnOk result (still_to_come self.new ≡ 1 ∷ []) }
        ensures line { OnOk result (next_line self.new ≡ 3) }
        ensures err { IfErr result (IsCertFault (LeavesCert R.remaining self.old) (bytes_taken self.new)) }
        ensures from { (origin : Origin) → StreamIsFrom R.remaining self.old origin → StreamIsFrom R.remaining self.new origin }
    {
        let (version, low) = low_from(&mut self.lines)?;
        self.due.push(1)?;
        self.version = version;
        Ok(low)
    }

    /// The version of the text, once the bound is read.
    pub fn version(&self) -> Version
        ensures { result ≡ stream_version self.now }
    {
        self.version
    }

    /// The next node and its line, or none behind the last one, where the text has to end.
    pub fn next_node(&mut self, alloc: Global) -> Result<Option<(Node, u64)>, SourceFault>
        // Whatever is left behind it, with the node in front it was left before.
        ensures next { IfOk result (LeavesNext R.remaining self.old self.new) }
        ensures line { IfOk result (λ next. IfSome next (λ said. said.1 ≡ next_line self.old)) }
        ensures due { IfOk result (λ next. IfSome next (λ said. TakesChild (still_to_come self.old) (still_to_come self.new) said.0)) }
        ensures passed { IfOk result (λ next. IfSome next (λ said. next_line self.new ≡ next_line self.old + node_lines said.0)) }
        ensures few { IfOk result (λ next. IfSome next (λ said. length (still_to_come self.new) ≤ most_branches_above + 2)) }
        ensures closed { IfOk result (λ next. IfNone next (still_due (reverse (still_to_come self.old)) ≡ [])) }
        ensures version { stream_version self.new ≡ stream_version self.old }
        ensures err { IfErr result (IsNodeFault (LeavesNodes R.remaining self.old) (bytes_taken self.new)) }
        ensures from { (origin : Origin) → StreamIsFrom R.remaining self.old origin → StreamIsFrom R.remaining self.new origin }
    {
        let line = self.lines.number();
        match next_node(alloc, self.version, &mut self.lines, &mut self.due)? {
            Some(node) => Ok(Some((node, line))),
            None => Ok(None),
        }
    }

    /// What the next node's line says and the line's number, or none behind the last node, where the text has to end. The steps
    /// of a leaf are put into a text as they are, for `read_steps`: what is wrong with one of them comes before all that is
    /// said of later lines.
    pub fn next_piece(
        &mut self,
        alloc: Global,
        steps: &mut Vec<u8>,
    ) -> Result<Option<(Head, u64)>, SourceFault>
        // Whatever is left behind it, with what its lines say in front it was left before.
        ensures next { IfOk result (LeavesPiece R.remaining self.old self.new steps.new.items) }
        ensures line { IfOk result (λ next. IfSome next (λ said. said.1 ≡ next_line self.old)) }
        ensures low { IfOk result (λ next. IfSome next (λ said. said.1 < 2 ^ 63)) }
        ensures due { IfOk result (λ next. IfSome next (λ said. (steps : List Step) → TakesChild (still_to_come self.old) (still_to_come self.new) (node_of_head said.0 steps))) }
        ensures passed { IfOk result (λ next. IfSome next (λ said. next_line self.new ≡ next_line self.old + 1 + count_of said.0)) }
        ensures few { IfOk result (λ next. IfSome next (λ said. length (still_to_come self.new) ≤ most_branches_above + 2)) }
        ensures closed { IfOk result (λ next. IfNone next (still_due (reverse (still_to_come self.old)) ≡ [])) }
        ensures version { stream_version self.new ≡ stream_version self.old }
        ensures err { IfErr result (IsNodeFault (LeavesNodes R.remaining self.old) (bytes_taken self.new)) }
        ensures from { (origin : Origin) → StreamIsFrom R.remaining self.old origin → StreamIsFrom R.remaining self.new origin }
    {
        let line = self.lines.number();
        let Some(count) = take_due(&mut self.due) else {
            self.lines.end()?;
            return Ok(None);
        };
        let above = self.due.as_slice().len();
        let head = piece_of(alloc, self.version, above, &mut self.lines, steps)?;
        self.due.push(count - 1)?;
        self.due.push(head.children())?;
        Ok(Some((head, line)))
    }

    /// Reads on to the end, as after any other fault, and keeps nothing.
    pub fn read_on(&mut self) -> Result<(), SourceFault>
        ensures end { OnOk result (IsAtEnd (R.remaining (stream_reader self.new).now)) }
        ensures within { OnOk result (bytes_taken self.new ≤ most_text_bytes) }
        ensures err { IfErr result (Stops (bytes_taken self.new)) }
        ensures from { (origin : Origin) → StreamIsFrom R.remaining self.old origin → StreamIsFrom R.remaining self.new origin }
    {
        self.lines.read_on()
    }

    /// The reader, where it stands.
    pub fn into_reader(self) -> &'a mut R
        ensures { result ≡ stream_reader self.entry }
    {
        let lines = self.lines;
        lines.reader
    }
}
