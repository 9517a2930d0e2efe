//! Which certificate does a text spell, or what is its first fault?

ghost use Rattle.std.specs.Prelude.{◌≡◌, ◌≢◌, ◌+◌, ◌∷◌, [], IfErr, IfOk};
ghost use Rattle.certificate.specs.Spelling.{SpellsCert};
ghost use Rattle.certificate.specs.Cert.{Cert};
ghost use Rattle.certificate.specs.Reading.{IsAnswerIn, HasLow, Reads};
ghost use Rattle.certificate.specs.Sources.{OrMemory};
ghost use Rattle.certificate.specs.Opened.{Gives, IsRestFault, IsTextFault};

use crate::cert::Cert;
use crate::fault::{CertTextError, SourceFault};
use crate::low::low_from;
use crate::node::Node;
use crate::nodes::next_node;
use crate::slice_lines::SliceLines;
use crate::source::LineSource;
use crate::version::Version;
use std::alloc::Global;

/// All nodes of a tree, from the next line on.
fn nodes_of<L: LineSource>(
    alloc: Global,
    version: Version,
    source: &mut L,
) -> Result<Vec<Node>, SourceFault>
    ensures nodes { IfOk result (λ nodes. Gives version (L.may_leave source.old) (1 ∷ []) (L.passed source.old + 1) (Ok nodes.items)) }
    ensures err { IfErr result (IsRestFault version (OrMemory (L.may_stop source.new)) (L.may_leave source.old) (1 ∷ []) (L.passed source.old + 1)) }
{
    let mut due = Vec::new(alloc);
    due.push(1u32)?;
    let mut nodes = Vec::new(alloc);
    'nodes: loop {
        let _line = source.number();
        match next_node(alloc, version, source, &mut due)? {
            Some(node) => nodes.push(node)?,
            None => return Ok(nodes),
        }
    }
}

/// What the lines of a text give, the first fault first.
fn cert_of(alloc: Global, text: &[u8]) -> Result<Cert, SourceFault>
    ensures cert { IfOk result (λ cert. Reads text.now (Ok cert)) }
    ensures fault { IfErr result (IsTextFault text.now) }
{
    let mut source = SliceLines::new(text);
    let (version, low) = low_from(&mut source)?;
    let nodes = nodes_of(alloc, version, &mut source)?;
    Ok(Cert::new(version, low, nodes))
}

/// The certificate that a text spells. Lines are judged from the top, each as `LineFault` says. The
/// text may have any length, and the cost is linear in it; memory is taken for lines that were read.
pub fn read(alloc: Global, text: &[u8]) -> Result<Cert, CertTextError>
    // The certificate, or the first fault with its line. Want of memory comes only behind two first lines that are
    // right.
    ensures exact { IsAnswerIn (HasLow text.now) (λ x. x) result (Reads text.now) }
    // What is read has a text, and this is it.
    ensures found { IfOk result (λ cert. SpellsCert text.now cert) }
    // A text that spells a certificate is read as that certificate, unless memory is refused.
    ensures only { (cert : Cert) → SpellsCert text.now cert →
        result ≢ Err CertTextError.OutOfMemory → result ≡ Ok cert }
{
    match cert_of(alloc, text) {
        Ok(cert) => Ok(cert),
        Err(SourceFault::Text(fault)) => Err(fault),
        Err(SourceFault::Read) => unreachable!(),
        Err(SourceFault::TooLong) => unreachable!(),
    }
}
