//! What is read of a certificate's text, and printed, and gathered of a search.

ghost use Rattle.std.specs.Prelude.{◌≡◌, IfOk};
ghost use Rattle.certificate.specs.declared.version.Version.TheVariants.{One};
ghost use Rattle.certificate.specs.Spelling.{SpellsCert, cert_text};
ghost use Rattle.certificate.specs.Trees.{IsTree};
ghost use Rattle.certificate.specs.Versions.{Allows};
ghost use Rattle.search_trees.specs.Gathering.{AreShallow, HaveGoals};
ghost use Rattle.search_trees.specs.Trees.{IsTreeOf};
ghost use Rattle.evidence.specs.Channels.{SpeaksOfNoChannel};

use branch_tree::Piece;
use certificate::{Cert, CertTextError, print, read};
use planner::{GatherFault, gather};
use std::alloc::Global;
use ttp_model::MemoryFault;

/// The whole text spells what is read of it: no byte stands behind the last line, and each line is where it belongs.
pub fn text_spells_what_is_read(alloc: Global, text: &[u8]) -> Result<Cert, CertTextError>
    ensures { IfOk result (SpellsCert text.now) }
{
    read(alloc, text)
}

/// The text is that of one tree whose branches have all their children, few enough of them one below another.
pub fn what_is_read_is_a_whole_tree(alloc: Global, text: &[u8]) -> Result<Cert, CertTextError>
    ensures { IfOk result (λ cert. IsTree cert.tree × (text.now ≡ cert_text cert)) }
{
    read(alloc, text)
}

/// No line of a text of version 1 speaks of channels.
pub fn first_version_is_read_without_channels(
    alloc: Global,
    text: &[u8],
) -> Result<Cert, CertTextError>
    ensures { IfOk result (λ cert. cert.version ≡ One → SpeaksOfNoChannel cert.tree) }
{
    read(alloc, text)
}

/// What is printed spells the certificate, the numbers of each step in their order.
pub fn printed_text_spells_it(alloc: Global, cert: &Cert) -> Result<Vec<u8>, MemoryFault>
    requires { Allows cert.now.version cert.now.tree }
    ensures { IfOk result (λ text. SpellsCert text.items cert.now) }
{
    print(alloc, cert)
}

/// A certificate that is gathered has each piece, and all children of each branch.
pub fn gathered_tree_is_that_of_the_pieces(
    alloc: Global,
    pieces: Vec<Piece>,
    low: u32,
) -> Result<Cert, GatherFault>
    requires { AreShallow pieces.items }
    ensures { IfOk result (λ cert. IsTreeOf pieces.items cert.tree) }
{
    gather(alloc, pieces, low)
}

/// It is of version 1 only where none of its lines speaks of channels.
pub fn gathered_first_version_has_no_channels(
    alloc: Global,
    pieces: Vec<Piece>,
    low: u32,
) -> Result<Cert, GatherFault>
    requires { AreShallow pieces.items }
    ensures { IfOk result (λ cert. cert.version ≡ One → SpeaksOfNoChannel cert.tree) }
{
    gather(alloc, pieces, low)
}

/// None of its leaves has a goal below the bound.
pub fn gathered_goals_reach_the_bound(
    alloc: Global,
    pieces: Vec<Piece>,
    low: u32,
) -> Result<Cert, GatherFault>
    requires { AreShallow pieces.items }
    ensures { IfOk result (λ cert. HaveGoals low pieces.items) }
{
    gather(alloc, pieces, low)
}
