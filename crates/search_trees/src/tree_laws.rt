//! What holds of all trees of pieces? These functions do nothing: their contracts are laws.

ghost use Rattle.std.specs.Prelude.{◌≡◌, ◌+◌, ◌≤◌, ◌++◌, ℕ, List, [], All, Contains};
ghost use Rattle.ttp_model.specs.Instance.{Instance};
ghost use Rattle.tt_choice.specs.Choice.{Choice};
ghost use Rattle.certificate.specs.Trees.{Trees};
ghost use Rattle.certificate.specs.Cert.{Cert};
ghost use Rattle.certificate.specs.Versions.{Allows};
ghost use Rattle.tree_check.specs.Proofs.{Proves};
ghost use Rattle.search_trees.specs.declared.piece.Piece.{Piece};
ghost use Rattle.search_trees.specs.Account.{IsWholeTree};
ghost use Rattle.search_trees.specs.Pieces.{AreRight, IsRight, StandsAt, names_of};
ghost use Rattle.search_trees.specs.declared.fault.GatherFault.{GatherFault};
ghost use Rattle.search_trees.specs.declared.fault.GatherFault.TheVariants.{OutOfMemory};
ghost use Rattle.search_trees.specs.Trees.{IsTreeOf};
ghost use Rattle.search_trees.specs.Gathering.{HasTreeNames, HaveGoals, IsFirstGatherFault, IsGathered, IsLeafPiece};

/// Pieces are a tree exactly where each name stands once, the root and each child of a branch is there,
/// and no other name is; and they are one tree alone.
pub fn names_make_one_tree()
    ensures exists { (pieces : List Piece) → HasTreeNames pieces → (tree : Trees) × IsTreeOf pieces tree }
    ensures only { (pieces : List Piece) (tree : Trees) → IsTreeOf pieces tree → HasTreeNames pieces }
    ensures one { (pieces : List Piece) (a b : Trees) → IsTreeOf pieces a → IsTreeOf pieces b → a ≡ b }
{}

/// Pieces that are a whole tree with nothing open, each right for the choice that stands at its name,
/// prove each bound within the horizon and a tick that no leaf's goal is below; and there is no fault in
/// them that `gather` could tell.
pub fn whole_trees_prove()
    ensures proves { (i : Instance) (pieces : List Piece) (low : ℕ) (cert : Cert)
        → IsWholeTree pieces [] → AreRight i pieces → low ≤ i.cluster.horizon + 1
        → IsGathered low pieces cert → Proves i cert }
    ensures sound { (pieces : List Piece) (low : ℕ) (fault : GatherFault) → IsWholeTree pieces []
        → HaveGoals low pieces → IsFirstGatherFault low pieces fault → fault ≡ OutOfMemory }
{}

/// Leaves for all names that are open make a tree whole; and where each of them is right for the choice that
/// stands at its name, pieces that are right stay so among them.
pub fn leaves_close_a_tree()
    ensures whole { (pieces closed : List Piece) → IsWholeTree pieces (names_of closed)
        → All IsLeafPiece closed → IsWholeTree (pieces ++ closed) [] }
    ensures right { (i : Instance) (pieces closed : List Piece) → All IsLeafPiece closed → AreRight i pieces
        → ((piece : Piece) (c : Choice) → Contains closed piece → StandsAt i pieces piece.name c → IsRight i c piece.node)
        → AreRight i (pieces ++ closed) }
{}

/// A certificate that is gathered is in a version that allows all lines of its tree, so it has a text.
pub fn gathered_certificates_have_texts()
    ensures { (low : ℕ) (pieces : List Piece) (cert : Cert) → IsGathered low pieces cert
        → Allows cert.version cert.tree }
{}
