//! What follows of a tree's names alone? These functions do nothing: their contracts are laws.

ghost use Rattle.std.specs.Prelude.{◌≡◌, ◌++◌, List, Contains};
ghost use Rattle.ttp_model.specs.Instance.{Instance};
ghost use Rattle.tt_choice.specs.Choice.{Choice};
ghost use Rattle.search_trees.specs.declared.piece.Piece.{Piece};
ghost use Rattle.search_trees.specs.Name.{Name};
ghost use Rattle.search_trees.specs.Pieces.{names_of, StandsAt};
ghost use Rattle.search_trees.specs.Account.{IsWholeTree};
ghost use Rattle.search_trees.specs.Once.{NoneTwice};

/// In a tree no name stands twice, of pieces or open.
pub fn names_stand_once()
    ensures { (pieces : List Piece) (unworked : List Name)
        → IsWholeTree pieces unworked → NoneTwice (names_of pieces ++ unworked) }
{}

/// In a tree just one choice stands at each name, by the branches of its pieces.
pub fn one_choice_stands()
    ensures some { (i : Instance) (pieces : List Piece) (unworked : List Name) (name : Name)
        → IsWholeTree pieces unworked → Contains (names_of pieces ++ unworked) name
        → (c : Choice) × StandsAt i pieces name c }
    ensures one { (i : Instance) (pieces : List Piece) (unworked : List Name) (name : Name) (c d : Choice)
        → IsWholeTree pieces unworked → StandsAt i pieces name c → StandsAt i pieces name d → c ≡ d }
{}
