//! What does a joined tree prove? These functions do nothing: their contracts are laws.

ghost use Rattle.std.specs.Prelude.{◌≡◌, ◌==◌, ◌+◌, ◌<◌, ◌≤◌, ◌⊎◌, ℕ, List, Option, length, if◌then◌else◌};
ghost use Rattle.ttp_model.specs.declared.step.Leaf.{Leaf};
ghost use Rattle.ttp_model.specs.Instance.{Instance};
ghost use Rattle.tt_choice.specs.Choice.{Choice};
ghost use Rattle.certificate.specs.Cert.{Cert};
ghost use Rattle.certificate.specs.declared.node.Node.TheVariants as node;
ghost use Rattle.certificate.specs.Trees.{IsTree, Trees, grow, none, preorder};
ghost use Rattle.tree_check.specs.declared.fault.NodeFault.{NodeFault};
ghost use Rattle.tree_check.specs.Proofs.{AreProofs, Proves};
ghost use Rattle.side_by_side.specs.declared.fault.JoinFault.TheVariants.{At};
ghost use Rattle.side_by_side.specs.Faults.{IsJoinFault};
ghost use Rattle.side_by_side.specs.Joined.{IsJoined, IsJoinedTree, certificate_at, own_trees};
ghost use Rattle.side_by_side.specs.Bounds.{IsGreatestBound, IsRight, lowest};
ghost use Rattle.side_by_side.specs.Parts.{AreParts, HasLeaf, SomeReaches, Turn, reached, trees_at};

/// Trees that are right for choices, of which each certificate has some or none, have joined trees that are right for them, below any
/// leaf from above.
pub fn joined_trees_are_right()
    ensures choices { (i : Instance) (certs : List Cert) (cs : List Choice) (above : Option Leaf) (at : ℕ → Trees) (tree : Trees)
        → ((k : ℕ) → k < length certs → (at k ≡ none) ⊎ AreProofs i 0 cs (at k))
        → IsJoined i certs cs above at tree → AreProofs i 0 cs tree }
    ensures whole { (i : Instance) (certs : List Cert) (tree : Trees)
        → ((k : ℕ) → k < length certs → IsRight i (own_trees certs k))
        → IsJoinedTree i certs tree → IsRight i tree }
{}

/// Where each certificate proves the bound that it states, the joined tree proves the greatest of them.
pub fn joined_bounds_are_the_greatest()
    ensures { (i : Instance) (certs : List Cert) (tree : Trees) (low : ℕ)
        → ((k : ℕ) → k < length certs → Proves i (certificate_at certs k))
        → IsJoinedTree i certs tree → IsGreatestBound i tree low
        → (k : ℕ) → k < length certs → (certificate_at certs k).low ≤ low }
{}

/// A certificate of which something is told to be wrong isn't right: so certificates that are right are joined, unless memory is refused.
pub fn what_is_told_is_wrong()
    ensures { (i : Instance) (certs : List Cert) (k line : ℕ) (fault : NodeFault)
        → IsJoinFault i certs (At k line fault) → ¬ IsRight i (own_trees certs k) }
{}

/// The greatest bound that a tree which is right proves, at most one past the horizon, is the least of its leaves' goals.
pub fn least_goals_are_the_bounds()
    ensures { (i : Instance) (tree : Trees) → IsRight i tree → IsGreatestBound i tree (lowest (i.cluster.horizon + 1) (preorder tree)) }
{}

/// The joined tree of certificates, where it is right, is one tree in which no node stands below more branches than may be.
pub fn joined_trees_are_trees()
    ensures { (i : Instance) (certs : List Cert) (tree : Trees) → 0 < length certs
        → ((k : ℕ) → k < length certs → IsTree (own_trees certs k))
        → IsRight i tree → IsJoinedTree i certs tree → IsTree tree }
{}

/// Where certificates that are right are parts of the work on a first tree, the joined one reaches at each leaf of the first at least what
/// each of them reaches there. So its bound is at least the least of what some part reaches at each of these leaves: a part that is
/// missing costs its own work alone.
pub fn each_part_counts_at_its_leaf()
    ensures leaves { (i : Instance) (certs : List Cert) (first tree : Trees) (way : List Turn) (k most : ℕ)
        → IsRight i first → ((j : ℕ) → j < length certs → IsRight i (own_trees certs j))
        → AreParts (length certs) first (own_trees certs) → IsJoinedTree i certs tree
        → HasLeaf (trees_at way first) → k < length certs
        → reached most (trees_at way (own_trees certs k)) ≤ reached most (trees_at way tree) }
    ensures bound { (i : Instance) (certs : List Cert) (first tree : Trees) (least low : ℕ)
        → IsRight i first → ((j : ℕ) → j < length certs → IsRight i (own_trees certs j))
        → AreParts (length certs) first (own_trees certs) → IsJoinedTree i certs tree → IsGreatestBound i tree low
        → least ≤ i.cluster.horizon + 1 → SomeReaches least (i.cluster.horizon + 1) (length certs) first (own_trees certs)
        → least ≤ low }
{}

/// Trees that are all the same one are parts of the work on it; and of the work on a leaf any tree is a part, beside others that are
/// that leaf.
pub fn there_are_parts()
    ensures same { (count : ℕ) (tree : Trees) → AreParts count tree (λ _. tree) }
    ensures leaf { (count one : ℕ) (leaf : Leaf) (tree : Trees)
        → AreParts count (grow (node.Leaf leaf) none none) (λ k. if k == one then tree else grow (node.Leaf leaf) none none) }
{}
