//! What holds of all certificate texts?

ghost use Rattle.std.specs.Prelude.{◌≡◌, ℕ, List};
ghost use Rattle.certificate.specs.declared.version.Version.TheVariants.{One, Two};
ghost use Rattle.certificate.specs.declared.node.Node.{Node};
ghost use Rattle.certificate.specs.Cert.{Cert};
ghost use Rattle.certificate.specs.Trees.{Trees, AreTrees, preorder, trees_of};
ghost use Rattle.certificate.specs.Spelling.{CertHasText, cert_text};
ghost use Rattle.certificate.specs.Versions.{Allows, version_of_tree};
ghost use Rattle.certificate.specs.Reading.{Reading, Reads};

/// No spelling of one certificate is the spelling of another.
pub fn spelling_is_of_one_certificate()
    ensures { (c d : Cert) → CertHasText c → CertHasText d → cert_text c ≡ cert_text d → c ≡ d }
{}

/// Reading a text gives one answer: one certificate, or one first fault with its line.
pub fn reading_gives_one_answer()
    ensures { (text : List ℕ) (a b : Reading Cert) → Reads text a → Reads text b → a ≡ b }
{}

/// Trees are the trees of their nodes in preorder, and a list of nodes is that of its trees.
pub fn nodes_in_preorder_are_the_trees()
    ensures trees { (k : ℕ) (trees : Trees) → AreTrees k trees →
        trees_of (preorder trees) ≡ trees }
    ensures nodes { (nodes : List Node) → preorder (trees_of nodes) ≡ nodes }
{}

/// The second version allows all lines. The version of a tree allows all of its lines, and is the first wherever that one does.
pub fn versions_allow_their_trees()
    ensures second { (trees : Trees) → Allows Two trees }
    ensures allowed { (trees : Trees) → Allows (version_of_tree trees) trees }
    ensures first { (trees : Trees) → Allows One trees → version_of_tree trees ≡ One }
{}
