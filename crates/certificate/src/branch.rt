//! What does a certificate's tree branch on?

ghost use Rattle.std.specs.Prelude.{◌≡◌};
ghost use Rattle.ttp_model.specs.Kinds.{HasOwnCount};

use ttp_model::Kind;

/// A branch of a certificate's tree: what it decides, and how many children stand below it. A kind
/// that always has so many has no other count.
#[derive(Clone, Copy, PartialEq, Eq)]
pub struct Branch {
    pub kind: Kind,
    pub children: u32,
    ghost own: { HasOwnCount kind children },
}

impl Branch {
    ghost use Rattle.certificate.specs.Branch.{branch_of};

    /// The branch of a kind, with a child for each of so many options where a node or a capacity is
    /// taken.
    pub fn new(kind: Kind, options: u32) -> Self
        ensures { result ≡ branch_of kind options }
    {
        Branch {
            kind,
            children: kind.children(options),
        }
    }
}
