//! Which places are still to come, and which leaf went down to them?

ghost use Rattle.std.specs.Prelude.{◌≡◌, ◌-◌, ◌<◌};

/// A leaf of a certificate: the certificate's number, and the node's in preorder.
#[derive(Clone, Copy)]
pub struct NodePlace {
    pub certificate: usize,
    pub node: usize,
}

/// Places side by side below one branch: how many are to come, and the leaf from above.
#[derive(Clone, Copy)]
pub struct Frame {
    pub due: u32,
    pub above: Option<NodePlace>,
}

impl Frame {
    /// One place fewer.
    pub fn less(self) -> Frame
        requires { 0 < self.due }
        ensures { result ≡ record { due = self.due - 1; above = self.above } }
    {
        Frame {
            due: self.due - 1,
            above: self.above,
        }
    }
}
