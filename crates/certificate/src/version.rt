//! Which lines may a certificate have?

ghost use Rattle.std.specs.Prelude.{◌≡◌};
ghost use Rattle.std.specs.List.{list_all};
ghost use Rattle.certificate.specs.Numbers.{row_of};
ghost use Rattle.certificate.specs.Versions.{version_line, version_of, answer_version, allows_channels, allows_row, allows_kind, allows_head, allows_step, allows_node, version_of_nodes};

use crate::head::{Head, branch_line};
use crate::node::Node;
use tt_infer::{Line, line_of};
use ttp_model::{Instance, Kind, Step};

/// The version of a certificate's text, which its first line names. The second has all lines of the first, and those
/// that speak of channels.
#[derive(Clone, Copy, PartialEq, Eq)]
pub enum Version {
    /// Of texts that begin with `ttcert 1`.
    One,
    /// Of texts that begin with `ttcert 2`.
    Two,
}

impl Version {
    /// The version that a first line names, if it names one.
    pub(crate) fn of_line(line: &[u8]) -> Option<Version>
        ensures { result ≡ version_of line.now }
    {
        if line == b"ttcert 1".as_slice() {
            return Some(Version::One);
        }
        if line == b"ttcert 2".as_slice() {
            return Some(Version::Two);
        }
        None
    }

    /// The first line of its texts.
    pub(crate) fn line(self) -> &'static [u8]
        ensures { result.now ≡ version_line self }
    {
        match self {
            Version::One => b"ttcert 1",
            Version::Two => b"ttcert 2",
        }
    }

    /// Whether the lines that speak of channels may stand in its texts.
    fn allows_channels(self) -> bool
        ensures { result ≡ allows_channels self }
    {
        match self {
            Version::One => false,
            Version::Two => true,
        }
    }

    /// Whether this line may stand in its texts.
    fn allows_line(self, line: Line<'_>) -> bool
        ensures { result ≡ allows_row self (row_of line.entry) }
    {
        !line.speaks_of_channels || self.allows_channels()
    }

    /// Whether the line of a branch of this kind may.
    fn allows_kind(self, kind: Kind) -> bool
        ensures { result ≡ allows_kind self kind }
    {
        self.allows_line(branch_line(kind, 0))
    }

    /// Whether this line of a node may stand in its texts.
    pub(crate) fn allows_head(self, head: Head) -> bool
        ensures { result ≡ allows_head self head }
    {
        match head {
            Head::OfBranch(branch) => self.allows_kind(branch.kind),
            Head::OfLeaf(_, _) => true,
        }
    }

    /// Whether a step's line may stand in its texts.
    pub(crate) fn allows_step(self, step: &Step) -> bool
        ensures { result ≡ allows_step self step.now }
    {
        self.allows_line(line_of(step))
    }

    /// Whether the lines of these steps may stand in its texts.
    fn allows_steps(self, steps: &[Step]) -> bool
        ensures { result ≡ list_all (allows_step self) steps.now }
    {
        steps.iter().all(|step| self.allows_step(step))
    }

    /// Whether a node's line and those of its steps may stand in its texts.
    fn allows_node(self, node: &Node) -> bool
        ensures { result ≡ allows_node self node.now }
    {
        match node {
            Node::Branch(branch) => self.allows_head(Head::OfBranch(*branch)),
            Node::Leaf(leaf) => self.allows_steps(leaf.steps.as_slice()),
        }
    }

    /// Whether all lines of these nodes may stand in its texts.
    fn allows_nodes(self, nodes: &[Node]) -> bool
        ensures { result ≡ list_all (allows_node self) nodes.now }
    {
        nodes.iter().all(|node| self.allows_node(node))
    }

    /// That of the certificates that answer for an instance: the first with one channel, and the second with two, also where no line
    /// needs it.
    pub fn of_answers(instance: &Instance) -> Version
        ensures { result ≡ answer_version instance.now }
    {
        if instance.cluster().channels == 1 {
            Version::One
        } else {
            Version::Two
        }
    }

    /// The first version where it allows all lines of these nodes, and else the second.
    pub fn of_nodes(nodes: &[Node]) -> Version
        ensures { result ≡ version_of_nodes nodes.now }
    {
        if Version::One.allows_nodes(nodes) {
            Version::One
        } else {
            Version::Two
        }
    }
}
