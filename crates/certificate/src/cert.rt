//! What is a certificate?

ghost use Rattle.std.specs.Prelude.{◌≡◌};

use crate::node::Node;
use crate::version::Version;
use std::marker::Model;

/// The version of its text, a bound, and a tree that is to show that no plan has a delay below it. Contracts see the tree;
/// its nodes stand in one list, each in front of those below it, so nothing here goes down the tree
/// by calls.
#[derive(Drop)]
pub struct Cert {
    version: Version,
    low: u32,
    nodes: Vec<Node>,
}

impl Model for Cert {
    ghost use Rattle.certificate.specs.Cert.{Cert, certificate_code};

    ghost Value = { Cert };

    ghost coded = { certificate_code };

    ghost use Rattle.certificate.specs.Trees.{IsTree, trees_of};

    ghost view = { λ s. record { version = s.version; low = s.low; tree = trees_of s.nodes.items } };

    ghost invariant = { λ s. IsTree (trees_of s.nodes.items) };
}

impl Cert {
    ghost use Rattle.certificate.specs.Trees.{IsTree, trees_of, preorder};

    /// The certificate of a tree, whose nodes are given each in front of those below it. Takes no
    /// memory.
    pub fn new(version: Version, low: u32, nodes: Vec<Node>) -> Self
        requires { IsTree (trees_of nodes.items) }
        ensures { result ≡ record { version = version; low = low; tree = trees_of nodes.items } }
    {
        Cert {
            version,
            low,
            nodes,
        }
    }

    /// The same bound and tree, in a text of this version.
    pub fn with_version(self, version: Version) -> Self
        ensures { result ≡ record { version = version; low = self.low; tree = self.tree } }
    {
        Cert {
            version,
            low: self.low,
            nodes: self.nodes,
        }
    }

    /// The same tree for another bound, in ticks.
    pub fn with_low(self, low: u32) -> Self
        ensures { result ≡ record { version = self.version; low = low; tree = self.tree } }
    {
        Cert {
            version: self.version,
            low,
            nodes: self.nodes,
        }
    }

    /// The version of its text.
    pub fn version(&self) -> Version
        ensures { result ≡ self.now.version }
    {
        self.version
    }

    /// The bound, in ticks.
    pub fn low(&self) -> u32
        ensures { result ≡ self.now.low }
    {
        self.low
    }

    /// The nodes of the tree, each in front of those below it.
    pub fn nodes(&self) -> &[Node]
        ensures nodes { result.now ≡ preorder self.now.tree }
        ensures tree { IsTree self.now.tree }
    {
        self.nodes.as_slice()
    }
}
