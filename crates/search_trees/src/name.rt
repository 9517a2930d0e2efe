//! Where in the tree does a choice stand?

ghost use Rattle.std.specs.Prelude.{◌≡◌, ◌↔◌, slice_get, IfOk, IsTrue};
ghost use Rattle.std.specs.Ordering.{nat_cmp};
ghost use Rattle.std.specs.Cmp.Lexicographic.{slice_cmp};
ghost use Rattle.search_trees.specs.Name.{root_name, child_name};

use crate::shared_list::SharedList;
use std::alloc::Global;
use std::cmp::Ordering;
use std::marker::Model;
use ttp_model::MemoryFault;

/// The way from the root to a node of the tree: which child is taken at each branch, from 0. Names share what they have in common.
#[derive(Drop)]
pub struct Name {
    indices: SharedList<u32>,
}

impl Model for Name {
    ghost use Rattle.std.specs.Prelude.{List, ℕ};

    ghost Value = { List ℕ };

    ghost view = { λ s. s.indices };
}

impl Name {
    /// The root's name. Takes no memory.
    pub fn root(alloc: Global) -> Self
        ensures { result ≡ root_name }
    {
        Name {
            indices: SharedList::new(alloc),
        }
    }

    /// The name of the child of this number.
    pub fn child(&self, alloc: Global, index: u32) -> Result<Self, MemoryFault>
        ensures { IfOk result (λ name. name ≡ child_name self.now index) }
    {
        let indices = self.indices.with(alloc, index)?;
        Ok(Name { indices })
    }

    /// The same name.
    pub fn copy(&self, alloc: Global) -> Result<Self, MemoryFault>
        ensures { IfOk result (λ name. name ≡ self.now) }
    {
        let indices = self.indices.copy(alloc)?;
        Ok(Name { indices })
    }

    /// Whether it is the root's.
    pub fn is_root(&self) -> bool
        ensures { IsTrue result ↔ (self.now ≡ root_name) }
    {
        self.indices.get(0).is_none()
    }

    /// Which child is taken at the branch that has so many above it, if it goes on there.
    pub fn get(&self, k: usize) -> Option<u32>
        ensures { result ≡ slice_get self.now k }
    {
        self.indices.get(k)
    }

    /// The children taken, one after another, in memory of their own.
    pub fn to_vec(&self, alloc: Global) -> Result<Vec<u32>, MemoryFault>
        ensures { IfOk result (λ indices. indices.items ≡ self.now) }
    {
        self.indices.to_vec(alloc)
    }

    /// Compares two names: the first child that differs decides, and a name goes before those below it.
    pub fn cmp(&self, other: &Name) -> Ordering
        ensures { result ≡ slice_cmp nat_cmp self.now other.now }
    {
        self.indices.cmp(&other.indices)
    }

    /// Compares it in the same way with a name that is given by its children.
    pub fn cmp_slice(&self, indices: &[u32]) -> Ordering
        ensures { result ≡ slice_cmp nat_cmp self.now indices.now }
    {
        self.indices.cmp_slice(indices)
    }
}
