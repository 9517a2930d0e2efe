//! Which places of a list are kept?

ghost use Rattle.std.specs.Prelude.{◌≡◌, IfOk, length, replicate, slice_set, true, false};
ghost use Rattle.ttp_model.specs.Lists.{is_set};

use std::alloc::Global;
use std::marker::Model;
use ttp_model::{MemoryFault, has_flag, put_flag};

/// A flag for each place of a list, which contracts see as the list of them.
#[derive(Drop)]
pub struct Flags {
    items: Vec<bool>,
}

impl Model for Flags {
    ghost use Rattle.std.specs.Prelude.{List, Bool};

    ghost Value = { List Bool };

    ghost view = { λ s. s.items.items };
}

impl Flags {
    /// The flags of a vector. Takes no memory.
    pub fn new(items: Vec<bool>) -> Self
        ensures { result ≡ items.items }
    {
        Flags { items }
    }

    /// So many flags, each of them set.
    pub fn all_set(alloc: Global, count: usize) -> Result<Self, MemoryFault>
        ensures { IfOk result (λ flags. flags ≡ replicate count true) }
    {
        let mut items = Vec::new(alloc);
        items.resize(count, true)?;
        Ok(Flags { items })
    }

    pub fn len(&self) -> usize
        ensures { result ≡ length self.now }
    {
        self.items.len()
    }

    /// Whether a flag is set: none is past the end.
    pub fn has(&self, place: usize) -> bool
        ensures { result ≡ is_set self.now place }
    {
        has_flag(self.items.as_slice(), place)
    }

    /// Takes a flag back; past the end there is none.
    pub fn clear(&mut self, place: usize)
        ensures { self.new ≡ slice_set self.old place false }
    {
        put_flag(self.items.as_mut_slice(), place, false);
    }

    /// The same flags in memory of their own.
    pub fn copy(&self, alloc: Global) -> Result<Self, MemoryFault>
        ensures { IfOk result (λ flags. flags ≡ self.now) }
    {
        let items = Vec::from_slice(alloc, self.items.as_slice())?;
        Ok(Flags { items })
    }
}
