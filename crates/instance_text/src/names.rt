//! Which node or process a name names.

ghost use Rattle.std.specs.Prelude.{◌≡◌, IfOk, IfErr, map};
ghost use Rattle.instance_text.specs.Index.{cut_index_in, index_by};
ghost use Rattle.instance_text.specs.declared.error.TextError.TheVariants.{OutOfMemory};

use crate::error::TextError;
use indexmap::IndexMap;
use std::alloc::Global;
use ttp_model::{Node, Process};

/// What has a name.
pub trait Named {
    ghost use Rattle.std.specs.Prelude.{List, ℕ};

    ghost name_of: { Self → List ℕ };

    fn name(&self) -> &str
        ensures { result.now ≡ name_of self.now };
}

impl Named for Node {
    ghost name_of = { λ n. n.name };

    fn name(&self) -> &str {
        self.name.as_str()
    }
}

impl Named for Process {
    ghost name_of = { λ p. p.name };

    fn name(&self) -> &str {
        self.name.as_str()
    }
}

/// The names of a list, each with the index of the first of that name.
#[derive(Drop)]
pub struct Names<'a> {
    first: IndexMap<&'a str, usize>,
}

impl<'a> Names<'a> {
    /// The names of these. Takes time in proportion to their bytes.
    pub fn of<T: Named>(alloc: Global, items: &'a [T]) -> Result<Names<'a>, TextError>
        ensures ok { IfOk result (λ names. index_by names ≡ cut_index_in (map T.name_of items.now)) }
        ensures err { IfErr result (λ e. e ≡ OutOfMemory) }
    {
        let mut first = IndexMap::new(alloc);
        // From the last to the first, so that the first of a name stays.
        for index in (0..items.len()).rev() {
            first.insert(items[index].name(), index)?;
        }
        Ok(Names { first })
    }

    /// The index of the first of this name.
    pub fn index_of(&self, name: &str) -> Option<u32>
        ensures { result ≡ index_by self.now name.now }
    {
        let index = *self.first.get(name)?;
        Some(u32::try_from(index).unwrap_or(u32::MAX))
    }
}
