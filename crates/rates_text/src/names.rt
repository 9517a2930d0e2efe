//! Which node or process a name names.

ghost use Rattle.std.specs.Prelude.{◌≡◌, IfOk, IfErr, map};
ghost use Rattle.rates_text.specs.Index.{index_by};
ghost use Rattle.rates_text.specs.Kinds.{index_in};
ghost use Rattle.rates_text.specs.declared.error.RatesTextError.TheVariants.{OutOfMemory};

use crate::error::RatesTextError;
use indexmap::IndexMap;
use rates_model::{RatesNode, RatesProcess};
use std::alloc::Global;

/// What has a name.
pub trait Named {
    ghost use Rattle.std.specs.Prelude.{List, ℕ};

    ghost name_of: { Self → List ℕ };

    fn name(&self) -> &str
        ensures { result.now ≡ name_of self.now };
}

impl Named for RatesNode {
    ghost name_of = { λ n. n.name };

    fn name(&self) -> &str {
        self.name.as_str()
    }
}

impl Named for RatesProcess {
    ghost name_of = { λ p. p.name };

    fn name(&self) -> &str {
        self.name.as_str()
    }
}

/// The names of a list, each with the index of the first of that name.
#[derive(Drop)]
pub struct RatesNames<'a> {
    first: IndexMap<&'a str, usize>,
}

impl<'a> RatesNames<'a> {
    /// The names of these. Takes time in proportion to their bytes.
    pub fn of<T: Named>(alloc: Global, items: &'a [T]) -> Result<RatesNames<'a>, RatesTextError>
        ensures ok { IfOk result (λ names. index_by names ≡ index_in (map T.name_of items.now)) }
        ensures err { IfErr result (λ e. e ≡ OutOfMemory) }
    {
        let mut first = IndexMap::new(alloc);
        // From the last to the first, so that the first of a name stays.
        for index in (0..items.len()).rev() {
            first.insert(items[index].name(), index)?;
        }
        Ok(RatesNames { first })
    }

    /// The index of the first of this name.
    pub fn index_of(&self, name: &str) -> Option<u32>
        ensures { result ≡ index_by self.now name.now }
    {
        let index = *self.first.get(name)?;
        Some(u32::try_from(index).unwrap_or(u32::MAX))
    }
}
