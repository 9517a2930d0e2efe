//! Which text of an instance is written to a file?

ghost use Rattle.std.specs.Prelude.{IfOk};
ghost use Rattle.command_streams.specs.Writing.{IsTextOf};

use crate::limits::INSTANCE_LIMIT;
use instance_text::{PrintFault, print};
use std::alloc::Global;
use ttp_model::{Instance, MemoryFault};

/// A text of the instance that commands read as one; none where the text that was made doesn't read back, or is longer than they read.
pub fn instance_text(alloc: Global, instance: &Instance) -> Result<Option<Vec<u8>>, MemoryFault>
    ensures { IfOk result (IsTextOf instance.now) }
{
    let text = match print(alloc, instance) {
        Ok(text) => text,
        Err(PrintFault::Unread) => return Ok(None),
        Err(PrintFault::Memory) => return Err(MemoryFault),
    };
    if text.len() <= INSTANCE_LIMIT {
        Ok(Some(text))
    } else {
        Ok(None)
    }
}
