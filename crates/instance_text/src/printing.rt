//! Which text states an instance?

ghost use Rattle.std.specs.Prelude.{◌≡◌, Ok, IfOk, IsTrue};
ghost use Rattle.instance_text.specs.Faults.{States};

use crate::same::is_same;
use crate::text::read;
use crate::written_tables::{push_cluster, push_links, push_messages, push_nodes, push_processes};
use std::alloc::{AllocError, Global};
use ttp_model::Instance;

/// Why no text of an instance is handed out.
#[derive(Clone, Copy, PartialEq, Eq)]
pub enum PrintFault {
    /// Memory was refused as the text was made.
    Memory,
    /// The text that was made doesn't read back as the instance, or memory was refused as it was read.
    Unread,
}

/// The tables of an instance, in the order of its lists.
fn tables_of(alloc: Global, instance: &Instance) -> Result<Vec<u8>, AllocError> {
    let mut text = Vec::new(alloc);
    push_cluster(&mut text, instance.cluster())?;
    push_nodes(&mut text, instance.nodes())?;
    push_processes(&mut text, instance)?;
    push_links(&mut text, instance)?;
    push_messages(&mut text, instance)?;
    Ok(text)
}

/// Whether a text states this instance, as far as there is memory to read it.
fn states(alloc: Global, text: &[u8], instance: &Instance) -> bool
    ensures { IsTrue result → States text.now (Ok instance.now) }
{
    match read(alloc, text) {
        Ok(stated) => is_same(&stated, instance),
        Err(_) => false,
    }
}

/// A text that states the instance: it is read again before it is handed out, and another text never is. Takes time in
/// proportion to the text, as `read` does.
pub fn print(alloc: Global, instance: &Instance) -> Result<Vec<u8>, PrintFault>
    ensures { IfOk result (λ text. States text.items (Ok instance.now)) }
{
    let Ok(text) = tables_of(alloc, instance) else {
        return Err(PrintFault::Memory);
    };
    if states(alloc, text.as_slice(), instance) {
        Ok(text)
    } else {
        Err(PrintFault::Unread)
    }
}
