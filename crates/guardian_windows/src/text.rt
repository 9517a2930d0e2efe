//! How are windows written?

ghost use Rattle.std.specs.Prelude.{◌≡◌, ◌<◌, ◌++◌, All, IfOk, OnOk, length};
ghost use Rattle.ttp_model.specs.Instance.{node_at};
ghost use Rattle.guardian_windows.specs.Text.{window_line, windows_text};

use crate::window::Window;
use line_text::{push_number_word, push_word};
use std::alloc::{AllocError, Global};
use ttp_model::{Instance, MemoryFault};

/// The text of windows of nodes that are there: the line `ttguard 1`, and for each window a line
/// `window ROUND NODE FROM UNTIL`, the node by its name. Linear in the text.
pub fn print(alloc: Global, instance: &Instance, windows: &[Window]) -> Result<Vec<u8>, MemoryFault>
    requires { All (λ w. w.node < length instance.now.nodes) windows.now }
    ensures { IfOk result (λ text. text.items ≡ windows_text instance.now windows.now) }
{
    let mut text = Vec::from_slice(alloc, b"ttguard 1\n")?;
    for window in windows {
        push_line(&mut text, instance, window)?;
    }
    Ok(text)
}

/// Adds the line of a window.
fn push_line(text: &mut Vec<u8>, instance: &Instance, window: &Window) -> Result<(), AllocError>
    requires { window.now.node < length instance.now.nodes }
    ensures { OnOk result (text.new.items ≡ text.old.items ++ window_line instance.now window.now) }
{
    text.extend_from_slice(b"window")?;
    push_number_word(text, window.round as u64)?;
    push_word(text, instance.nodes()[window.node as usize].name.as_bytes())?;
    push_number_word(text, window.from)?;
    push_number_word(text, window.until)?;
    text.push(b'\n')?;
    Ok(())
}
