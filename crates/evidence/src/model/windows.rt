//! Which times a guardian's window permits.

ghost use Rattle.std.specs.Prelude.{◌≡◌, false};

use guardian_windows::Window;

/// A window does not permit the tick at which it is over.
pub fn permits_its_end(window: &Window) -> bool
    ensures { result ≡ false }
{
    window.permits(window.until)
}
