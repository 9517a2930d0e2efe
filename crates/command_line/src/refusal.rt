//! How are words refused, and with which status?

ghost use Rattle.std.specs.Prelude.{◌≡◌, ◌≢◌};
ghost use Rattle.clap.specs.Values.{kind_of};
ghost use Rattle.clap.specs.declared.error.kind.ErrorKind.TheVariants.{OutOfMemory};

use clap::Error;
use clap::error::ErrorKind;
use command_streams::{End, Fault, report, status};
use std::io::Write;

/// Writes why words are refused, or the help that they ask for, in `clap`'s own text, and gives the status. Want of
/// memory is told by the line that each command tells it by.
pub fn refuse<W: Write>(error: &Error, out: &mut W) -> u8
    ensures memory { kind_of error.now ≡ OutOfMemory → result ≡ 4 }
    ensures usage { kind_of error.now ≢ OutOfMemory → result ≡ 2 }
{
    if error.kind() == ErrorKind::OutOfMemory {
        let end = End::Refused(Fault::Memory);
        let _ = report(&end, out);
        return status(&end);
    }
    let _ = write!(out, "{error}");
    2
}
