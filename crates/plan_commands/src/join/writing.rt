//! How are the joined certificate and its bound written?

ghost use Rattle.std.specs.Prelude.{◌≡◌, IfOk, string_bytes};
ghost use Rattle.certificate.specs.Versions.{Allows};
ghost use Rattle.plan_commands.specs.Joins.{IsTelling, bound_line};

use certificate::{Cert, print};
use command_streams::{End, Fault, Sink, end_with, write_text};
use std::alloc::{AllocError, Global};
use std::io::Write;
use ttp_model::MemoryFault;

/// The line of a bound, in ticks.
fn bound_line(alloc: Global, low: u32) -> Result<String, AllocError>
    ensures { IfOk result (λ line. string_bytes line ≡ bound_line low) }
{
    format!(in alloc; "bound {low}\n")
}

/// Writes a certificate's text, and then its bound.
pub fn tell<S: Write, W: Write>(alloc: Global, cert: &Cert, joined: &mut S, out: &mut W) -> End
    requires { Allows cert.now.version cert.now.tree }
    ensures { IsTelling cert.now (S.contents joined.old) (S.contents joined.new) (W.contents out.old) (W.contents out.new) result }
{
    let Ok(text) = print(alloc, cert) else {
        return End::Refused(Fault::Memory);
    };
    let Ok(line) = bound_line(alloc, cert.low()) else {
        return End::Refused(Fault::Memory);
    };
    if write_text(joined, text.as_slice()).is_err() {
        return End::Refused(Fault::Unwritten(Sink::Certificate));
    }
    end_with(out, line.as_bytes())
}
