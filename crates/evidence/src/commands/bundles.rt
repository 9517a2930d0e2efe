//! What is told of an instance and a plan in one stream?

ghost use Rattle.std.specs.Prelude.{◌≡◌};
ghost use Rattle.evidence.specs.Bundles.{IsSplitAtLine, LacksLine};

use command_streams::{End, Fault, Source};
use plan_commands::verify_bundle;
use std::alloc::Global;
use std::io::{Read, Write};

/// What parts a bundle that is verified is a line of its own.
pub fn mark_is_a_line<W: Write>(alloc: Global, bundle: &[u8], out: &mut W) -> End
    ensures { result ≡ End.Done → IsSplitAtLine bundle.now }
{
    let mut bundle = bundle;
    verify_bundle(alloc, &mut bundle, out)
}

/// The instance of a bundle is told as unread only where that line was not taken of the reader.
pub fn instance_is_unread_only_before_the_mark<R: Read, W: Write>(
    alloc: Global,
    input: &mut R,
    out: &mut W,
) -> End
    ensures { result ≡ End.Refused (Fault.Unread Source.Instance)
        → LacksLine (R.remaining input.old) (R.remaining input.new) }
{
    verify_bundle(alloc, input, out)
}
