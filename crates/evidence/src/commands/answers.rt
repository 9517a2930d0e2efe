//! What is told of a search?

ghost use Rattle.std.specs.Prelude.{◌≡◌, ◌≢◌, ℕ, Some};
ghost use Rattle.std.specs.Io.KnownBytes.{Keeps};
ghost use Rattle.command_streams.specs.Outcomes.{IsWritten};
ghost use Rattle.evidence.specs.SearchAnswers.{IsCertificate, StopsWithPlan};

use command_streams::{End, Fault, Sink};
use solve_command::{Options, solve_run};
use std::alloc::Global;
use std::io::Write;
use std::sync::Wait;
use std::thread::Threads;

/// Behind the line of a search that was stopped stands the best plan, where the line tells its delay.
pub fn best_plan_stands_behind_the_line<R: Threads + Wait + Sync, W: Write>(
    rt: &R,
    alloc: Global,
    instance: &[u8],
    options: Options,
    out: &mut W,
) -> End
    ensures { result ≡ End.Stopped
        → IsWritten (StopsWithPlan instance.now) (W.contents out.old) (W.contents out.new) }
{
    let mut instance = instance;
    let certificate: Option<&mut Vec<u8>> = None;
    solve_run(rt, alloc, &mut instance, options, certificate, out)
}

/// A search ends at no delay that was stated.
pub fn search_ends_at_no_stated_delay<R: Threads + Wait + Sync, W: Write>(
    rt: &R,
    alloc: Global,
    instance: &[u8],
    options: Options,
    out: &mut W,
) -> End
    ensures { (delay : ℕ) → result ≢ End.Refused (Fault.StatedDelay delay) }
{
    let mut instance = instance;
    let certificate: Option<&mut Vec<u8>> = None;
    solve_run(rt, alloc, &mut instance, options, certificate, out)
}

/// A least plan is told only where the certificate is written.
pub fn certificate_is_written<R: Threads + Wait + Sync, W: Write>(
    rt: &R,
    alloc: Global,
    instance: &[u8],
    options: Options,
    certificate: &mut Vec<u8>,
    out: &mut W,
) -> End
    ensures { result ≡ End.Done
        → IsWritten IsCertificate (Some certificate.old.items) (Some certificate.new.items) }
{
    let mut instance = instance;
    solve_run(rt, alloc, &mut instance, options, Some(certificate), out)
}

/// Nothing is told where the certificate isn't written.
pub fn answer_waits_for_the_certificate<R: Threads + Wait + Sync, C: Write, W: Write>(
    rt: &R,
    alloc: Global,
    instance: &[u8],
    options: Options,
    certificate: &mut C,
    out: &mut W,
) -> End
    ensures { result ≡ End.Refused (Fault.Unwritten Sink.Certificate)
        → Keeps (W.contents out.old) (W.contents out.new) }
{
    let mut instance = instance;
    solve_run(rt, alloc, &mut instance, options, Some(certificate), out)
}
