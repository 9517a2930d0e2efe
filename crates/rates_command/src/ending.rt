//! How does a command on a cluster of several rates end, and with which status?

ghost use Rattle.std.specs.Prelude.{◌≡◌};
ghost use Rattle.rates_command.specs.Endings.{rates_fault_status, rates_status_of};

use command_streams::{Fault, status_of_fault as status_of_plan};
use endless_schedules::UnrollFault;
use rates_text::RatesTextError;

/// Why such a command was refused.
#[derive(Drop)]
pub enum RatesFault {
    /// When memory was wanted, and refused.
    Memory,
    /// When the text states no cluster of several rates.
    Text(RatesTextError),
    /// When the instance of a cycle is refused.
    Unrolled(UnrollFault),
    /// When the reader failed, or a file could not be opened.
    Unread,
    /// When the reader had more bytes than its limit.
    TooLong,
    /// When a plan of the instance is refused, as `verify` refuses it, or its reader failed or had more bytes than its limit.
    OfPlan(Fault),
    /// When the writer failed, or took no byte.
    Unwritten,
}

/// How it ends.
#[derive(Drop)]
pub enum RatesEnd {
    /// It did what it is for.
    Done,
    Refused(RatesFault),
}

/// The status of a refusal.
fn status_of_fault(fault: &RatesFault) -> u8
    ensures { result ≡ rates_fault_status fault.now }
{
    match fault {
        RatesFault::Memory => 4,
        RatesFault::Text(RatesTextError::OutOfMemory) => 4,
        RatesFault::Text(_) => 3,
        RatesFault::Unrolled(UnrollFault::OutOfMemory) => 4,
        RatesFault::Unrolled(_) => 3,
        RatesFault::Unread => 6,
        RatesFault::TooLong => 6,
        RatesFault::OfPlan(fault) => status_of_plan(fault),
        RatesFault::Unwritten => 6,
    }
}

/// The program's exit status.
pub fn rates_status(end: &RatesEnd) -> u8
    ensures { result ≡ rates_status_of end.now }
{
    match end {
        RatesEnd::Done => 0,
        RatesEnd::Refused(fault) => status_of_fault(fault),
    }
}
