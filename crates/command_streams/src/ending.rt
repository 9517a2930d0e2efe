//! How a command ends, and with which status.

ghost use Rattle.std.specs.Prelude.{◌≡◌};
ghost use Rattle.command_streams.specs.Endings.{fault_status, status_of};
ghost use Rattle.command_streams.specs.declared.ending.Fault.TheVariants.{Memory};

use certificate::CertTextError;
use instance_text::TextError;
use plan_format::PlanTextError;
use std::alloc::{AllocError, AllocFailed};
use tree_check::CertFault;
use ttp_model::{MemoryFault, ModelError, PlanFault};

/// Where a command reads from.
#[derive(Clone, Copy, PartialEq, Eq)]
pub enum Source {
    Instance,
    Plan,
    Certificate,
}

/// Where it writes to.
#[derive(Clone, Copy, PartialEq, Eq)]
pub enum Sink {
    Certificate,
    /// The file of an instance beside the answer.
    Reduced,
    /// The file of the best plan so far.
    Plan,
    Out,
}

/// Which of two that are compared.
#[derive(Clone, Copy, PartialEq, Eq)]
pub enum Release {
    Old,
    New,
}

/// How many rounds a plan's cycle has, and how many there are for it.
#[derive(Clone, Copy, PartialEq, Eq)]
pub struct Rounds {
    pub needed: u64,
    pub held: u64,
}

/// Why a search has no answer.
#[derive(Clone, Copy, PartialEq, Eq)]
pub enum SearchFault {
    /// When memory was refused before there was anything to answer.
    Memory,
    /// When a thread could not be started.
    Thread,
}

/// Why a command was refused.
#[derive(Drop)]
pub enum Fault {
    /// When a bundle has no line `%%`.
    NoMark,
    /// When the loss word of this index is malformed.
    LossForm(usize),
    /// When the instance's text states none.
    InstanceText(TextError),
    /// When memory was wanted, and refused.
    Memory,
    /// When the plan's text spells none.
    PlanText(PlanTextError),
    /// When the plan is not valid.
    Plan(PlanFault),
    /// When the plan is valid, and its delay, in ticks, is this and not the stated one.
    StatedDelay(u64),
    /// When the certificate's text spells none.
    CertificateText(CertTextError),
    /// When the certificate does not prove its bound.
    Certificate(CertFault),
    /// When a search that goes on from the certificate could come too deep below the branch on this line of its text.
    DeepCertificate(u64),
    /// When there are fewer nodes than a replay needs: three.
    TooFewNodes,
    /// When the loss word of this index stands for a loss that is outside the cycle, or at a node that isn't
    /// there or is the sender, and no word before it does.
    WrongLoss(usize),
    /// When the word of this index names no process that could end early, or one that a word before it names.
    NoSuchProcess(usize),
    /// The same of a process that is to run longer.
    NoSuchRunner(usize),
    /// When a picture would show this many slots, more than it may.
    TooManySlots(u64),
    /// When what is loaded, or a trace, would tell this many slots, more than it may.
    LongSchedule(u64),
    /// When no node has the name of the one whose loads were asked for.
    NoSuchNode,
    /// When a period holds fewer rounds than the cycle has.
    ShortPeriod(Rounds),
    /// When tables of fewer rounds than the cycle has were asked for.
    ShortTables(Rounds),
    /// When tables of this many slots were asked for, more than may be.
    LongTables(u64),
    /// When the search has no answer.
    Search(SearchFault),
    /// When a reader failed, or a file could not be opened. Of a bundle also where one of its parts has more bytes than its limit.
    Unread(Source),
    /// When a reader had more bytes than its limit.
    TooLong(Source),
    /// When a writer failed, or took no byte. Of an instance beside the answer also where no text was made that reads back as it; then the
    /// answer is written all the same.
    Unwritten(Sink),
}

impl From<MemoryFault> for Fault {
    ghost from_gives = { λ _ e. e ≡ Memory };

    fn from(_fault: MemoryFault) -> Fault {
        Fault::Memory
    }
}

impl From<AllocError> for Fault {
    ghost from_gives = { λ _ e. e ≡ Memory };

    fn from(_error: AllocError) -> Fault {
        Fault::Memory
    }
}

impl<T: Drop> From<AllocFailed<T>> for Fault {
    ghost from_gives = { λ _ e. e ≡ Memory };

    fn from(_error: AllocFailed<T>) -> Fault {
        Fault::Memory
    }
}

/// How a command ends.
#[derive(Drop)]
pub enum End {
    /// It did what it is for; of a comparison, that nothing is different.
    Done,
    /// Something is different of two that are compared.
    Different,
    /// There is no plan.
    Absent,
    /// Less is known than was asked: the search was stopped by its budget or for want of memory, or a certificate's bound is
    /// below what it was held against.
    Stopped,
    Refused(Fault),
    /// One of two that are compared is refused.
    RefusedOf(Release, Fault),
}

/// The status of a refusal.
pub fn status_of_fault(fault: &Fault) -> u8
    ensures { result ≡ fault_status fault.now }
{
    match fault {
        Fault::NoMark => 2,
        Fault::LossForm(_) => 2,
        Fault::InstanceText(TextError::OutOfMemory) => 4,
        Fault::InstanceText(TextError::Model(ModelError::OutOfMemory)) => 4,
        Fault::InstanceText(_) => 3,
        Fault::Memory => 4,
        Fault::PlanText(PlanTextError::OutOfMemory) => 4,
        Fault::PlanText(PlanTextError::At { .. }) => 5,
        Fault::Plan(_) => 5,
        Fault::StatedDelay(_) => 5,
        Fault::CertificateText(CertTextError::OutOfMemory) => 4,
        Fault::CertificateText(CertTextError::At { .. }) => 5,
        Fault::Certificate(CertFault::OutOfMemory) => 4,
        Fault::Certificate(_) => 5,
        Fault::DeepCertificate(_) => 5,
        Fault::TooFewNodes => 5,
        Fault::WrongLoss(_) => 5,
        Fault::NoSuchProcess(_) => 5,
        Fault::NoSuchRunner(_) => 5,
        Fault::TooManySlots(_) => 5,
        Fault::LongSchedule(_) => 5,
        Fault::NoSuchNode => 5,
        Fault::ShortPeriod(_) => 5,
        Fault::ShortTables(_) => 5,
        Fault::LongTables(_) => 5,
        Fault::Search(SearchFault::Memory) => 4,
        Fault::Search(_) => 7,
        Fault::Unread(_) => 6,
        Fault::TooLong(_) => 6,
        Fault::Unwritten(_) => 6,
    }
}

/// The program's exit status.
pub fn status(end: &End) -> u8
    ensures { result ≡ status_of end.now }
{
    match end {
        End::Done => 0,
        End::Different => 1,
        End::Absent => 10,
        End::Stopped => 11,
        End::Refused(fault) => status_of_fault(fault),
        End::RefusedOf(_, fault) => status_of_fault(fault),
    }
}
