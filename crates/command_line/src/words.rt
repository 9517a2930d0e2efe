//! What may the words of the command line ask for?

use plan_sheets::Table;
use plan_sheets::pictures::Shown;
use schedule_exports::Export;
use std::io;
use std::rt::Env;

/// In which form an answer is written.
#[derive(Clone, Copy)]
pub enum AnswerForm {
    Text,
    /// As one JSON object.
    Json,
}

/// What to do with an instance and a plan.
#[derive(Drop)]
pub enum Task<'a> {
    /// Verify the plan for the instance.
    Verify(AnswerForm),
    /// Write its node tables and guardian windows.
    Tables,
    /// Replay its cycle, in which the frames that these words name are lost.
    Replay(Vec<&'a str>),
    /// Write one of its tables.
    Schedule(Table),
    /// Write what nodes are loaded with, or the cycle as a trace.
    Export(Export<'a>),
    /// Write a picture of its cycle, so many pixels wide, 200 to 10,000.
    Draw { width: u32, shown: Shown },
}

/// What to tell of the rounds of a plan's cycle.
#[derive(Clone, Copy)]
pub enum RoundsTask {
    /// How they lie in a period of so many ticks, 1 to 1,000,000.
    Period(u64),
    /// The node tables and guardian windows of so many.
    Tables(u32),
}

/// What is to be explained.
#[derive(Clone, Copy)]
pub enum Explained<'a> {
    /// The instance alone.
    Instance,
    /// The plan of this file.
    Plan(&'a str),
    /// The certificate of this file.
    Certificate(&'a str),
}

/// How much the searches of a command may take.
#[derive(Clone, Copy)]
pub struct Effort {
    /// How many workers search, 1 to 16.
    pub workers: u32,
    /// How many subtrees each search has at most.
    pub budget: u64,
    /// They end so many seconds after the start.
    pub seconds: Option<u64>,
    /// Whether it is to be said how far they are.
    pub progress: bool,
}

/// A part of the leaves of a certificate that are open.
#[derive(Clone, Copy)]
pub struct Part {
    /// Of the leaves, numbered from 0, those with this number modulo the count.
    pub number: u32,
    /// How many parts there are, 1 to 1,000,000.
    pub count: u32,
}

/// From which certificate a search goes on.
#[derive(Clone, Copy)]
pub struct Continued<'a> {
    pub certificate: &'a str,
    /// Which of its open leaves are worked; all where there is none.
    pub part: Option<Part>,
}

/// How an instance is to be searched.
#[derive(Clone, Copy)]
pub struct Search<'a> {
    pub instance: &'a str,
    /// Where the plan stands with which it begins.
    pub start: Option<&'a str>,
    /// From where it goes on, if it doesn't begin anew.
    pub from: Option<Continued<'a>>,
    /// Whether one thread works the subtree with the fewest branches above it, and no worker.
    pub is_wide: bool,
    /// Where the certificate is written.
    pub certificate: Option<&'a str>,
    /// Where the best plan so far is kept.
    pub kept: Option<&'a str>,
    pub effort: Effort,
    /// It ends once a plan of at most so many ticks is known.
    pub until: Option<u32>,
    /// By how many ticks a plan may be longer than the least is known to be, so that it is good enough.
    pub gap: u32,
}

/// What several searches of an instance are to answer.
#[derive(Clone, Copy)]
pub struct Question<'a> {
    /// The file of the instance, or of a cluster of several rates.
    pub instance: &'a str,
    /// Where the certificate is written.
    pub certificate: Option<&'a str>,
    /// Where the instance that the certificate is for is written.
    pub reduced: Option<&'a str>,
    pub effort: Effort,
    pub form: AnswerForm,
}

/// How it is to be found out why an instance has no plan.
#[derive(Clone, Copy)]
pub struct Why<'a> {
    pub question: Question<'a>,
    /// Whether it is to be told how late all would have to be.
    pub late: bool,
}

/// How early processes of an instance are to end.
#[derive(Drop)]
pub struct Limit<'a> {
    pub question: Question<'a>,
    /// The names of these processes, in the order of the words.
    pub processes: Vec<&'a str>,
}

/// By how much longer processes of an instance may run.
#[derive(Drop)]
pub struct Margin<'a> {
    pub question: Question<'a>,
    /// The names of these processes, in the order of the words; all where there are none.
    pub processes: Vec<&'a str>,
    /// Whether it is counted in thousandths of execution times, and not in ticks.
    pub thousandths: bool,
    /// By which tick all has to end, 1 to 1,000,000.
    pub within: u32,
}

/// How old what a chain of a cluster of several rates carries has to be.
#[derive(Clone, Copy)]
pub struct Age<'a> {
    pub question: Question<'a>,
    /// The chain's name.
    pub chain: &'a str,
}

/// Which certificates of an instance are to be joined.
#[derive(Drop)]
pub struct Joining<'a> {
    pub instance: &'a str,
    /// The files of these certificates, in the order of the words.
    pub certificates: Vec<&'a str>,
    /// Where the joined one is written.
    pub joined: Option<&'a str>,
}

/// A command, with the files that it names.
#[derive(Drop)]
pub enum Request<'a> {
    /// Do something with the plan of one file for the instance of another.
    OnFiles {
        instance: &'a str,
        plan: &'a str,
        task: Task<'a>,
    },
    /// Tell of the rounds of the plan of one file for the instance of another.
    OfRounds {
        instance: &'a str,
        plan: &'a str,
        task: RoundsTask,
    },
    /// Write the instance of one cycle of the cluster of several rates of a file.
    Unroll {
        rates: &'a str,
    },
    /// Tell how the cluster of several rates of a file repeats, and what holds of the plan of another one.
    Repeat {
        rates: &'a str,
        plan: Option<&'a str>,
        form: AnswerForm,
    },
    /// Search the instance of a file.
    Solve(Search<'a>),
    /// Tell why the instance of a file has no plan.
    Why(Why<'a>),
    /// Tell how early processes of the instance of a file can end.
    Limit(Limit<'a>),
    /// Tell by how much longer processes of the instance of a file may run.
    Margin(Margin<'a>),
    /// Tell the least age of a chain of the cluster of several rates of a file.
    Age(Age<'a>),
    /// Check the certificate of one file for the instance of another.
    Check {
        instance: &'a str,
        certificate: &'a str,
        /// Whether the certificate may be long.
        is_long: bool,
    },
    /// Join the certificates of some files for the instance of another.
    Join(Joining<'a>),
    /// Judge the plan of one file for the instance of another by the certificate of a third.
    Judge {
        instance: &'a str,
        plan: &'a str,
        certificate: &'a str,
        /// Whether the certificate may be long.
        is_long: bool,
        form: AnswerForm,
    },
    /// Tell what is different of a second instance and its plan, each in a file, by the names of what is different.
    Compare {
        old_instance: &'a str,
        old_plan: &'a str,
        new_instance: &'a str,
        new_plan: &'a str,
        form: AnswerForm,
    },
    /// Tell in sentences why the instance of a file, or a plan or a certificate for it, is refused, or what there is to say of it.
    Explain {
        instance: &'a str,
        explained: Explained<'a>,
        form: AnswerForm,
    },
    /// Tell the same of the cluster of several rates of a file.
    ExplainRates {
        rates: &'a str,
    },
    /// Verify an instance and a plan in one stream: no words were given.
    VerifyBundle,
    /// Say which version this is.
    Version,
}

/// The program's version, and those of the texts that it reads and writes.
pub const VERSION: &str =
    "ttplan 0.1.0\ntexts: ttplan 1, ttplan 2, ttcert 1, ttcert 2, ttmedl 1, ttmedl 2, ttguard 1, ttreplay 1, ttperiod 1, ttrepeat 1, ttwhy 1\n";

/// The words that the program was called with. The error's kind is `InvalidData` where one is not UTF-8.
pub fn all(rt: &(impl Env + AllocGlobal)) -> io::Result<Vec<String>> {
    let words = std::env::args(rt)?.collect(rt.alloc())?;
    Ok(words)
}
