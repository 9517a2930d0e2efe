//! Which words and options are there? What one is called, what it takes, and what is said of it stands in its row alone; which command has it
//! stands in that command's.

use crate::rows::{Place, Range, Row, Takes, Written};
use command_streams::Sink;
use plan_sheets::pictures::{LEAST_WIDTH, MOST_WIDTH};
use ttp_model::MOST_TICKS;

// ---- words

/// The file of an instance.
pub const INSTANCE: &Row = &Row {
    name: "INSTANCE",
    place: Place::Word,
    takes: Takes::Text,
    help: "The cluster and its processes, in TOML",
};

/// The file of a plan.
pub const PLAN: &Row = &Row {
    name: "PLAN",
    place: Place::Word,
    takes: Takes::Text,
    help: "The plan's text",
};

/// The file of a plan, or of what a search printed.
pub const ANY_PLAN: &Row = &Row {
    name: "PLAN",
    place: Place::Word,
    takes: Takes::Text,
    help: "The plan's text, or whatever `ttplan solve` printed in its place",
};

/// The file of a plan that is to be explained.
pub const EXPLAINED_PLAN: &Row = &Row {
    name: "PLAN",
    place: Place::MaybeWord,
    takes: Takes::Text,
    help: "The plan's text",
};

/// The file of a certificate.
pub const CERTIFICATE: &Row = &Row {
    name: "CERT",
    place: Place::Word,
    takes: Takes::Text,
    help: "The certificate's text",
};

/// The files of certificates that are joined.
pub const CERTIFICATES: &Row = &Row {
    name: "CERT",
    place: Place::Words,
    takes: Takes::Text,
    help: "The text of a certificate of INSTANCE, of which there are two at least",
};

/// Frames that are lost.
pub const LOSSES: &Row = &Row {
    name: "LOSS",
    place: Place::MaybeWords,
    takes: Takes::Text,
    help: "A lost frame, ROUND/SLOT/NODE from 0, or ROUND/SLOT/* for all receivers",
};

/// The processes that are to end early.
pub const PROCESSES: &Row = &Row {
    name: "PROCESS",
    place: Place::Words,
    takes: Takes::Text,
    help: "The name of a process, of which each is named once",
};

/// The processes that are to run longer.
pub const RUNNERS: &Row = &Row {
    name: "PROCESS",
    place: Place::MaybeWords,
    takes: Takes::Text,
    help: "The name of a process that is to run longer, of which each is named once; where none is named, all are",
};

/// The chain whose age is to be small.
pub const CHAIN: &Row = &Row {
    name: "CHAIN",
    place: Place::Word,
    takes: Takes::Text,
    help: "The name of a chain",
};

/// How many ticks a period has.
pub const PERIOD_TICKS: &Row = &Row {
    name: "PERIOD",
    place: Place::Word,
    takes: Takes::Number(Range {
        least: 1,
        most: MOST_TICKS as u64,
        default: None,
    }),
    help: "How many ticks after its begin the plan begins anew, 1 to 1000000",
};

/// The file of a cluster of several rates.
pub const RATES: &Row = &Row {
    name: "RATES",
    place: Place::Word,
    takes: Takes::Text,
    help: "A cluster whose processes have periods of their own, in TOML",
};

/// The file of a plan of the instance that such a cluster unrolls into.
pub const UNROLLED_PLAN: &Row = &Row {
    name: "PLAN",
    place: Place::MaybeWord,
    takes: Takes::Text,
    help: "A plan of the instance that `ttplan unroll` prints",
};

/// The file of the instance before a change.
pub const OLD_INSTANCE: &Row = &Row {
    name: "OLD_INSTANCE",
    place: Place::Word,
    takes: Takes::Text,
    help: "The cluster and its processes, in TOML",
};

/// And of its plan.
pub const OLD_PLAN: &Row = &Row {
    name: "OLD_PLAN",
    place: Place::Word,
    takes: Takes::Text,
    help: "The text of a plan of it",
};

/// The file of the instance behind it.
pub const NEW_INSTANCE: &Row = &Row {
    name: "NEW_INSTANCE",
    place: Place::Word,
    takes: Takes::Text,
    help: "The cluster and its processes as they are to be, in TOML",
};

/// And of its plan.
pub const NEW_PLAN: &Row = &Row {
    name: "NEW_PLAN",
    place: Place::Word,
    takes: Takes::Text,
    help: "The text of a plan of that",
};

// ---- options

/// What is said of a file that is that of the instance.
const OVER_INSTANCE: &str = "that is the instance's file, which would be emptied";

/// The same of the file of a cluster of several rates.
const OVER_RATES: &str = "that is the cluster's file, which would be emptied";

/// Of one that is another file of the command.
pub const OVER_OTHER: &str = "another file of the command would be emptied";

/// And of one in which a plan can't be kept.
const OVER_KEPT: &str = "a plan kept there would take the place of another file of the search";

/// How many workers search.
pub const WORKERS: &Row = &Row {
    name: "workers",
    place: Place::Option("N"),
    takes: Takes::Number(Range {
        least: 1,
        most: 16,
        default: Some("4"),
    }),
    help: "How many workers search, 1 to 16",
};

/// How many subtrees are searched at most.
pub const BUDGET: &Row = &Row {
    name: "budget",
    place: Place::Option("N"),
    takes: Takes::Number(Range {
        least: 0,
        most: u64::MAX,
        default: Some("1000000"),
    }),
    help: "How many subtrees are searched at most: each that is split, closed or gives a plan counts once; with 0 no plan is looked for",
};

/// How many subtrees each of several searches has at most.
pub const SEARCH_BUDGET: &Row = &Row {
    name: "budget",
    place: Place::Option("N"),
    takes: Takes::Number(Range {
        least: 0,
        most: u64::MAX,
        default: Some("1000000"),
    }),
    help: "How many subtrees each search has at most",
};

/// How many ticks a plan takes at most that is good enough.
pub const UNTIL: &Row = &Row {
    name: "until",
    place: Place::Option("D"),
    takes: Takes::Number(Range {
        least: 0,
        most: u32::MAX as u64,
        default: None,
    }),
    help: "Ends once a plan of at most so many ticks is known; with the horizon any plan is",
};

/// By how many ticks a plan may be longer than the least is known to be.
pub const GAP: &Row = &Row {
    name: "gap",
    place: Place::Option("N"),
    takes: Takes::Number(Range {
        least: 0,
        most: u32::MAX as u64,
        default: Some("0"),
    }),
    help: "Leaves a subtree as soon as no plan in it is shorter by more than so many ticks than the best known",
};

/// How many seconds after the start a search ends.
pub const SECONDS: &Row = &Row {
    name: "seconds",
    place: Place::Option("N"),
    takes: Takes::Number(Range {
        least: 1,
        most: u64::MAX,
        default: None,
    }),
    help: "No worker takes a further subtree so many seconds after the start; what is left is closed as with a budget",
};

/// The plan with which a search begins.
pub const START: &Row = &Row {
    name: "start",
    place: Place::Option("PLAN"),
    takes: Takes::Text,
    help: "Begins with this plan: what is printed takes no longer. It is refused as by `ttplan verify` where it isn't valid",
};

/// The certificate from which a search goes on.
pub const FROM: &Row = &Row {
    name: "from",
    place: Place::Option("CERT"),
    takes: Takes::Text,
    help: "Goes on from this certificate: its leaves below the delay to beat are open again, and all else is kept. It is refused as by `ttplan check` where it isn't right",
};

/// Which of its open leaves are worked.
pub const PART: &Row = &Row {
    name: "part",
    place: Place::Option("K/N"),
    takes: Takes::Text,
    help: "Works only those open leaves of CERT, numbered from 0, whose number is K modulo N, with K below N, and N at most 1000000: other machines work the others, and `ttplan join` joins their certificates",
};

/// Whether one thread works the subtree with the fewest branches above it.
pub const WIDE: &Row = &Row {
    name: "wide",
    place: Place::Flag,
    takes: Takes::Nothing,
    help: "Works the subtree with the fewest branches above it, by one thread and no worker, so that a certificate has many open leaves, none much larger than others: a tree to be dealt in parts",
};

/// The file of a certificate that is written.
pub const CERT: &Row = &Row {
    name: "cert",
    place: Place::Option("FILE"),
    takes: Takes::File(Written {
        sink: Sink::Certificate,
        over_instance: OVER_INSTANCE,
        over_other: "that is a file with which the search begins, which would be emptied",
    }),
    help: "Also writes the certificate that proves the answer, whichever it is, to this file, before the answer is printed; `ttplan check INSTANCE FILE` accepts it. A file that is there is emptied first; INSTANCE itself is refused, and PLAN, and CERT",
};

/// The file of the certificate that there is no plan.
pub const CERT_OF_NONE: &Row = &Row {
    name: "cert",
    place: Place::Option("FILE"),
    takes: Takes::File(Written {
        sink: Sink::Certificate,
        over_instance: OVER_OTHER,
        over_other: OVER_OTHER,
    }),
    help: "Also writes the certificate that this instance has no plan to this file: `ttplan check` accepts it for the file of `--reduced`. A file that is there is emptied first; INSTANCE itself is refused, and that file",
};

/// The file of the certificate of the last of several searches.
pub const CERT_OF_LAST: &Row = &Row {
    name: "cert",
    place: Place::Option("FILE"),
    takes: Takes::File(Written {
        sink: Sink::Certificate,
        over_instance: OVER_INSTANCE,
        over_other: OVER_OTHER,
    }),
    help: "Also writes the certificate of the last search to this file, before the answer is printed: `ttplan check` accepts it for the file of `--reduced`. A file that is there is emptied first; INSTANCE itself is refused",
};

/// The file of a joined certificate.
pub const CERT_OF_ALL: &Row = &Row {
    name: "cert",
    place: Place::Option("FILE"),
    takes: Takes::File(Written {
        sink: Sink::Certificate,
        over_instance: OVER_INSTANCE,
        over_other: OVER_OTHER,
    }),
    help: "Also writes the joined certificate to this file, before the bound is printed; `ttplan check INSTANCE FILE` accepts it. A file that is there is emptied first; INSTANCE itself is refused, and each CERT",
};

/// The file of a certificate that is to be explained.
pub const EXPLAINED_CERT: &Row = &Row {
    name: "cert",
    place: Place::InsteadOf("CERT", "PLAN"),
    takes: Takes::Text,
    help: "Explains this certificate, in place of a plan",
};

/// Whether a certificate that is judged may be long.
pub const LONG: &Row = &Row {
    name: "long",
    place: Place::Flag,
    takes: Takes::Nothing,
    help: "Reads a CERT of up to 1099511627776 bytes, in place of 268435456: its text and its tree are in memory for a while, and one thread checks it",
};

/// Whether what is explained is a cluster of several rates.
pub const EXPLAINED_RATES: &Row = &Row {
    name: "rates",
    place: Place::Flag,
    takes: Takes::Nothing,
    help: "Explains a cluster whose processes have periods of their own: INSTANCE is what `ttplan unroll` takes",
};

/// The file of the best plan so far.
pub const KEEP: &Row = &Row {
    name: "keep",
    place: Place::Option("FILE"),
    takes: Takes::File(Written {
        sink: Sink::Plan,
        over_instance: OVER_KEPT,
        over_other: OVER_KEPT,
    }),
    help: "Keeps the best plan so far in this file, at every time as a whole, so that an interrupt leaves it there: a better one is written to FILE.new, or to FILE.new.1 and so on where that is somebody's, which is then renamed. A plan for INSTANCE that stands there stays until a better one is found. INSTANCE, CERT and the certificate's file are refused",
};

/// Whether a search says how far it is.
pub const PROGRESS: &Row = &Row {
    name: "progress",
    place: Place::Flag,
    takes: Takes::Nothing,
    help: "Says once a second on standard error how far the search is: seconds, subtrees worked, how many a second, how many are in work, the bound that is known before the search, and the best plan's delay with its gap from that",
};

/// Whether a question says how far its searches are.
pub const SEARCHES_PROGRESS: &Row = &Row {
    name: "progress",
    place: Place::Flag,
    takes: Takes::Nothing,
    help: "Says once a second on standard error how far it is: seconds, which search is at work, how many subtrees are worked in all of them, and how many a second",
};

/// Whether it is told how late all would have to be.
pub const LATE: &Row = &Row {
    name: "late",
    place: Place::Flag,
    takes: Takes::Nothing,
    help: "Also tells by how many ticks the horizon and all deadlines have to be later for a plan",
};

/// The file of the instance by the constraints that leave no plan.
pub const REDUCED: &Row = &Row {
    name: "reduced",
    place: Place::Option("FILE"),
    takes: Takes::File(Written {
        sink: Sink::Reduced,
        over_instance: OVER_OTHER,
        over_other: OVER_OTHER,
    }),
    help: "Also writes the instance by these constraints alone to this file, in TOML; a file that is there is emptied first, and INSTANCE itself is refused",
};

/// The file of the instance of the last of several searches.
pub const SEARCHED: &Row = &Row {
    name: "reduced",
    place: Place::Option("FILE"),
    takes: Takes::File(Written {
        sink: Sink::Reduced,
        over_instance: OVER_OTHER,
        over_other: OVER_OTHER,
    }),
    help: "Also writes the instance that the certificate is for to this file, in TOML: of `limit D` the one in which the deadlines of these processes are D, or earlier. A file that is there is emptied first; INSTANCE itself is refused, and the certificate's file",
};

/// Whether it is counted in thousandths by how much processes run longer.
pub const PERMILLE: &Row = &Row {
    name: "permille",
    place: Place::Flag,
    takes: Takes::Nothing,
    help: "Counts in thousandths of each worst-case execution time, rounded up to whole ticks, in place of ticks",
};

/// By which tick all has to end.
pub const WITHIN: &Row = &Row {
    name: "within",
    place: Place::Option("D"),
    takes: Takes::Number(Range {
        least: 1,
        most: MOST_TICKS as u64,
        default: Some("1000000"),
    }),
    help: "All has to end by this tick too, longer runs included: the horizon is the lesser of itself and D, 1 to 1000000",
};

/// The file of the certificate that there is no plan where processes run longer by one more.
pub const CERT_OF_MORE: &Row = &Row {
    name: "cert",
    place: Place::Option("FILE"),
    takes: Takes::File(Written {
        sink: Sink::Certificate,
        over_instance: OVER_INSTANCE,
        over_other: OVER_OTHER,
    }),
    help: "Also writes the certificate that there is no plan with one more to this file, where a search showed that, before the answer is printed: `ttplan check` accepts it for the file of `--reduced`. A file that is there is emptied first; INSTANCE itself is refused",
};

/// The file of the instance in which processes run longer by one more.
pub const WITH_MORE: &Row = &Row {
    name: "reduced",
    place: Place::Option("FILE"),
    takes: Takes::File(Written {
        sink: Sink::Reduced,
        over_instance: OVER_OTHER,
        over_other: OVER_OTHER,
    }),
    help: "Also writes the instance that the certificate is for to this file, in TOML: the one in which these processes run longer by one more, and all has to end by D. A file that is there is emptied first; INSTANCE itself is refused, and the certificate's file",
};

/// The file of the certificate of an age that is too small.
pub const CERT_OF_LESS: &Row = &Row {
    name: "cert",
    place: Place::Option("FILE"),
    takes: Takes::File(Written {
        sink: Sink::Certificate,
        over_instance: OVER_RATES,
        over_other: OVER_OTHER,
    }),
    help: "Also writes the certificate that there is no plan with an age of one less to this file, where a search showed that, before the answer is printed: `ttplan check` accepts it for the file of `--reduced`. A file that is there is emptied first; RATES itself is refused",
};

/// The file of the instance with such an age.
pub const WITH_LESS: &Row = &Row {
    name: "reduced",
    place: Place::Option("FILE"),
    takes: Takes::File(Written {
        sink: Sink::Reduced,
        over_instance: OVER_OTHER,
        over_other: OVER_OTHER,
    }),
    help: "Also writes the instance that the certificate is for to this file, in TOML: the one of a cycle in which the age of CHAIN is one less. A file that is there is emptied first; RATES itself is refused, and the certificate's file",
};

/// In which form an answer is written.
pub const FORMAT: &Row = &Row {
    name: "format",
    place: Place::Option("FORMAT"),
    takes: Takes::OneOf(&["text", "json"]),
    help: "As which it is written: as text; or as one JSON object with the status, the code and the place of what is refused, and the names and numbers of the text. A refusal stands there too, beside its line on standard error",
};

/// Of how many rounds tables are.
pub const ROUNDS: &Row = &Row {
    name: "rounds",
    place: Place::Option("N"),
    takes: Takes::Number(Range {
        least: 0,
        most: u32::MAX as u64,
        default: None,
    }),
    help: "Prints those of so many rounds, in place of as many as the plan's cycle has; the further ones carry nothing",
};

/// Which table of a plan is written.
pub const TABLE: &Row = &Row {
    name: "table",
    place: Place::Option("TABLE"),
    takes: Takes::AnyOf(&["processes", "slots", "messages"]),
    help: "Which table `csv` has: each process in the order of starts, with the ticks by which it may run longer, which is so where none is named; each slot of the cycle; or each message and receiver",
};

/// In which form the schedule of a plan is written.
pub const SCHEDULE_FORMAT: &Row = &Row {
    name: "format",
    place: Place::Option("FORMAT"),
    takes: Takes::OneOf(&["csv", "c", "json", "trace"]),
    help: "How it is written: a table of comma-separated values; what nodes are loaded with, as constant arrays in C or as one object of JSON; or the cycle as events of a trace, which Perfetto and chrome://tracing open, a tick as a microsecond",
};

/// Whose loads are written.
pub const NODE: &Row = &Row {
    name: "node",
    place: Place::Option("NODE"),
    takes: Takes::Text,
    help: "In `c` and `json` the loads of the node of this name alone, in place of all",
};

/// How wide a picture is, in pixels.
pub const WIDTH: &Row = &Row {
    name: "width",
    place: Place::Option("PX"),
    takes: Takes::Number(Range {
        least: LEAST_WIDTH as u64,
        most: MOST_WIDTH as u64,
        default: Some("1200"),
    }),
    help: "How many pixels it is wide, 200 to 10000",
};

/// Whether only slots in use are drawn.
pub const USED: &Row = &Row {
    name: "used",
    place: Place::Flag,
    takes: Takes::Nothing,
    help: "Leaves out the slots that carry nothing; a picture that shows each slot of the cycle has 100,000 at most",
};
