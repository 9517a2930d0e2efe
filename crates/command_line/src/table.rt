//! Which commands are there, with which words and options, and what does the help say of each?

use crate::options::{
    ANY_PLAN, BUDGET, CERT, CERT_OF_ALL, CERT_OF_LAST, CERT_OF_LESS, CERT_OF_MORE, CERT_OF_NONE,
    CERTIFICATE, CERTIFICATES, CHAIN, EXPLAINED_CERT, EXPLAINED_PLAN, EXPLAINED_RATES, FORMAT,
    FROM, GAP, INSTANCE, KEEP, LATE, LONG, LOSSES, NEW_INSTANCE, NEW_PLAN, NODE, OLD_INSTANCE,
    OLD_PLAN, PART, PERIOD_TICKS, PERMILLE, PLAN, PROCESSES, PROGRESS, RATES, REDUCED, ROUNDS,
    RUNNERS, SCHEDULE_FORMAT, SEARCH_BUDGET, SEARCHED, SEARCHES_PROGRESS, SECONDS, START, TABLE,
    UNROLLED_PLAN, UNTIL, USED, WIDE, WIDTH, WITH_LESS, WITH_MORE, WITHIN, WORKERS,
};
use crate::rows::Row;

/// What a command is for.
#[derive(Clone, Copy)]
pub enum Asks {
    Solve,
    Why,
    Limit,
    Margin,
    Verify,
    Check,
    Join,
    Judge,
    Explain,
    Tables,
    Period,
    Unroll,
    Repeat,
    Age,
    Replay,
    Schedule,
    Draw,
    Compare,
}

/// A command, with its words and then its options, in the order of its help.
#[derive(Clone, Copy)]
pub struct CommandRow {
    pub name: &'static str,
    pub about: &'static str,
    pub rows: &'static [&'static Row],
    /// What help says behind them.
    pub after: Option<&'static str>,
}

/// Searches for a shortest plan.
const SOLVE: &CommandRow = &CommandRow {
    name: "solve",
    about: "Prints a valid plan with the least delay, or `none`, or bounds where the search is stopped",
    rows: &[
        INSTANCE, WORKERS, BUDGET, UNTIL, GAP, SECONDS, START, FROM, PART, WIDE, CERT, KEEP,
        PROGRESS,
    ],
    after: Some(
        "It prints one of these, and ends with the status beside it:\n   0  the text of a plan: it is valid, and no valid plan has a smaller delay\n  10  `none`: no plan is valid\n  11  `stopped WHY LOW BEST`, and behind it the text of the best plan found\n\nWHY is `budget`, where the budget is spent, `memory`, where memory ran out, `until`, where the best plan found is as short as was asked for, `gap`, where no plan is shorter by more ticks than were asked for, `time`, where the seconds have passed, or `part`, where the leaves of a part are worked and others are open. No valid plan has a delay below LOW ticks. BEST is the delay of the best plan found, or `none`, and then no text follows.\n\nA search that is interrupted prints no plan, and its certificate's file is empty; with --keep its best plan so far is left. To go on after any stop, name the certificate behind --from and the plan behind --start, and write the next certificate to another file: only what is open is worked. --budget and --seconds are of one run.\n\nBefore the search a good plan is looked for, where more than 32 are left to choose: nodes to place, capacities, pairs of processes, and binary digits of rounds.",
    ),
};

/// Tells why there is no plan.
const WHY: &CommandRow = &CommandRow {
    name: "why",
    about: "Tells which constraints of an instance leave no plan",
    rows: &[
        INSTANCE,
        WORKERS,
        SEARCH_BUDGET,
        SECONDS,
        LATE,
        REDUCED,
        CERT_OF_NONE,
        FORMAT,
        SEARCHES_PROGRESS,
    ],
    after: Some(
        "It prints a line `ttwhy 1`, and behind it one of these, and ends with the status beside it:\n   0  `plan D`: there is a plan, of D ticks; it need not be a shortest\n  10  `none`, and a line for each constraint of a set that leaves no plan by itself: the horizon, deadlines, releases, messages, that one is on both channels, and links\n  11  `unknown`: a search was stopped before that was known\n\nA line begins with `need`, where there is a plan by the others of the set, and with `maybe`, where a search for one was stopped; it is `need nothing`, where the execution times alone leave no plan. With --late a line `late X` follows, where there is a plan once the horizon and all deadlines are X ticks later, and none where they are fewer; `late -`, where there is none within 1000000 ticks, the latest that can be said.\n\nFirst times are left out, then messages, and then links, as long as there is still no plan. Each search is for any plan, and has N subtrees. Once the seconds have passed the search at hand is stopped, and so is each further one as it begins.",
    ),
};

/// Tells how early processes can end.
const LIMIT: &CommandRow = &CommandRow {
    name: "limit",
    about: "Prints the least tick by which all these processes can end, and a plan that does it",
    rows: &[
        INSTANCE,
        PROCESSES,
        WORKERS,
        SEARCH_BUDGET,
        SECONDS,
        SEARCHED,
        CERT_OF_LAST,
        FORMAT,
        SEARCHES_PROGRESS,
    ],
    after: Some(
        "It prints one of these, and ends with the status beside it:\n   0  `limit D`, and behind it the text of a plan: the last of these processes ends at D in it, and before D in no valid plan; of the plans that do it none has a smaller delay\n  10  `none`: no plan is valid\n  11  `limit D` and a plan that does it, where the search for the least delay was stopped; `between LOW HIGH` and a plan in which the last of them ends at HIGH, where a search before that was; or `between LOW none`, where no plan is known. It ends before LOW in no valid plan\n\nFirst any plan is looked for, then one that ends these processes half way between the ticks that are known, and so on. The last search is for the least delay. Each has N subtrees. Once the seconds have passed the search at hand is stopped, and so is each further one as it begins.",
    ),
};

/// Tells how much longer processes may run.
const MARGIN: &CommandRow = &CommandRow {
    name: "margin",
    about: "Prints by how much longer all these processes may run at once, and a plan that stays valid then",
    rows: &[
        INSTANCE,
        RUNNERS,
        PERMILLE,
        WITHIN,
        WORKERS,
        SEARCH_BUDGET,
        SECONDS,
        WITH_MORE,
        CERT_OF_MORE,
        FORMAT,
        SEARCHES_PROGRESS,
    ],
    after: Some(
        "It prints one of these, and ends with the status beside it:\n   0  `margin X`, and behind it the text of a plan: it stays valid where each of these processes takes X ticks more than its worst-case execution time, all at once, and with X + 1 no plan is valid; `margin X window PROCESS`, where that is so because this process has no room for X + 1 between its release and the least of its deadline, the horizon and D\n  10  `none`: no plan is valid, or none within D\n  11  `between LOW HIGH`, and behind it the text of a plan that stays valid with LOW and not with LOW + 1, or `unknown HIGH`, where no plan is known: a search was stopped; with more than HIGH no plan is valid\n\nFirst any plan is looked for; what it has is the least slack of these processes. Then one is looked for that has half as much more as windows leave, and so on. The last search has to show that there is no plan with X + 1. Each has N subtrees. Once the seconds have passed the search at hand is stopped, and so is each further one as it begins.",
    ),
};

/// Verifies a plan.
const VERIFY: &CommandRow = &CommandRow {
    name: "verify",
    about: "Checks a plan, and prints `valid` with its delay in ticks",
    rows: &[INSTANCE, PLAN, FORMAT],
    after: None,
};

/// Checks a certificate.
const CHECK: &CommandRow = &CommandRow {
    name: "check",
    about: "Checks a certificate, and prints `bound` with the delay that no plan is below",
    rows: &[INSTANCE, CERTIFICATE, LONG],
    after: None,
};

/// Joins certificates.
const JOIN: &CommandRow = &CommandRow {
    name: "join",
    about: "Joins certificates of an instance into one, and prints `bound` with the delay that no plan is below",
    rows: &[INSTANCE, CERTIFICATES, CERT_OF_ALL],
    after: Some(
        "Where leaves of several certificates stand at one place, the joined one has the leaf with the greatest goal there; where a leaf stands above branches, it goes down to each of theirs. Branches that differ aren't joined: those of the certificate with the greatest bound stand. Each leaf that is taken is checked where it stands, so the bound holds whatever the certificates say. One that is refused is told by its number, from 0, behind `join`, with the line of `ttplan check`.",
    ),
};

/// Judges a plan by a certificate.
const JUDGE: &CommandRow = &CommandRow {
    name: "judge",
    about: "Checks a plan and a certificate, and prints whether no plan is shorter",
    rows: &[INSTANCE, ANY_PLAN, CERTIFICATE, LONG, FORMAT],
    after: Some(
        "It prints one of these, and ends with the status beside it:\n   0  `least D`: the plan is valid and takes D ticks, and no valid plan has a smaller delay\n  10  `none`: no plan is valid\n  11  `between LOW D`, or `between LOW none` where PLAN has no plan: no valid plan has a delay below LOW ticks, which is less than D or than all that the horizon allows\n\nPLAN is a plan's text, or `none`, or what a search printed that was stopped: its line `stopped`, and behind it the plan.",
    ),
};

/// Explains an instance, a plan or a certificate.
const EXPLAIN: &CommandRow = &CommandRow {
    name: "explain",
    about: "Tells in sentences why an instance, a plan or a certificate is refused, and why a valid plan ends when it does",
    rows: &[
        INSTANCE,
        EXPLAINED_PLAN,
        EXPLAINED_CERT,
        EXPLAINED_RATES,
        FORMAT,
    ],
    after: Some(
        "The first line is the one that `ttplan verify` or `ttplan check` gives, of an instance alone how many nodes, processes, links and messages it has. Sentences follow: of what is refused which two things a rule compares, both numbers, and by how much they fail it; of a valid plan what held its last process back, and what that, down to a release; of a certificate of one leaf each step.\n\nWith --rates the first line is the one by which `ttplan unroll` refuses the cluster, or how many nodes, processes, links, messages and chains it has, and the sentences are of that. It is told as text alone, and without PLAN.\n\nIt ends with status 0 wherever it explained something, a refusal too.",
    ),
};

/// Prints what is loaded.
const TABLES: &CommandRow = &CommandRow {
    name: "tables",
    about: "Prints the node tables of a valid plan, and its guardian windows",
    rows: &[INSTANCE, PLAN, ROUNDS],
    after: None,
};

/// Tells of a plan that repeats.
const PERIOD: &CommandRow = &CommandRow {
    name: "period",
    about: "Prints how the rounds of a valid plan lie in a period, and which rounds would divide it",
    rows: &[INSTANCE, PLAN, PERIOD_TICKS],
    after: Some(
        "It prints a line `ttperiod 1`, and behind it `period` and `round` with their ticks, `rounds` with how many whole rounds the period holds, and `gap` with the ticks behind the last of them, in which the bus is silent. Where that isn't 0 more lines follow:\n  `near A B`: the longest round of no more ticks than the plan's that divides the period, and the shortest of no fewer\n  `fit TRAIL ROUND`, at most five, by rising trail and then by rising round: with this trail, which is no shorter than the instance's own, some capacities that the nodes offer make a round of so many ticks, and it divides the period\n\nThe plan may begin anew each period as long as that holds the rounds of its cycle: else it says so, and ends with status 5.",
    ),
};

/// Unrolls a cluster of several rates.
const UNROLL: &CommandRow = &CommandRow {
    name: "unroll",
    about: "Prints the instance of one cycle of a cluster whose processes have periods of their own",
    rows: &[RATES],
    after: Some(
        "A cycle is the least common multiple of all periods. In it a process has a job for each of its periods, `NAME_k` with k from 0, or `NAME` where there is one; and so has a message for each job that is read. A value that is read in the next cycle is stored on each node of its readers by a process `MESSAGE_at_NODE`. All jobs run within the whole rounds of the cycle, whose ticks are the horizon. A plan of this instance may begin anew each cycle, and all commands take it.\n\nWith `round` each slot is longer by an even share of what the round has left. Where that isn't whole, all times are told in ticks that are finer.",
    ),
};

/// Tells of a cluster of several rates that repeats.
const REPEAT: &CommandRow = &CommandRow {
    name: "repeat",
    about: "Prints how a cluster of several rates repeats, and what holds of a valid plan of it in all cycles",
    rows: &[RATES, UNROLLED_PLAN, FORMAT],
    after: Some(
        "It prints a line `ttrepeat 1`, and behind it `finer` with how many ticks are one of RATES, `period` and `round` with their ticks, `rounds` with how many whole rounds the cycle holds, and `gap` with the ticks behind the last of them, in which the bus is silent; where that isn't 0, `near A B`: the longest round of no more ticks that divides the cycle, and the shortest of no fewer. Then stand `processes`, `links` and `messages`, with how many the instance of one cycle has.\n\nWith a PLAN of that instance, which has to be valid, more lines follow, and each number is the greatest over all jobs of all cycles:\n  `process NAME JITTER RESPONSE`: by how much its starts vary, from the begins of its periods, and how long after its release it ends\n  `chain NAME AGE BOUND`: how old what it carries is at its end, and how old that may be",
    ),
};

/// Tells how old what a chain carries has to be.
const AGE: &CommandRow = &CommandRow {
    name: "age",
    about: "Prints the least age that a chain of a cluster of several rates can have, and a plan that has it",
    rows: &[
        RATES,
        CHAIN,
        WORKERS,
        SEARCH_BUDGET,
        SECONDS,
        WITH_LESS,
        CERT_OF_LESS,
        FORMAT,
        SEARCHES_PROGRESS,
    ],
    after: Some(
        "It prints one of these, and ends with the status beside it:\n   0  `age X`, and behind it the text of a plan of the instance that `ttplan unroll` prints, but for the chain's own bound: what the chain carries is never older than X in it, in any cycle, and in each valid plan it is as old as that in some; `age X window JOB`, where that is so because this job has no room by itself with X - 1\n  10  `none`: no plan is valid\n  11  `between LOW HIGH`, and behind it the text of a plan in which the age is HIGH, or `between LOW none`, where no plan is known: a search was stopped; in no valid plan it is below LOW\n\nThe age of a chain is the greatest time from the release of a job of its first process to the end of the job of its last one that carries its value. The bound in RATES on this chain's age is left out, those on others are kept.\n\nFirst any plan is looked for, then one with an age half way between the ages that are known, and so on. The last search has to show that there is no plan with X - 1. Each has N subtrees. Once the seconds have passed the search at hand is stopped, and so is each further one as it begins.",
    ),
};

/// Replays a cycle.
const REPLAY: &CommandRow = &CommandRow {
    name: "replay",
    about: "Prints what membership does in one cycle of a valid plan",
    rows: &[INSTANCE, PLAN, LOSSES],
    after: None,
};

/// Prints a table of a plan.
const SCHEDULE: &CommandRow = &CommandRow {
    name: "schedule",
    about: "Prints the schedule of a valid plan: a table of comma-separated values, what nodes are loaded with, or a trace",
    rows: &[INSTANCE, PLAN, TABLE, SCHEDULE_FORMAT, NODE],
    after: Some(
        "In `c` and `json` stand of each node its processes with start and end, and each slot of the cycle with its sender, its ticks and the messages that the frame has for the node, at their offsets; beside them the cycle, the delay, and the SHA-256 of both files as they were read. The text of `c` is a source; where TT_DECLARATIONS is defined it is a header. They have no --table; --node goes with these two. `c` and `json` tell each slot for each node that they tell of, and `trace` on each channel: 100000 at most.",
    ),
};

/// Draws a plan.
const DRAW: &CommandRow = &CommandRow {
    name: "draw",
    about: "Prints a picture of a valid plan's cycle, as SVG",
    rows: &[INSTANCE, PLAN, WIDTH, USED],
    after: None,
};

/// Compares two releases.
const COMPARE: &CommandRow = &CommandRow {
    name: "compare",
    about: "Tells which nodes a change of an instance and its plan touches, and what is different of the plan",
    rows: &[OLD_INSTANCE, OLD_PLAN, NEW_INSTANCE, NEW_PLAN, FORMAT],
    after: Some(
        "It prints a line for each node of either instance, by its name: `same`, where in both its table and its guardian's windows are the same bytes and its processes have the same rows in `ttplan schedule` but for their slack; `changed`, where that isn't so; `new` or `gone`. Behind these lines is told what is different of processes and of the plan: `order changed`, and `node`, `wcet`, `cap`, `start`, `round` and `chan`, each with a name, the old value and the new one, or `-` where there is none.\n\nIt ends with status 0 where each node is the same and nothing is different, and else with 1. Both plans have to be valid: else it says so as `ttplan verify` does, behind the word `old` or `new`.",
    ),
};

/// All commands, in the order of help.
pub const COMMANDS: &[Asks] = &[
    Asks::Solve,
    Asks::Why,
    Asks::Limit,
    Asks::Margin,
    Asks::Verify,
    Asks::Check,
    Asks::Join,
    Asks::Judge,
    Asks::Explain,
    Asks::Tables,
    Asks::Period,
    Asks::Unroll,
    Asks::Repeat,
    Asks::Age,
    Asks::Replay,
    Asks::Schedule,
    Asks::Draw,
    Asks::Compare,
];

/// The row of a command.
pub fn row_of(asks: Asks) -> &'static CommandRow {
    match asks {
        Asks::Solve => SOLVE,
        Asks::Why => WHY,
        Asks::Limit => LIMIT,
        Asks::Margin => MARGIN,
        Asks::Verify => VERIFY,
        Asks::Check => CHECK,
        Asks::Join => JOIN,
        Asks::Judge => JUDGE,
        Asks::Explain => EXPLAIN,
        Asks::Tables => TABLES,
        Asks::Period => PERIOD,
        Asks::Unroll => UNROLL,
        Asks::Repeat => REPEAT,
        Asks::Age => AGE,
        Asks::Replay => REPLAY,
        Asks::Schedule => SCHEDULE,
        Asks::Draw => DRAW,
        Asks::Compare => COMPARE,
    }
}
