//! Which lines does each command write, and what are their words called?

use crate::rows::LineRow;

/// A command, with the lines of its text.
#[derive(Clone, Copy)]
pub struct CommandLines {
    pub name: &'static str,
    /// What stands in front of its first line.
    pub head: &'static str,
    /// What its first line may be; where it has none all lines are items.
    pub answers: &'static [LineRow],
    /// What further lines are whose words are members of the object.
    pub values: &'static [LineRow],
    /// What its other lines are, each of which is an item of a list.
    pub items: &'static [LineRow],
    /// What this list is called.
    pub list: &'static str,
    /// Of a line behind these.
    pub late: &'static [LineRow],
    /// The word that stands for nothing, in the place of a number or a name.
    pub nothing: &'static str,
}

/// `verify`: one line.
pub const VERIFY: CommandLines = CommandLines {
    name: "verify",
    head: "",
    answers: &[LineRow {
        begins: "valid",
        keys: &["delay"],
    }],
    values: &[],
    items: &[],
    list: "",
    late: &[],
    nothing: "-",
};

/// `judge`: one line.
pub const JUDGE: CommandLines = CommandLines {
    name: "judge",
    head: "",
    answers: &[
        LineRow {
            begins: "least",
            keys: &["delay"],
        },
        LineRow {
            begins: "none",
            keys: &[],
        },
        LineRow {
            begins: "between",
            keys: &["low", "best"],
        },
    ],
    values: &[],
    items: &[],
    list: "",
    late: &[],
    nothing: "none",
};

/// `explain`: a line, and sentences behind it.
pub const EXPLAIN: CommandLines = CommandLines {
    name: "explain",
    head: "",
    answers: &[
        LineRow {
            begins: "valid",
            keys: &["delay"],
        },
        LineRow {
            begins: "bound",
            keys: &["low"],
        },
        LineRow {
            begins: "instance",
            keys: &["nodes", "_", "processes", "_", "links", "_", "messages"],
        },
    ],
    values: &[],
    items: &[],
    list: "",
    late: &[],
    nothing: "-",
};

/// `limit`: a line, and a plan behind it.
pub const LIMIT: CommandLines = CommandLines {
    name: "limit",
    head: "",
    answers: &[
        LineRow {
            begins: "limit",
            keys: &["end"],
        },
        LineRow {
            begins: "between",
            keys: &["low", "high"],
        },
        LineRow {
            begins: "none",
            keys: &[],
        },
    ],
    values: &[],
    items: &[],
    list: "",
    late: &[],
    nothing: "none",
};

/// `margin`: a line, and a plan behind it.
pub const MARGIN: CommandLines = CommandLines {
    name: "margin",
    head: "",
    answers: &[
        LineRow {
            begins: "margin",
            keys: &["margin", "_", "window"],
        },
        LineRow {
            begins: "between",
            keys: &["low", "high"],
        },
        LineRow {
            begins: "unknown",
            keys: &["high"],
        },
        LineRow {
            begins: "none",
            keys: &[],
        },
    ],
    values: &[],
    items: &[],
    list: "",
    late: &[],
    nothing: "-",
};

/// `why`: what was found, and the constraints of a set that leaves no plan.
pub const WHY: CommandLines = CommandLines {
    name: "why",
    head: "ttwhy 1\n",
    answers: &[
        LineRow {
            begins: "plan",
            keys: &["delay"],
        },
        LineRow {
            begins: "none",
            keys: &[],
        },
        LineRow {
            begins: "unknown",
            keys: &[],
        },
    ],
    values: &[],
    items: &[
        LineRow {
            begins: "need horizon",
            keys: &["ticks"],
        },
        LineRow {
            begins: "need deadline",
            keys: &["process", "ticks"],
        },
        LineRow {
            begins: "need release",
            keys: &["process", "ticks"],
        },
        LineRow {
            begins: "need link",
            keys: &["before", "after"],
        },
        LineRow {
            begins: "need message",
            keys: &["message"],
        },
        LineRow {
            begins: "need both",
            keys: &["message"],
        },
        LineRow {
            begins: "maybe horizon",
            keys: &["ticks"],
        },
        LineRow {
            begins: "maybe deadline",
            keys: &["process", "ticks"],
        },
        LineRow {
            begins: "maybe release",
            keys: &["process", "ticks"],
        },
        LineRow {
            begins: "maybe link",
            keys: &["before", "after"],
        },
        LineRow {
            begins: "maybe message",
            keys: &["message"],
        },
        LineRow {
            begins: "maybe both",
            keys: &["message"],
        },
    ],
    list: "set",
    late: &[LineRow {
        begins: "late",
        keys: &["low", "high"],
    }],
    nothing: "-",
};

/// `compare`: a line for each node, and one for each difference.
pub const COMPARE: CommandLines = CommandLines {
    name: "compare",
    head: "",
    answers: &[],
    values: &[],
    items: &[
        LineRow {
            begins: "same",
            keys: &["node"],
        },
        LineRow {
            begins: "changed",
            keys: &["node"],
        },
        LineRow {
            begins: "new",
            keys: &["node"],
        },
        LineRow {
            begins: "gone",
            keys: &["node"],
        },
        LineRow {
            begins: "order",
            keys: &[],
        },
        LineRow {
            begins: "node",
            keys: &["process", "old", "new"],
        },
        LineRow {
            begins: "wcet",
            keys: &["process", "old", "new"],
        },
        LineRow {
            begins: "cap",
            keys: &["node", "old", "new"],
        },
        LineRow {
            begins: "start",
            keys: &["process", "old", "new"],
        },
        LineRow {
            begins: "round",
            keys: &["message", "old", "new"],
        },
        LineRow {
            begins: "chan",
            keys: &["message", "old", "new"],
        },
    ],
    list: "differences",
    late: &[],
    nothing: "-",
};

/// `repeat`: numbers of a cluster, and what holds of each process and chain of a plan.
pub const REPEAT: CommandLines = CommandLines {
    name: "repeat",
    head: "ttrepeat 1\n",
    answers: &[],
    values: &[
        LineRow {
            begins: "finer",
            keys: &["finer"],
        },
        LineRow {
            begins: "period",
            keys: &["period"],
        },
        LineRow {
            begins: "round",
            keys: &["round"],
        },
        LineRow {
            begins: "rounds",
            keys: &["rounds"],
        },
        LineRow {
            begins: "gap",
            keys: &["gap"],
        },
        LineRow {
            begins: "near",
            keys: &["near_below", "near_above"],
        },
        LineRow {
            begins: "processes",
            keys: &["processes"],
        },
        LineRow {
            begins: "links",
            keys: &["links"],
        },
        LineRow {
            begins: "messages",
            keys: &["messages"],
        },
    ],
    items: &[
        LineRow {
            begins: "process",
            keys: &["process", "jitter", "response"],
        },
        LineRow {
            begins: "chain",
            keys: &["chain", "age", "bound"],
        },
    ],
    list: "figures",
    late: &[],
    nothing: "-",
};

/// `age`: a line, and a plan behind it.
pub const AGE: CommandLines = CommandLines {
    name: "age",
    head: "",
    answers: &[
        LineRow {
            begins: "age",
            keys: &["age", "_", "window"],
        },
        LineRow {
            begins: "between",
            keys: &["low", "high"],
        },
        LineRow {
            begins: "none",
            keys: &[],
        },
    ],
    values: &[],
    items: &[],
    list: "",
    late: &[],
    nothing: "none",
};
