//! Which code has the line of a fault, and at which place is it?

use crate::members::Members;
use crate::rows::{LineRow, row_of};
use crate::words::{first_word, push_names, push_numbers, push_words};
use std::alloc::{AllocError, Global};

/// Of a text without a code: what stands behind its words.
const BARE: &[LineRow] = &[
    LineRow {
        begins: "memory",
        keys: &[],
    },
    LineRow {
        begins: "read",
        keys: &["file"],
    },
    LineRow {
        begins: "write",
        keys: &["file"],
    },
    LineRow {
        begins: "solve thread",
        keys: &[],
    },
    LineRow {
        begins: "limit name",
        keys: &["word"],
    },
    LineRow {
        begins: "margin name",
        keys: &["word"],
    },
    LineRow {
        begins: "age name",
        keys: &[],
    },
    LineRow {
        begins: "usage bundle",
        keys: &[],
    },
];

/// Of a plan and its text by its code, but for a line of the text.
const OF_PLAN: &[LineRow] = &[
    LineRow {
        begins: "V1",
        keys: &["list"],
    },
    LineRow {
        begins: "V2",
        keys: &["position"],
    },
    LineRow {
        begins: "V3",
        keys: &["node"],
    },
    LineRow {
        begins: "V4",
        keys: &["process"],
    },
    LineRow {
        begins: "V5",
        keys: &["process"],
    },
    LineRow {
        begins: "V6",
        keys: &["process", "other"],
    },
    LineRow {
        begins: "V7",
        keys: &["link"],
    },
    LineRow {
        begins: "V8",
        keys: &["message"],
    },
    LineRow {
        begins: "V9",
        keys: &["message", "process"],
    },
    LineRow {
        begins: "V10",
        keys: &["node", "round", "channel"],
    },
    LineRow {
        begins: "V11",
        keys: &["message"],
    },
    LineRow {
        begins: "D1",
        keys: &["delay"],
    },
];

/// Of a cluster of several rates by its code, where it is at no table, or at two places.
const OF_RATES: &[LineRow] = &[
    LineRow {
        begins: "J7",
        keys: &["_", "chain", "place"],
    },
    LineRow {
        begins: "J8",
        keys: &["slots", "round"],
    },
    LineRow {
        begins: "J10",
        keys: &["round", "cycle"],
    },
    LineRow {
        begins: "M11",
        keys: &["_", "before", "after"],
    },
];

/// Of a line of a text.
const LINE: &[&str] = &["line"];

/// No word stands for nothing.
const NOTHING: &str = "";

/// Adds the place of a fault of a plan or a certificate, behind its code.
fn push_indices(
    alloc: Global,
    place: &mut Members,
    code: &str,
    words: &str,
) -> Result<(), AllocError> {
    let keys = match row_of(OF_PLAN, code) {
        Some((row, _)) => row.keys,
        None => LINE,
    };
    push_words(alloc, place, keys, words, NOTHING)
}

/// Whether a text begins with a digit.
fn begins_with_digit(text: &str) -> bool {
    match text.as_bytes().first() {
        Some(byte) => byte.is_ascii_digit(),
        None => false,
    }
}

/// Adds the place of a fault of an instance: the table with its number, where there are several, and the key; or the processes of a circle.
fn push_table(alloc: Global, place: &mut Members, words: &str) -> Result<(), AllocError> {
    if words.is_empty() {
        return Ok(());
    }
    if begins_with_digit(words) {
        return push_numbers(alloc, place, "processes", words);
    }
    let (table, rest) = first_word(words);
    if begins_with_digit(rest) {
        push_words(alloc, place, &[table, "key"], rest, NOTHING)
    } else {
        push_words(alloc, place, &["table", "key"], words, NOTHING)
    }
}

/// Adds the place of a fault of a cluster of several rates: that of its text as of an instance, and that of the instance of a cycle by names.
fn push_of_rates(
    alloc: Global,
    place: &mut Members,
    code: &str,
    words: &str,
) -> Result<(), AllocError> {
    if let Some((row, _)) = row_of(OF_RATES, code) {
        return push_words(alloc, place, row.keys, words, NOTHING);
    }
    if code == "M13" {
        return push_names(alloc, place, "processes", words);
    }
    let (table, name) = first_word(words);
    if code.starts_with('M') && !name.is_empty() {
        place.push(alloc, table, &name)
    } else {
        push_table(alloc, place, words)
    }
}

/// Adds the place of a fault of a text, by its code.
fn push_in_text(
    alloc: Global,
    place: &mut Members,
    file: &str,
    code: &str,
    words: &str,
) -> Result<(), AllocError> {
    if file == "instance" {
        push_table(alloc, place, words)
    } else if file == "rates" {
        push_of_rates(alloc, place, code, words)
    } else {
        push_indices(alloc, place, code, words)
    }
}

/// Adds the code and the place of a line, where it is one of a fault: `plan V8 0`, `instance T3 process 1 node`, `memory`; and whether it is.
pub fn push_place(alloc: Global, members: &mut Members, line: &str) -> Result<bool, AllocError> {
    let mut place = Members::new(alloc);
    if let Some((row, words)) = row_of(BARE, line) {
        push_words(alloc, &mut place, row.keys, words, NOTHING)?;
        push_code(alloc, members, row.begins, &place)?;
        return Ok(true);
    }
    let (file, rest) = first_word(line);
    let (code, words) = first_word(rest);
    if begins_with_digit(rest) || !["instance", "plan", "certificate", "rates"].contains(&file) {
        return Ok(false);
    }
    place.push(alloc, "file", &file)?;
    push_in_text(alloc, &mut place, file, code, words)?;
    push_code(alloc, members, code, &place)?;
    Ok(true)
}

/// Adds a code with its place.
fn push_code(
    alloc: Global,
    members: &mut Members,
    code: &str,
    place: &Members,
) -> Result<(), AllocError> {
    members.push(alloc, "code", &code)?;
    members.push_object(alloc, "place", place)
}
