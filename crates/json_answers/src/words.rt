//! How are the words of a line written as members?

use crate::members::Members;
use std::alloc::{AllocError, Global};

/// Whether a word is a number. No name is one, since each begins with a letter or `_`.
fn is_number(word: &str) -> bool {
    if word.is_empty() {
        return false;
    }
    for byte in word.as_bytes() {
        if !byte.is_ascii_digit() {
            return false;
        }
    }
    true
}

/// What is always a name, also where that is the word for nothing.
const NAMED: &str = "window";

/// Adds a word: a number as one, and null where it is the word for nothing.
fn push_word(
    alloc: Global,
    members: &mut Members,
    key: &str,
    word: &str,
    nothing: &str,
) -> Result<(), AllocError> {
    if is_number(word) {
        members.push_written(key, word)
    } else if word == nothing && key != NAMED {
        members.push_written(key, "null")
    } else {
        members.push(alloc, key, &word)
    }
}

/// The first word of a line, and what stands behind the space behind it.
pub fn first_word(line: &str) -> (&str, &str) {
    line.split_once(' ').unwrap_or((line, ""))
}

/// Adds the words of a line by these names, in their order. A word of which nothing is told has the name `_`, and so it is with words
/// behind the last name.
pub fn push_words(
    alloc: Global,
    members: &mut Members,
    keys: &[&str],
    words: &str,
    nothing: &str,
) -> Result<(), AllocError> {
    let mut rest = words;
    for key in keys {
        if rest.is_empty() {
            return Ok(());
        }
        let (word, behind) = first_word(rest);
        if *key != "_" {
            push_word(alloc, members, key, word, nothing)?;
        }
        rest = behind;
    }
    Ok(())
}

/// Adds numbers with a space between them, as a list.
pub fn push_numbers(
    alloc: Global,
    members: &mut Members,
    key: &str,
    words: &str,
) -> Result<(), AllocError> {
    let mut numbers = String::from_str(alloc, "[")?;
    for byte in words.as_bytes() {
        numbers.push(if *byte == b' ' { ',' } else { *byte as char })?;
    }
    numbers.push(']')?;
    members.push_written(key, numbers.as_str())
}

/// Adds names with a space between them, as a list.
pub fn push_names(
    alloc: Global,
    members: &mut Members,
    key: &str,
    words: &str,
) -> Result<(), AllocError> {
    let mut names = Vec::new(alloc);
    for word in words.split(' ') {
        names.push(word)?;
    }
    members.push(alloc, key, &names.as_slice())
}
