//! What are the words of a line called?

/// A line of an answer: how it begins, and what each word behind that is called.
#[derive(Clone, Copy)]
pub struct LineRow {
    pub begins: &'static str,
    pub keys: &'static [&'static str],
}

/// The first of these rows that a line is of, and the words behind its beginning.
pub fn row_of<'a>(rows: &[LineRow], line: &'a str) -> Option<(LineRow, &'a str)> {
    for row in rows {
        if let Some(rest) = line.strip_prefix(row.begins) {
            if rest.is_empty() {
                return Some((*row, rest));
            }
            if let Some(words) = rest.strip_prefix(' ') {
                return Some((*row, words));
            }
        }
    }
    None
}
