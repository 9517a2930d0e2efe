//! Texts of lines: cutting them, their keywords and numbers, writing words and numbers, and telling pieces of a refused text.
#![tactic(auto)]

mod laws;
mod number;
mod parts;
mod told;
mod told_laws;
mod told_lines;
mod words;

pub use laws::{
    joined_text_is_cut_there, keyword_is_left_off, number_word_is_the_spelling,
    numbers_lack_other_bytes,
};
pub use number::{NumberWord, number_word, push_number};
pub use parts::{after_keyword, cut};
pub use told::{MOST_TOLD, Told, put_told};
pub use told_laws::{
    printable_is_told_as_it_is, told_is_a_beginning, told_is_printable, told_is_short,
};
pub use told_lines::{numbered_line, put_line};
pub use words::{push_number_word, push_word};
