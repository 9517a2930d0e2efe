//! What the command line asks for, and how words are refused that ask for nothing.
#![tactic(auto)]

mod asking;
mod commands;
mod given;
mod joining;
mod misuse;
mod names;
mod onward;
mod options;
mod refusal;
mod rows;
mod searching;
mod table;
mod tasks;
mod words;

pub use asking::request_in;
pub use misuse::written_over;
pub use options::{EXPLAINED_CERT, USED};
pub use refusal::refuse;
pub use rows::Row;
pub use table::Asks;
pub use words::{
    Age, AnswerForm, Continued, Effort, Explained, Joining, Limit, Margin, Part, Question, Request,
    RoundsTask, Search, Task, VERSION, Why, all,
};
