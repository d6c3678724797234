//! The lines of a script of any language: its lines, words, numbers and values, read from the front, and the value in
//! which lines of output are made.
#![tactic(auto)]

mod first_line;
mod front;
mod lines;
mod numbers;
mod output_line;
mod words;

pub use first_line::FirstLine;
pub use front::{ends_word, has_newline};
pub use lines::cut_line;
pub use numbers::{NANOS, number_in};
pub use output_line::{OutputLine, push_integer, push_number};
pub use words::Words;
