//! A step runner: applies numbered steps to a database in memory, each in a transaction, and keeps the number of those
//! applied in a row of the same database.
#![tactic(auto)]

mod applied;
mod apply;
mod applying;
mod by_driver;
mod command;
mod data_step;
mod database;
mod definitions;
mod runner;
mod texts;
mod work;

pub use applied::Applied;
pub use applying::apply_steps;
pub use command::{USAGE, run};
pub use data_step::DataStep;
pub use sqlx_player::{
    ErrorText, PlayError, Program, Sink, Source, StdSink, StdSource, run_program, status,
};
pub use sqlx_steps_rules::Write;
