//! Transfers: plays scripts of moves between the accounts of a bank, in nested transactions of many clients, on a pool
//! and a database in memory. Balances are rows that hold what was written; levels are those of the store, with its
//! savepoints and its undo log.
#![tactic(auto)]

mod bank;
mod command;
mod events;
mod holder;
mod level;
mod moving;
mod opening;
mod player;
mod pool;

pub use bank::Bank;
pub use command::{USAGE, run};
pub use player::{play, play_by};
pub use sqlx_play::Played;
pub use sqlx_player::{
    ErrorText, PlayError, Program, Sink, Source, StdSink, StdSource, run_program, status,
};
