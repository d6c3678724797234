//! A job queue: plays scripts of it on a pool and a database in memory. Each event takes a connection of the pool, works
//! in a transaction of its own, and gives the connection back; the database has rows for who holds a job, until when,
//! and whether it is done.
#![tactic(auto)]

mod change;
mod command;
mod event;
mod keys;
mod level;
mod plan;
mod player;
mod queue;
mod rows;
mod view;

pub use command::{USAGE, run};
pub use player::{play, play_by};
pub use queue::JobQueue;
pub use sqlx_play::Played;
pub use sqlx_player::{
    ErrorText, PlayError, Program, Sink, Source, StdSink, StdSource, run_program, status,
};
