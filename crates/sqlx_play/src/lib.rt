//! Plays scripts, over any source of bytes and any sink for them, on a stage: a pool over a database in memory, on which
//! the events are played one by one.
#![tactic(auto)]

mod outside;
mod player;
mod pool_stage;
mod stage;

pub use outside::ScriptOutside;
pub use player::play_by;
pub use pool_stage::{Played, PoolStage};
pub use sqlx_play_acts::{ByStore, Route};
pub use sqlx_player::{
    ErrorText, Failed, MemSink, MemSource, PlayError, Sink, Source, StdSink, StdSource, SureSink,
    SureSource, outcome, status, write_all,
};
pub use sqlx_script_rules::laws;
pub use stage::{Stage, answer, new_stage, report};

/// The program's name, and the words that it knows.
pub const USAGE: &str = "sqlx_play [make N X | crowd W N M]";
