//! The program: what the words of its command line ask for, and what it does with them, over any source of bytes and any
//! sink for them.
#![tactic(auto)]

mod command;
mod crowd;
mod made;
mod player;
mod program;
mod worker;

pub use command::{Command, command_of};
pub use made::make;
pub use player::play;
pub use program::run;
pub use sqlx_play::{
    ErrorText, Failed, MemSink, MemSource, PlayError, Played, ScriptOutside, Sink, Source, StdSink,
    StdSource, SureSink, SureSource, USAGE, laws, play_by, status,
};
pub use sqlx_player::command_words;
