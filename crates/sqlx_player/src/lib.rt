//! Plays scripts of any language, over any source of bytes and any sink for them.
#![tactic(auto)]

mod error;
mod failed;
mod io;
mod memory;
mod player;
mod pour;
mod program;
mod responder;
mod standard;

pub use error::{ErrorText, PlayError, outcome, status};
pub use failed::Failed;
pub use io::{Sink, Source};
pub use memory::{MemSink, MemSource, SureSink, SureSource};
pub use player::play_by;
pub use pour::write_all;
pub use program::{Program, command_words, run_program};
pub use responder::Responder;
pub use standard::{StdSink, StdSource};
