//! The language of scripts, in both directions: what a line of a script says, and the texts of the replies to it.
//! Nothing here knows what the events do to a pool.
#![tactic(auto)]

mod answers;
mod fields;
mod front;
mod kinds;
pub mod laws;
mod letters;
mod names;
mod numbers;
mod pool_line;
mod reading;
mod reply;
mod report;
mod step;

pub use answers::{
    AfterConnectAnswer, ConnectAnswer, GiveAnswers, HookAnswer, PollAnswers, StatementAnswer,
};
pub use pool_line::PoolLine;
pub use reading::{read_event, read_pool_line};
pub use reply::Reply;
pub use report::Report;
pub use sqlx_savepoints::LevelText;
pub use step::{Event, Step};
