//! Tenants of one database: each has a budget of connections, all share the permits of one root, and a caller's turn
//! comes in the order of asking.
#![tactic(auto)]

mod answering;
mod asking;
mod at;
mod closing;
mod coming;
mod counts;
mod desk;
mod giving;
mod polling;
mod program;
mod retiring;
mod setup;

pub use desk::TenantDesk;
pub use program::{play, run};
pub use sqlx_family::Family;
pub use sqlx_player::{
    ErrorText, PlayError, Program, Sink, Source, StdSink, StdSource, run_program, status,
};

/// How the program is used: by its name alone.
pub const USAGE: &str = "sqlx_tenants";
