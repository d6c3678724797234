//! The pool's rules for callers that aren't written in Rattle: `zangipuk_open` and `zangipuk_step`.
//!
//! The caller keeps the room that a pool lies in, its connections, the lock and the clock; a connection is a number of
//! the caller's here, its token. Whatever numbers a step is told, its answer is one of the pool's.
#![tactic(auto)]

mod exports;
mod held;
mod marks;
mod notes;
mod record;
mod reply;
mod steps;
mod told;

pub use held::Held;
pub use reply::Reply;
