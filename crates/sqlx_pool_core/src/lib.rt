//! The connection pool as a pure state machine.
//!
//! [`PoolCore`] decides who gets which connection and when. It makes no connection, waits for nobody and
//! reads no clock: each call is one step, given the moment at which it happens. What the steps did is told
//! by a list of [`Mark`]s, and every rule of the pool is a definition over such a list (`specs/`).
//!
//! A [`Member`] is one pool, alone or of a family: its lists, its permits, and its steps. It is told whether a ticket is
//! entitled and whether the line lets a connection pass: a pool that is alone knows that by its own line, a family by the
//! lines of its pools. What the outside is asked between two steps stands here too.
#![tactic(auto)]

pub mod idle_check;
mod member;
mod outside;
mod pool_core;

pub use member::Member;
pub use outside::{Outside, PoolConnectionMetadata};
pub use pool_core::PoolCore;
pub use sqlx_pool_lists::{
    AfterConnect, AfterTest, CloseState, Given, Idle, Lent, Numbers, Openings, Polled, PoolOptions,
    Returned, Shared, Start, Tried, Verdict,
};
pub use sqlx_pool_marks::{Mark, laws};
pub use sqlx_pool_places::{Line, Steps, Took};
