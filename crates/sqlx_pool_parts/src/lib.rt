//! What a pool that threads share is made of, apart from its lock: the books of what is held and lent, the log's start
//! and how marks are written behind it, the hooks and what else is asked of the outside, and where waiting tickets sleep.
//!
//! `sqlx_pool` and `sqlx_family_pool` put these under a lock.
#![tactic(auto)]

pub mod answers;
pub mod books;
pub mod checks;
mod clock;
pub mod filled;
mod hooks;
mod log_start;
mod mark_log;
mod options_connector;
mod parts;
pub mod record;
pub mod sleepers;
pub mod taken;
mod tally;

pub use clock::{Clock, FixedClock};
pub use hooks::{Hooks, NoHooks};
pub use log_start::LogStart;
pub use mark_log::MarkLog;
pub use options_connector::OptionsConnector;
pub use parts::Parts;
pub use tally::{Held, Loans, Tally};
