//! What the pools of a family share.

use sqlx_text::Moment;

/// What the pools of a family share: the numbers that come next in any of their logs, and the last moment.
#[derive(Clone, Copy)]
pub struct Shared {
    pub next_ticket: u64,
    pub next_conn: u64,
    pub last: Moment,
}
