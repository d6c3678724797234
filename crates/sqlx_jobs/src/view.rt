//! What rows are read from: the database itself, or a connection at work on it.
ghost use Rattle.std.specs.Prelude.{◌≡◌, ◌<◌, ◌^◌, pos};
ghost use Rattle.std.specs.FinMap as finite;
ghost use Rattle.sqlx_savepoints.specs.Rows.{Rows};

use sqlx_play_acts::{ClientLink, MemStore};

/// What rows are read from.
pub trait View {
    // The rows.
    ghost rows: { Self → Rows };

    /// The value in the row of a key.
    fn value_at(&self, key: u64) -> Option<i64>
        requires { key < 2 ^ 63 }
        ensures { result ≡ finite.get (rows self.now) (pos key) };
}

// The committed rows.
impl View for MemStore {
    ghost rows = { λ store. store.rows };

    fn value_at(&self, key: u64) -> Option<i64> {
        self.get(key as i64)
    }
}

/// A connection at work on a database: it sees the committed rows under its own writes.
#[derive(Clone, Copy)]
pub struct AtWork<'a> {
    pub store: &'a MemStore,
    pub link: &'a ClientLink,
}

impl<'a> View for AtWork<'a> {
    ghost use Rattle.sqlx_savepoints.specs.Rows.{laid};

    ghost rows = { λ work. laid work.link.now.own work.store.now.rows };

    fn value_at(&self, key: u64) -> Option<i64> {
        self.link.seen(self.store, key as i64)
    }
}
