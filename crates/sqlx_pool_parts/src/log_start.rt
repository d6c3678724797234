//! Where the log of a pool begins, and when it is cut.

ghost use Rattle.std.specs.Prelude.{◌≡◌, ◌≤◌};
ghost use Rattle.sqlx_pool_parts.specs.LogStart.{is_long};

/// Which of a log's marks are its start, what a cut forgot, and how long it may become behind its start.
#[derive(Clone, Copy, PartialEq, Eq)]
pub struct LogStart {
    /// How many marks the start has: none in a log that was never cut.
    pub len: usize,
    /// How many loans are neither in the start nor behind it.
    pub lent_before: u64,
    /// How many marks behind the start make the log one to be cut. None: it isn't cut unless it is told to be.
    pub limit: Option<usize>,
}

impl LogStart {
    /// The log is to be cut, where it has so many marks in all: behind the start there are at least as many as the limit,
    /// and as the start has. So a cut passes no more marks than twice those that were made since the last one.
    pub fn is_long(&self, marks: usize) -> bool
        requires { self.now.len ≤ marks }
        ensures { result ≡ is_long self.now marks }
    {
        match self.limit {
            Some(limit) => limit <= marks - self.len && self.len <= marks - self.len,
            None => false,
        }
    }
}
