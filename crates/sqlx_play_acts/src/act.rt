//! The acts of a client.
ghost use Rattle.std.specs.Prelude.{◌≡◌};
ghost use Rattle.sqlx_play_acts.specs.ClientActs as spec;

/// What a client does on a connection.
#[derive(Clone, Copy)]
pub enum Act {
    /// A level is begun, and left open.
    Begin,
    /// A transaction is begun by a statement of the client's own, which begins one or doesn't.
    Custom(bool),
    /// The key's value is written.
    Put(i64, i64),
    /// The key is deleted.
    Delete(i64),
    /// The key is read.
    Get(i64),
    /// The innermost level is committed.
    Commit,
    /// The innermost level is rolled back.
    Rollback,
    /// The innermost level is left, and rolled back without a statement.
    GiveUp,
}

impl Act {
    /// Whether it ends a level.
    pub fn needs_level(&self) -> bool
        ensures { result ≡ spec.needs_level self.now }
    {
        matches!(self, Act::Commit | Act::Rollback | Act::GiveUp)
    }
}
