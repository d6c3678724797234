//! What the pool asks of its outside: connects, pings, hooks, and closing.

ghost use Rattle.std.specs.Prelude.{◌≡◌, ℕ};
ghost use Rattle.sqlx_pool_core.specs.Calls as call;

use sqlx_text::Error;
use std::alloc::Global;

/// What a hook is told of a connection. Durations are in nanoseconds.
#[derive(Clone, Copy, Debug, PartialEq, Eq)]
pub struct PoolConnectionMetadata {
    /// Since its opening.
    pub age: u64,
    /// How long it rested; 0 but for `before_acquire`.
    pub idle_for: u64,
}

/// The outside of a pool, whose connections are of the type `C` and are opened by options of the type `O`.
///
/// An outside says by `does` what each call made of it, as far as its users want to know; the pool's whole polls,
/// returns and keepings of the minimum then tell which calls were made, in order. One that says nothing of its own
/// takes for `does` the facts that are taken for granted.
pub trait Outside<C, O> {
    /// How often a connect or a ping was refused; it never falls.
    ghost faults: { Self → ℕ };

    /// How often a hook refused, failed, or left a level open; it never falls.
    ghost refusals: { Self → ℕ };

    /// How many transaction levels of a connection are open.
    ghost depth: { Self → C → ℕ };

    /// A connect wanted memory, and no other call came since. An outside that doesn't tell it leaves it out.
    ghost IsShort: { Self → Type 0 } = { λ _. Unit {0} };

    /// What a call, with what it was handed and what it answered, makes of the outside.
    ghost does: { call.Call C O → Self → Self → Type 0 };

    /// Opens a connection, which has no level open.
    fn connect(&mut self, alloc: Global, options: &O) -> Result<C, Error>
        ensures { does (call.connect options.now result) self.old self.new };

    /// Asks a connection for a sign of life. It leaves the depth, and opens no level of another connection.
    fn ping(&mut self, conn: &mut C) -> Result<(), Error>
        ensures { does (call.ping conn.old result conn.new) self.old self.new };

    /// Sets a new connection up.
    fn after_connect(&mut self, conn: &mut C, meta: PoolConnectionMetadata) -> Result<(), Error>
        ensures { does (call.after_connect conn.old meta result conn.new) self.old self.new };

    /// Looks at an idle connection before it is lent; false closes it.
    fn before_acquire(&mut self, conn: &mut C, meta: PoolConnectionMetadata) -> Result<bool, Error>
        ensures { does (call.before_acquire conn.old meta result conn.new) self.old self.new };

    /// Looks at a connection that comes back; false closes it.
    fn after_release(&mut self, conn: &mut C, meta: PoolConnectionMetadata) -> Result<bool, Error>
        ensures { does (call.after_release conn.old meta result conn.new) self.old self.new };

    /// How many transaction levels of a connection are open.
    fn depth(&self, conn: &C) -> usize
        ensures { result ≡ depth self.now conn.now };

    /// Closes a connection. It opens no level of another.
    fn close(&mut self, conn: C)
        ensures { does (call.close conn) self.old self.new };

    /// Closes a connection without a farewell. It opens no level of another.
    fn close_hard(&mut self, conn: C)
        ensures { does (call.close_hard conn) self.old self.new };

    /// What is taken for granted of each call.
    ghost facts: { (c : call.Call C O) (old new : Self) → does c old new → call.Facts faults refusals depth IsShort c old new };
}
