//! A connection: pings, its cache of statements, its buffers, and closing.
ghost use Rattle.std.specs.Prelude.{◌≡◌, ◌≤◌, ⊤, ℕ, Bool, IfErr, Ok, OnOk};
ghost use Rattle.sqlx_traits.specs.Calls as call;
ghost use Rattle.sqlx_traits.specs.Faults.{CloseCause, FaultCause};

use crate::{Database, Faults};
use sqlx_text::{Depth, Error};

/// A connection to a database.
pub trait Connection<DB: Database>: Depth + Faults + Sized {
    /// Whether it closes without a refusal, whatever comes.
    ghost closes: { Self → Bool };

    /// How many statements are cached.
    ghost cached: { Self → ℕ } = { λ _. 0 };

    /// Whether something waits to be flushed.
    ghost unflushed: { Self → Bool } = { λ _. Bool.false };

    /// What a call with this answer makes of the connection; nothing is said where it is left out.
    ghost does: { call.Call → Self → call.Outcome → Self → Type 0 } = { λ _ _ _ _. ⊤ };

    /// What closing may answer; nothing is said where it is left out.
    ghost ends: { call.Closing → Self → call.Outcome → Type 0 } = { λ _ _ _. ⊤ };

    /// Closes the connection, and tells its peer. It is refused by the database or on the way to it, or for want of
    /// memory.
    fn close(self) -> Result<(), Error>
        ensures closes { IfErr result (λ _. closes self ≡ Bool.false) }
        ensures cause { IfErr result CloseCause }
        ensures ends { ends call.told self result };

    /// Closes the connection at once. It is refused as `close` is.
    fn close_hard(self) -> Result<(), Error>
        ensures closes { IfErr result (λ _. closes self ≡ Bool.false) }
        ensures cause { IfErr result CloseCause }
        ensures ends { ends call.at_once self result };

    /// Asks for a sign of life. It leaves the depth.
    fn ping(&mut self) -> Result<(), Error>
        ensures levels { Self.levels self.new ≡ Self.levels self.old }
        ensures rises { Self.faults self.old ≤ Self.faults self.new }
        ensures cause { IfErr result (FaultCause (Self.faults self.old) (Self.faults self.new)) }
        ensures does { does call.ping self.old result self.new };

    /// How many statements are cached; 0 where the driver has no cache.
    fn cached_statements_size(&self) -> usize
        ensures { result ≡ cached self.now };

    /// Forgets the cached statements. It leaves the depth.
    fn clear_cached_statements(&mut self) -> Result<(), Error>
        ensures ok { OnOk result (cached self.new ≡ 0) }
        ensures levels { Self.levels self.new ≡ Self.levels self.old }
        ensures rises { Self.faults self.old ≤ Self.faults self.new }
        ensures cause { IfErr result (FaultCause (Self.faults self.old) (Self.faults self.new)) }
        ensures does { does call.clear_cached_statements self.old result self.new };

    /// Gives back memory that isn't needed. It leaves the depth.
    fn shrink_buffers(&mut self)
        ensures levels { Self.levels self.new ≡ Self.levels self.old }
        ensures rises { Self.faults self.old ≤ Self.faults self.new }
        ensures does { does call.shrink_buffers self.old (Ok tt) self.new };

    /// Sends what waits. It leaves the depth.
    fn flush(&mut self) -> Result<(), Error>
        ensures ok { OnOk result (unflushed self.new ≡ Bool.false) }
        ensures levels { Self.levels self.new ≡ Self.levels self.old }
        ensures rises { Self.faults self.old ≤ Self.faults self.new }
        ensures cause { IfErr result (FaultCause (Self.faults self.old) (Self.faults self.new)) }
        ensures does { does call.flush self.old result self.new };

    /// Whether something waits to be flushed.
    fn should_flush(&self) -> bool
        ensures { result ≡ unflushed self.now };
}
