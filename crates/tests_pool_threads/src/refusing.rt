//! An outside that refuses by lists: what its connects, pings and hooks answer one after another. Behind its end a list
//! begins anew.

ghost use Rattle.std.specs.Prelude.{◌≤◌};
ghost use Rattle.sqlx_pool_core.specs.Calls as call;
ghost use Rattle.sqlx_pool_core.specs.Outside.{declines};

use crate::outside::{Conn, Counts, new_counts};
use sqlx_pool::*;
use sqlx_pool_core::Outside;
use sqlx_text::{Error, IoFault};
use std::alloc::Global;

/// What a call answers.
#[derive(Clone, Copy)]
pub enum Say {
    /// It does what it is asked for.
    Yes,
    /// A hook says no.
    No,
    /// An error that may not pass.
    Fails,
    /// An error of a connect that may pass.
    Passes,
    /// Memory is wanting for a connect.
    Short,
    /// A hook says yes, and leaves a level open.
    Level,
}

/// All say yes.
pub const YES: [Say; 6] = [Say::Yes; 6];

/// The answers of one kind of calls.
#[derive(Drop)]
pub struct Says {
    says: [Say; 6],
    at: usize,
}

impl Says {
    pub fn new(says: [Say; 6]) -> Self {
        Says { says, at: 0 }
    }

    // The next answer.
    fn next(&mut self) -> Say {
        let said = self.says[self.at % 6];
        self.at = self.at.wrapping_add(1);
        said
    }
}

/// An outside that answers by lists, and counts what it refuses.
#[derive(Drop)]
pub struct Refusing {
    pub connects: Says,
    pub pings: Says,
    pub after: Says,
    pub before: Says,
    pub release: Says,
    pub counts: Counts,
    faults: u64,
    refusals: u64,
}

impl Refusing {
    /// An outside whose connects answer so, and where all else says yes.
    pub fn new(connects: [Say; 6]) -> Self {
        Refusing {
            connects: Says::new(connects),
            pings: Says::new(YES),
            after: Says::new(YES),
            before: Says::new(YES),
            release: Says::new(YES),
            counts: new_counts(),
            faults: 0,
            refusals: 0,
        }
    }
}

// What a hook answers that may say no. A refusal is counted.
fn answers(said: Say, conn: &mut Conn, refusals: &mut u64) -> Result<bool, Error>
    ensures counted { call.IsCounted (declines result) conn.old.depth conn.new.depth refusals.old refusals.new }
    ensures rises { refusals.old ≤ refusals.new }
{
    match said {
        Say::Yes => Ok(true),
        Say::Level => {
            *refusals = refusals.saturating_add(1);
            conn.depth = 1;
            Ok(true)
        }
        Say::No => {
            *refusals = refusals.saturating_add(1);
            Ok(false)
        }
        _ => {
            *refusals = refusals.saturating_add(1);
            Err(Error::Io(IoFault::Other))
        }
    }
}

impl Outside<Conn, ()> for Refusing {
    ghost faults = { λ out. out.faults };

    ghost refusals = { λ out. out.refusals };

    ghost depth = { λ _ conn. conn.depth };

    ghost does = { call.Facts (λ out. out.faults) (λ out. out.refusals) (λ _ conn. conn.depth) (λ _. Unit {0}) };

    fn connect(&mut self, _alloc: Global, _options: &()) -> Result<Conn, Error> {
        match self.connects.next() {
            Say::Yes => {
                self.counts.opened = self.counts.opened.saturating_add(1);
                Ok(Conn { depth: 0 })
            }
            Say::Short => Err(Error::OutOfMemory),
            Say::Passes => {
                self.faults = self.faults.saturating_add(1);
                Err(Error::Io(IoFault::ConnectionRefused))
            }
            _ => {
                self.faults = self.faults.saturating_add(1);
                Err(Error::Io(IoFault::Other))
            }
        }
    }

    fn ping(&mut self, _conn: &mut Conn) -> Result<(), Error> {
        match self.pings.next() {
            Say::Yes => Ok(()),
            _ => {
                self.faults = self.faults.saturating_add(1);
                Err(Error::Io(IoFault::Other))
            }
        }
    }

    fn after_connect(
        &mut self,
        conn: &mut Conn,
        _meta: PoolConnectionMetadata,
    ) -> Result<(), Error> {
        let said = self.after.next();
        match answers(said, conn, &mut self.refusals) {
            Ok(_) => Ok(()),
            Err(error) => Err(error),
        }
    }

    fn before_acquire(
        &mut self,
        conn: &mut Conn,
        _meta: PoolConnectionMetadata,
    ) -> Result<bool, Error> {
        let said = self.before.next();
        answers(said, conn, &mut self.refusals)
    }

    fn after_release(
        &mut self,
        conn: &mut Conn,
        _meta: PoolConnectionMetadata,
    ) -> Result<bool, Error> {
        let said = self.release.next();
        answers(said, conn, &mut self.refusals)
    }

    fn depth(&self, conn: &Conn) -> usize {
        conn.depth
    }

    fn close(&mut self, _conn: Conn) {
        self.counts.closed = self.counts.closed.saturating_add(1);
    }

    fn close_hard(&mut self, _conn: Conn) {
        self.counts.closed_hard = self.counts.closed_hard.saturating_add(1);
    }

    ghost facts = { λ _ _ _ h. h };
}
