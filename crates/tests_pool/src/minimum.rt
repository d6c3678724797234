//! Keeping the minimum over an outside that accepts so many connects, and refuses the next.

ghost use Rattle.std.specs.Prelude.{IsTrue};
ghost use Rattle.sqlx_pool_core.specs.Calls as call;

use sqlx_pool_core::*;
use sqlx_text::{Error, IoFault, Moment};
use std::alloc::Global;
use std::process::Abort;
use std::test::*;

// An outside that accepts so many connects, with their hooks, and refuses the next; a connection is the number 7.
#[derive(Drop)]
struct Few {
    accepts: u32,
    spent: bool,
    refused: u64,
    memory: bool,
    short: bool,
}

impl Outside<u32, ()> for Few {
    ghost faults = { λ s. s.refused };

    ghost refusals = { λ _. 0 };

    ghost depth = { λ _ _. 0 };

    ghost IsShort = { λ s. IsTrue s.short };

    ghost does = { call.Facts (λ s. s.refused) (λ _. 0) (λ _ _. 0) (λ s. IsTrue s.short) };

    fn connect(&mut self, _alloc: Global, _options: &()) -> Result<u32, Error> {
        let is_accepted = !self.spent && self.accepts > 0;
        if is_accepted {
            self.accepts -= 1;
        } else {
            self.spent = true;
            self.refused = self.refused.saturating_add(1);
        }
        if !self.memory {
            self.short = true;
            return Err(Error::OutOfMemory);
        }
        if is_accepted {
            Ok(7)
        } else {
            Err(Error::Io(IoFault::ConnectionRefused))
        }
    }

    fn ping(&mut self, _conn: &mut u32) -> Result<(), Error> {
        Ok(())
    }

    fn after_connect(
        &mut self,
        _conn: &mut u32,
        _meta: PoolConnectionMetadata,
    ) -> Result<(), Error> {
        Ok(())
    }

    fn before_acquire(
        &mut self,
        _conn: &mut u32,
        _meta: PoolConnectionMetadata,
    ) -> Result<bool, Error> {
        Ok(true)
    }

    fn after_release(
        &mut self,
        _conn: &mut u32,
        _meta: PoolConnectionMetadata,
    ) -> Result<bool, Error> {
        Ok(true)
    }

    fn depth(&self, _conn: &u32) -> usize {
        0
    }

    fn close(&mut self, _conn: u32) {}

    fn close_hard(&mut self, _conn: u32) {}

    ghost facts = { λ _ _ _ h. h };
}

#[test]
fn the_minimum_ends_at_the_first_refusal(rt: HostRuntime) -> Result<(), Fail> {
    let alloc = rt.alloc();
    for (minimum, memory, opened) in [(3, true, 2), (1, true, 1), (0, true, 0), (3, false, 0)] {
        let options = PoolOptions::new()
            .max_connections(5)
            .min_connections(minimum)
            .after_connect(true);
        let mut core = PoolCore::<u32>::new(alloc, options)?;
        let mut out = Few {
            accepts: 2,
            spent: false,
            refused: 0,
            memory,
            short: false,
        };
        let filled = core.keep_minimum(alloc, Moment(1), &(), &mut out);
        assert_eq!(rt; filled.opened, opened);
        assert_eq!(rt; filled.short, !memory);
        assert_eq!(rt; core.num_idle(), opened as usize);
    }
    Ok(())
}
