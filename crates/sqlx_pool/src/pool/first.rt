//! A pool that opens its first connections before any client asks.

ghost use Rattle.std.specs.Prelude.{◌≡◌, ◌≤◌, ℕ, IfErr, IfOk};
ghost use Rattle.sqlx_pool_parts.specs.Opened.{IsOpenRefusal};

use super::PoolOf;
use crate::steps::PoolSteps;
use sqlx_pool_core::Outside;
use sqlx_pool_core::idle_check::Check;
use sqlx_pool_parts::checks::{self, close_all, close_by};
use sqlx_pool_parts::filled::Filled;
use sqlx_text::{Depth, Error, Moment};
use std::alloc::Global;
use std::sync::Wait;

// Sets a new connection up by its hook, where it is set. A level that is left open is `BeginFailed`.
#[tactic(auto, using(crate::proofs::RefusalLemmas::left_open))]
fn set_up<C: Depth, O, X: Outside<C, O>>(hook: bool, given: C, out: &mut X) -> Result<C, Error>
    requires { X.depth out.old given ≡ 0 }
    ensures flat { IfOk result (λ raw. C.levels raw ≡ 0) }
    ensures counts { (X.faults out.old ≤ X.faults out.new) × (X.refusals out.old ≤ X.refusals out.new) }
    ensures refused { IfErr result (IsOpenRefusal X.depth C.levels (X.faults out.old) (X.refusals out.old) (X.faults out.new) (X.refusals out.new)) }
{
    let mut raw = given;
    match checks::hooked::<C, O, X>(hook, &mut raw, out) {
        Ok(()) => {
            if raw.depth() == 0 {
                Ok(raw)
            } else {
                close_by::<C, O, X>(Check::CloseHard, raw, out);
                Err(Error::BeginFailed)
            }
        }
        Err(error) => {
            close_by::<C, O, X>(Check::CloseHard, raw, out);
            Err(error)
        }
    }
}

impl<C: Depth + Drop, O: Drop, S: PoolSteps<C, O>> PoolOf<C, O, S> {
    // Opens the first connections; where one is refused the pool is closed, and what was opened is closed hard.
    #[tactic(auto, using(crate::proofs::RefusalLemmas::open_later))]
    pub(crate) fn connect_all<R: Wait, X: Outside<C, O>>(
        &self,
        rt: &R,
        alloc: Global,
        now: Moment,
        out: &mut X,
    ) -> Result<(), Error>
        ensures counts { (X.faults out.old ≤ X.faults out.new) × (X.refusals out.old ≤ X.refusals out.new) }
        ensures refused { IfErr result (IsOpenRefusal X.depth C.levels (X.faults out.old) (X.refusals out.old) (X.faults out.new) (X.refusals out.new)) }
    {
        let opened = self.open_first::<R, X>(rt, alloc, now, out);
        if opened.is_err() {
            let idle = self.lock(rt).close(rt, self.shared.name, &mut self.front());
            self.notify();
            close_all::<C, O, X>(Check::CloseHard, idle, out);
        }
        opened
    }

    // Opens the first connections.
    #[tactic(auto, using(crate::proofs::RefusalLemmas::open_sooner))]
    fn open_first<R: Wait, X: Outside<C, O>>(
        &self,
        rt: &R,
        alloc: Global,
        now: Moment,
        out: &mut X,
    ) -> Result<(), Error>
        ensures counts { (X.faults out.old ≤ X.faults out.new) × (X.refusals out.old ≤ X.refusals out.new) }
        ensures refused { IfErr result (IsOpenRefusal X.depth C.levels (X.faults out.old) (X.refusals out.old) (X.faults out.new) (X.refusals out.new)) }
    {
        let max = self.shared.options.get_max_connections();
        for _ in 0..max {
            match self.try_first::<R, X>(rt, alloc, now, out) {
                Ok(Filled::Opened) => {}
                Ok(_) => return Ok(()),
                Err(error) => return Err(error),
            }
        }
        Ok(())
    }

    // Tries to open one more of the first connections, where a place may be held.
    fn try_first<R: Wait, X: Outside<C, O>>(
        &self,
        rt: &R,
        alloc: Global,
        now: Moment,
        out: &mut X,
    ) -> Result<Filled, Error>
        ensures counts { (X.faults out.old ≤ X.faults out.new) × (X.refusals out.old ≤ X.refusals out.new) }
        ensures refused { IfErr result (IsOpenRefusal X.depth C.levels (X.faults out.old) (X.refusals out.old) (X.faults out.new) (X.refusals out.new)) }
    {
        let place = self.lock(rt).first_place(rt, self.shared.name, alloc);
        match place {
            Ok(true) => match self.connect_first::<R, X>(rt, alloc, out) {
                Ok(raw) => Ok(self.keep_new::<R, X>(rt, now, raw, out, &mut self.front())),
                Err(error) => {
                    self.let_go(rt, now, &mut self.front());
                    Err(error)
                }
            },
            Ok(false) => Ok(Filled::Full),
            Err(_) => Err(Error::OutOfMemory),
        }
    }

    // Opens a connection, and hands on why it was refused.
    fn connect_first<R: Wait, X: Outside<C, O>>(
        &self,
        rt: &R,
        alloc: Global,
        out: &mut X,
    ) -> Result<C, Error>
        ensures flat { IfOk result (λ raw. C.levels raw ≡ 0) }
        ensures counts { (X.faults out.old ≤ X.faults out.new) × (X.refusals out.old ≤ X.refusals out.new) }
        ensures refused { IfErr result (IsOpenRefusal X.depth C.levels (X.faults out.old) (X.refusals out.old) (X.faults out.new) (X.refusals out.new)) }
    {
        let Ok(connect) = self.connect_options(rt) else {
            return Err(Error::OutOfMemory);
        };
        let opened = checks::connected::<C, O, X>(alloc, &*connect, out);
        drop(connect);
        match opened {
            Ok(given) => set_up::<C, O, X>(self.shared.options.get_after_connect(), given, out),
            Err(error) => Err(error),
        }
    }
}
