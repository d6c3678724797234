//! How the line follows a step.

ghost use Rattle.std.specs.Prelude.{◌≡◌, ◌+◌, ◌-◌, ◌<◌, ◌≤◌, ◌^◌, ◌&&◌, ◌⊎◌, if◌then◌else◌};
ghost use Rattle.sqlx_pool_places.specs.Line.{ComesLast, beyond, entitled, is_below_edge, pushed};
ghost use Rattle.sqlx_pool_core.specs.KeptLine.{IsLined, IsNearlyLined, EntitlesBeyond, leaves, taken_out};
ghost use Rattle.sqlx_pool_core.specs.LonePool.{MovesOnce};
ghost use Rattle.sqlx_pool_lists.specs.PollSteps.{phase_for, is_in_line};
ghost use Rattle.sqlx_pool_lists.specs.Sound.{IsSound};

use crate::Member;
use sqlx_pool_lists::Start;
use sqlx_pool_places::{Line, Steps};
use std::alloc::Global;
use std::sync::ledger::Ledger;

// How many waiting tickets are entitled.
fn entitled(line: &Line) -> usize
    ensures { result ≡ entitled line.now }
{
    line.waiting() - line.beyond()
}

/// Whether the client's ticket waits and is entitled.
pub fn is_entitled<C>(pool: &Member<C>, line: &Line, client: u32, ticket: u64) -> bool
    ensures { result ≡ (is_in_line (phase_for client ticket pool.now.tickets) && is_below_edge ticket line.now) }
{
    line.is_entitled(ticket) && pool.waits(client, ticket)
}

/// Whether a poll's start takes its ticket out of the line, or ends it.
pub fn leaves<C>(started: &Start<C>) -> bool
    ensures { result ≡ leaves started.now }
{
    !matches!(started, Start::NotHeld | Start::Waiting | Start::Backoff(_))
}

/// A ticket joins behind all others. False for want of memory.
pub fn join<L: Ledger>(line: &mut Line, alloc: Global, ticket: u64, steps: &mut Steps<L>) -> bool
    requires last { ComesLast ticket line.old }
    requires numbered { ticket < 2 ^ 64 - 1 }
    ensures becomes { line.new ≡ (if result then pushed ticket line.old else line.old) }
    ensures cost { steps.new ≡ steps.old + 1 }
{
    line.push(alloc, ticket, steps).is_ok()
}

/// Takes a ticket that went out of the line.
pub fn take_out<L: Ledger>(line: &mut Line, ticket: u64, went: bool, steps: &mut Steps<L>)
    ensures becomes { line.new ≡ taken_out went ticket line.old }
    ensures cost { steps.new ≤ steps.old + 1 }
{
    if went {
        line.remove(ticket, steps);
    }
}

/// Moves the edge once, where a permit is free for a ticket that isn't entitled yet.
#[inline]
pub fn serve<C, L: Ledger>(pool: &Member<C>, line: &mut Line, steps: &mut Steps<L>)
    requires near { IsNearlyLined pool.now line.old }
    ensures lined { IsLined pool.now line.new }
    ensures still { IsLined pool.now line.old → line.new ≡ line.old }
    ensures cost { steps.new + beyond line.new ≡ steps.old + beyond line.old }
    ensures once { steps.new ≤ steps.old + 1 }
    ensures turns { (steps.new ≤ steps.old) ⊎ EntitlesBeyond pool.now line.old }
    ensures moves { steps.new + line.old.moves ≡ steps.old + line.new.moves }
    ensures edge { MovesOnce line.old line.new }
    ensures sound { IsSound pool.now }
{
    pool.sound();
    if line.beyond() > 0 && entitled(line) < pool.num_free() as usize {
        line.advance(steps);
    }
}
