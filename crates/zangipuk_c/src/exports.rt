//! The calls. A caller keeps a room of `zangipuk_room` bytes, aligned to 8, in which a pool lies from `zangipuk_open` on,
//! and makes one call on a room at a time.

ghost use Rattle.std.specs.Borrow.{full_share, sem};
ghost use Rattle.std.specs.Ptr.{lies_at, room_at};
ghost use Rattle.zangipuk_c.specs.Continues.{IsFresh, options_by};
ghost use Rattle.zangipuk_c.specs.Steps.{Steps, told_by};
ghost use Rattle.zangipuk_c.specs.Room.{lies_where};
ghost use Rattle.zangipuk_c.specs.contracts.held.Held.{the_row};

use crate::held::{Held, make};
use crate::reply::Reply;
use crate::steps::step;
use std::alloc::Global;
use std::mem::size_of;

/// How many bytes a room has.
#[unsafe(no_mangle)]
pub extern "C" fn zangipuk_room() -> usize {
    size_of::<Held>()
}

/// Opens a pool in a room: durations in nanoseconds, the largest number for none; a log is kept unless `log` is 0. Where
/// the maximum is 0 or memory is wanting, each step on it answers `NOT_HELD`.
#[unsafe(no_mangle)]
pub unsafe extern "C" fn zangipuk_open(
    alloc: Global,
    room: *mut u8,
    max: u32,
    min: u32,
    timeout: u64,
    lifetime: u64,
    idle: u64,
    log: u32,
)
    requires* { sem 𝓛 (room_at the_row room) }
    ensures* { sem 𝓛 (lies_where room (λ held. IsFresh (options_by max min timeout lifetime idle) log held.pool)) }
{
    let held = make(alloc, max, min, timeout, lifetime, idle, log);
    let at = room as *mut Held;
    at.write(held);
}

/// Makes the step of this code on the pool in a room; which numbers it looks at depends on the code. Behind the code
/// 0, by which a pool is let go, the room holds no memory.
#[unsafe(no_mangle)]
pub unsafe extern "C" fn zangipuk_step(
    room: *mut u8,
    code: u32,
    client: u32,
    ticket: u64,
    conn: u64,
    raw: u64,
    now: u64,
) -> Reply
    ghost held: { Held }
    requires* { sem 𝓛 (lies_at the_row full_share room held) }
    ensures* { sem 𝓛 (lies_where room (λ new. Steps code (told_by client ticket conn raw now) held.pool new.pool result)) }
{
    let at = room as *mut Held;
    let stepped = step(at.read(), code, client, ticket, conn, raw, now);
    at.write(stepped.0);
    stepped.1
}
