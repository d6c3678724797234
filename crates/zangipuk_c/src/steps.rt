//! The steps of a pool, each with its answer and its marks behind the log.

ghost use Rattle.std.specs.Prelude.{◌≡◌, ◌+◌, true, is_some, option_map, drop};
ghost use Rattle.sqlx_pool_lists.specs.PollSteps.{phase_for, is_in_line};
ghost use Rattle.zangipuk_c.specs.declared.told.Step.{Step};
ghost use Rattle.zangipuk_c.specs.Continues.{Continues};
ghost use Rattle.zangipuk_c.specs.Told.{now_of};
ghost use Rattle.sqlx_pool_core.specs.Logs.{moment_of};
ghost use Rattle.zangipuk_c.specs.Answers.{Answers, left_after, tested, connected, given, filled, left_by_close, log_reply, noted_reply, is_question};
ghost use Rattle.zangipuk_c.specs.Steps.{IsStep, Steps, told_by};

use crate::held::{Held, Kept};
use crate::reply::{
    self, CLOSED, DONE, EXHAUSTED, NONE, NOT_HELD, OUT_OF_MEMORY, Reply, done, number, plain,
};
use crate::told::{FREE, Step, Told, step_by};
use crate::{marks, notes};
use sqlx_pool_core::{Mark, PoolCore, Tried};
use sqlx_text::{Error, Moment};

// When a ticket that is asked for now has no time left.
fn deadline(core: &PoolCore<u64>, now: Moment) -> u128
    ensures { result ≡ moment_of core.now.pool now + core.now.pool.options.acquire_timeout }
{
    let moment = core.moment(now);
    u128::from(moment.0) + u128::from(core.options().get_acquire_timeout())
}

// A ticket at the end of the line, or why not.
fn ask(kept: &mut Kept, told: Told) -> Reply
    ensures continues { Continues kept.old kept.new }
    ensures left { kept.new.left ≡ kept.old.left }
    ensures answer { Answers Step.Ask told kept.old result }
{
    let deadline = deadline(&kept.core, told.moment());
    match kept.core.ask(kept.alloc, told.moment(), told.client) {
        Ok(ticket) => {
            let client = told.client;
            notes::if_so(
                &mut kept.log,
                true,
                Mark::Asked {
                    ticket,
                    client,
                    deadline,
                },
            );
            number(DONE, ticket)
        }
        Err(Error::PoolClosed) => plain(CLOSED),
        Err(Error::Exhausted) => plain(EXHAUSTED),
        Err(error) => {
            drop(error);
            plain(OUT_OF_MEMORY)
        }
    }
}

// Whether the ticket waits, for a log that is kept: nobody else asks.
fn waited(kept: &Kept, told: Told) -> bool
    ensures { is_some kept.now.log ≡ true → result ≡ is_in_line (phase_for told.client told.ticket kept.now.core.pool.tickets) }
{
    kept.log.is_some() && kept.core.waits(told.client, told.ticket)
}

// A poll begins.
fn start(kept: &mut Kept, told: Told) -> Reply
    ensures continues { Continues kept.old kept.new }
    ensures left { kept.new.left ≡ kept.old.left }
    ensures answer { Answers Step.Start told kept.old result }
{
    let waited = waited(kept, told);
    let started = kept.core.start(told.client, told.ticket, told.moment());
    notes::start(&mut kept.log, told.ticket, waited, &started);
    reply::start(started)
}

// What a test came to.
fn test(kept: &mut Kept, told: Told, accepted: bool) -> Reply
    ensures continues { Continues kept.old kept.new }
    ensures left { kept.new.left ≡ kept.old.left }
    ensures answer { result ≡ tested kept.old.core.pool told accepted }
{
    let verdict = told.verdict(accepted);
    let after = kept.core.finish_test(told.client, told.ticket, verdict);
    notes::test(&mut kept.log, told.client, told.ticket, told.conn, &after);
    reply::after_test(after)
}

// What a try of a connect came to.
fn connect(kept: &mut Kept, told: Told, tried: Tried<u64>) -> Reply
    ensures continues { Continues kept.old kept.new }
    ensures left { kept.new.left ≡ kept.old.left }
    ensures answer { result ≡ connected kept.old.core.pool told tried }
{
    let moment = kept.core.moment(told.moment());
    let after = kept
        .core
        .finish_connect(told.client, told.ticket, told.moment(), tried);
    notes::connect(&mut kept.log, told.client, told.ticket, moment.0, &after);
    reply::after_connect(after)
}

// A ticket is given up.
fn cancel(kept: &mut Kept, told: Told) -> Reply
    ensures continues { Continues kept.old kept.new }
    ensures left { kept.new.left ≡ kept.old.left }
    ensures answer { Answers Step.Cancel told kept.old result }
{
    let ends = kept.core.cancel(told.client, told.ticket);
    notes::if_so(
        &mut kept.log,
        ends,
        Mark::Ended {
            ticket: told.ticket,
        },
    );
    done(ends)
}

// A connection comes back.
fn give(kept: &mut Kept, told: Told, accepted: bool) -> Reply
    ensures continues { Continues kept.old kept.new }
    ensures left { kept.new.left ≡ kept.old.left }
    ensures answer { result ≡ given kept.old.core.pool told accepted }
{
    let moment = kept.core.moment(told.moment());
    let given = kept
        .core
        .give(told.client, told.lent(), told.moment(), accepted);
    notes::give(&mut kept.log, told.conn, moment.0, &given);
    reply::given(given)
}

// A loan ends.
fn end(kept: &mut Kept, told: Told) -> Reply
    ensures continues { Continues kept.old kept.new }
    ensures left { kept.new.left ≡ kept.old.left }
    ensures answer { Answers Step.End told kept.old result }
{
    let ends = kept.core.end(told.client, told.conn);
    notes::if_so(&mut kept.log, ends, Mark::Closed { conn: told.conn });
    done(ends)
}

// A connection leaves.
fn detach(kept: &mut Kept, told: Told) -> Reply
    ensures continues { Continues kept.old kept.new }
    ensures left { kept.new.left ≡ kept.old.left }
    ensures answer { Answers Step.Detach told kept.old result }
{
    let ends = kept.core.detach(told.client, told.conn);
    notes::if_so(&mut kept.log, ends, Mark::Detached { conn: told.conn });
    done(ends)
}

// A connection leaves, and keeps its place.
fn leak(kept: &mut Kept, told: Told) -> Reply
    ensures continues { Continues kept.old kept.new }
    ensures left { kept.new.left ≡ kept.old.left }
    ensures answer { Answers Step.Leak told kept.old result }
{
    let ends = kept.core.leak(told.client, told.conn);
    notes::if_so(&mut kept.log, ends, Mark::Leaked { conn: told.conn });
    done(ends)
}

// The number of the next ticket, and when its time would be up, for a log that is kept: nobody else asks.
fn next_ask(kept: &Kept, told: Told) -> (u64, u128)
    ensures ticket { is_some kept.now.log ≡ true → result.0 ≡ kept.now.core.pool.next_ticket }
    ensures deadline { is_some kept.now.log ≡ true → result.1 ≡ moment_of kept.now.core.pool (now_of told) + kept.now.core.pool.options.acquire_timeout }
{
    if kept.log.is_none() {
        return (0, 0);
    }
    let ticket = kept.core.numbers().next_ticket;
    (ticket, deadline(&kept.core, told.moment()))
}

// The first idle connection, where nobody has a ticket.
fn serve_new(kept: &mut Kept, told: Told) -> Reply
    ensures continues { Continues kept.old kept.new }
    ensures left { kept.new.left ≡ kept.old.left }
    ensures answer { Answers Step.ServeNew told kept.old result }
{
    let (ticket, deadline) = next_ask(kept, told);
    let lent = kept.core.serve_new(told.moment(), told.client);
    notes::serve(&mut kept.log, told.client, ticket, deadline, &lent);
    reply::lend(lent)
}

// The first idle connection, past the line.
fn try_acquire(kept: &mut Kept, told: Told) -> Reply
    ensures continues { Continues kept.old kept.new }
    ensures left { kept.new.left ≡ kept.old.left }
    ensures answer { Answers Step.TryAcquire told kept.old result }
{
    let lent = kept.core.try_acquire(told.moment(), told.client);
    notes::lend_past(&mut kept.log, told.client, &lent);
    reply::lend(lent)
}

// An idle connection that is to be closed.
fn reap(kept: &mut Kept, told: Told) -> Reply
    ensures continues { Continues kept.old kept.new }
    ensures left { kept.new.left ≡ kept.old.left }
    ensures answer { Answers Step.Reap told kept.old result }
{
    let reaped = kept.core.reap(told.moment());
    notes::reap(&mut kept.log, &reaped);
    reply::take(reaped)
}

// A place for a connection of the minimum.
fn place(kept: &mut Kept, told: Told) -> Reply
    ensures continues { Continues kept.old kept.new }
    ensures left { kept.new.left ≡ kept.old.left }
    ensures answer { Answers Step.MinimumPlace told kept.old result }
{
    done(kept.core.minimum_place())
}

// What came of a place.
fn fill(kept: &mut Kept, told: Told, raw: Option<u64>) -> Reply
    ensures continues { Continues kept.old kept.new }
    ensures left { kept.new.left ≡ kept.old.left }
    ensures answer { result ≡ filled kept.old.core.pool raw }
{
    if kept.core.num_places() == 0 {
        return plain(NOT_HELD);
    }
    let opens = !kept.core.is_closed() && raw.is_some();
    let conn = kept.core.numbers().next_conn;
    let moment = kept.core.moment(told.moment());
    let back = kept.core.minimum_done(told.moment(), raw);
    notes::open_if(&mut kept.log, opens, conn, moment.0);
    reply::filled(back)
}

// Closes the pool; its idle connections are told one by one.
fn close(kept: &mut Kept, told: Told) -> Reply
    ensures continues { Continues kept.old kept.new }
    ensures left { kept.new.left.items ≡ drop 1 (left_by_close kept.old) }
    ensures answer { Answers Step.Close told kept.old result }
{
    if !kept.core.is_closed() {
        kept.core.bounds();
        kept.left = kept.core.close();
        notes::close(&mut kept.log, false, &kept.left);
    }
    next_left(kept, told)
}

// The next idle connection that a close took out.
fn next_left(kept: &mut Kept, told: Told) -> Reply
    ensures core { kept.new.core ≡ kept.old.core }
    ensures log { kept.new.log ≡ kept.old.log }
    ensures left { kept.new.left.items ≡ drop 1 kept.old.left.items }
    ensures answer { Answers Step.NextLeft told kept.old result }
{
    reply::take(kept.left.pop_front())
}

// How long the log is, if one is kept.
fn log_length(kept: &Kept) -> Reply
    ensures { result ≡ log_reply (option_map (λ log. log.items) kept.now.log) }
{
    match &kept.log {
        Some(log) => number(DONE, log.len() as u64),
        None => plain(NONE),
    }
}

// A mark of the log.
fn mark_at(kept: &Kept, at: u64) -> Reply
    ensures { result ≡ noted_reply at (option_map (λ log. log.items) kept.now.log) }
{
    match &kept.log {
        Some(log) => match log.get(at as usize) {
            Some(mark) => marks::mark(*mark),
            None => plain(NONE),
        },
        None => plain(NONE),
    }
}

// What changes nothing.
fn question(kept: &Kept, step: Step, told: Told) -> Reply
    ensures { is_question step ≡ true → Answers step told kept.now result }
{
    let core = &kept.core;
    match step {
        Step::Closing => reply::closing(core.closing()),
        Step::Size => number(DONE, u64::from(core.size())),
        Step::NumIdle => number(DONE, core.num_idle() as u64),
        Step::NumHeld => number(DONE, core.num_held() as u64),
        Step::NumLeaked => number(DONE, u64::from(core.num_leaked())),
        Step::NumTickets => number(DONE, core.num_tickets() as u64),
        Step::LogLength => log_length(kept),
        Step::MarkAt => mark_at(kept, told.ticket),
        _ => plain(NOT_HELD),
    }
}

// A step, but for the edge.
fn make(kept: &mut Kept, step: Step, told: Told) -> Reply
    ensures continues { Continues kept.old kept.new }
    ensures left { kept.new.left.items ≡ left_after step kept.old }
    ensures answer { Answers step told kept.old result }
{
    match step {
        Step::Ask => ask(kept, told),
        Step::Start => start(kept, told),
        Step::TestAccepted => test(kept, told, true),
        Step::TestRefused => test(kept, told, false),
        Step::Opened => connect(kept, told, Tried::Opened(told.raw)),
        Step::Rejected => connect(kept, told, Tried::Rejected),
        Step::Transient => connect(kept, told, Tried::Transient),
        Step::Fatal => connect(kept, told, Tried::Fatal),
        Step::Cancel => cancel(kept, told),
        Step::Give => give(kept, told, true),
        Step::GiveRefused => give(kept, told, false),
        Step::End => end(kept, told),
        Step::Detach => detach(kept, told),
        Step::Leak => leak(kept, told),
        Step::ServeNew => serve_new(kept, told),
        Step::TryAcquire => try_acquire(kept, told),
        Step::Reap => reap(kept, told),
        Step::MinimumPlace => place(kept, told),
        Step::MinimumOpened => fill(kept, told, Some(told.raw)),
        Step::MinimumFailed => fill(kept, told, None),
        Step::Close => close(kept, told),
        Step::NextLeft => next_left(kept, told),
        _ => question(kept, step, told),
    }
}

// A step, with the edge behind it.
fn make_edged(kept: &mut Kept, step: Step, told: Told) -> Reply
    ensures { IsStep step told kept.old kept.new result }
{
    let said = make(kept, step, told);
    let edge = kept.core.edge();
    Reply { edge, ..said }
}

/// Makes the step of this code on what lies in a room, and answers it with what lies there then.
pub fn step(
    held: Held,
    code: u32,
    client: u32,
    ticket: u64,
    conn: u64,
    raw: u64,
    now: u64,
) -> (Held, Reply)
    ensures { Steps code (told_by client ticket conn raw now) held.pool result.0.pool result.1 }
{
    let Held { pool } = held;
    let Some(kept) = pool else {
        return (Held { pool: None }, plain(NOT_HELD));
    };
    if code == FREE {
        drop(kept);
        return (Held { pool: None }, plain(DONE));
    }
    let told = Told {
        client,
        ticket,
        conn,
        raw,
        now,
    };
    let mut kept = kept;
    let reply = make_edged(&mut kept, step_by(code), told);
    (Held { pool: Some(kept) }, reply)
}
