//! What the outside says of a connection: a test of an idle one, a try to open one, and a test of one that comes back.
//! Whoever makes the pool's single steps asks the outside by these between them, as the whole polls do.

ghost use Rattle.std.specs.Prelude.{◌≡◌, ◌-◌};
ghost use Rattle.sqlx_pool_core.specs.Giving.{Releases, PingsIf, Returns};
ghost use Rattle.sqlx_pool_core.specs.Outside.{is_transient};
ghost use Rattle.sqlx_pool_core.specs.Chain.{Pings, Looks, Checks, Tests, SetsUp, Readies, Tries, refused};

use crate::outside::{Outside, PoolConnectionMetadata};
use sqlx_pool_lists::{Idle, Lent, PoolOptions, Verdict};
use sqlx_text::{Error, IoFault, Moment};
use std::alloc::Global;

/// What a test makes of a connection.
#[derive(Clone, Copy, PartialEq, Eq)]
pub enum Check {
    Pass,
    Close,
    CloseHard,
}

/// What a try to open a connection came to.
pub enum Opening<C> {
    /// It was opened, and the hook let it pass.
    Opened(C),
    /// It was opened, and the hook refused it.
    Rejected,
    /// It was refused for a cause that may pass.
    Transient,
    /// It was refused for another cause.
    Failed(Error),
}

/// The refusal of a connect may pass.
pub fn is_transient(error: &Error) -> bool
    ensures { result ≡ is_transient error.now }
{
    match error {
        Error::Io(fault) => matches!(fault, IoFault::ConnectionRefused),
        Error::Database(fault) => fault.transient,
        _ => false,
    }
}

// The connection answers a ping, where one is asked for.
fn pings<C, O, X: Outside<C, O>>(ping: bool, raw: &mut C, out: &mut X) -> bool
    ensures { Pings X.does X.depth ping raw.old raw.new result out.old out.new }
{
    if ping {
        let answer = out.ping(raw);
        let answered = answer.is_ok();
        drop(answer);
        answered
    } else {
        true
    }
}

// What the hook before an acquire makes of a connection, where it is set.
fn looks<C, O, X: Outside<C, O>>(
    hook: bool,
    raw: &mut C,
    meta: PoolConnectionMetadata,
    out: &mut X,
) -> Check
    ensures { Looks X.does X.depth hook meta raw.old raw.new result out.old out.new }
{
    if !hook {
        return Check::Pass;
    }
    let said = out.before_acquire(raw, meta);
    let depth = out.depth(raw);
    let check = match &said {
        Ok(true) if depth == 0 => Check::Pass,
        Ok(false) => Check::Close,
        _ => Check::CloseHard,
    };
    drop(said);
    check
}

// A ping and then the hook before an acquire, where they are set.
fn check_of<C, O, X: Outside<C, O>>(
    options: &PoolOptions,
    raw: &mut C,
    meta: PoolConnectionMetadata,
    out: &mut X,
) -> Check
    ensures { Checks X.does X.depth options.now meta raw.old raw.new result out.old out.new }
{
    if !pings::<C, O, X>(options.get_test_before_acquire(), raw, out) {
        return Check::CloseHard;
    }
    looks::<C, O, X>(options.get_before_acquire(), raw, meta, out)
}

/// Tests an idle connection, and closes what doesn't pass.
pub fn test<C, O, X: Outside<C, O>>(
    options: &PoolOptions,
    idle: Idle<C>,
    moment: Moment,
    out: &mut X,
) -> Verdict<C>
    ensures { Tests X.does X.depth options.now moment.0 idle result out.old out.new }
{
    let Idle { lent, since } = idle;
    let meta = PoolConnectionMetadata {
        age: moment.0.saturating_sub(lent.created.0),
        idle_for: moment.0.saturating_sub(since.0),
    };
    let Lent {
        id,
        created,
        mut raw,
    } = lent;
    match check_of::<C, O, X>(options, &mut raw, meta, out) {
        Check::Pass => return Verdict::Accepted(Lent { id, created, raw }),
        Check::Close => out.close(raw),
        Check::CloseHard => out.close_hard(raw),
    }
    Verdict::Refused(id)
}

// The hook after a connect lets a new connection pass, where it is set. It is told an age of 0.
fn sets_up<C, O, X: Outside<C, O>>(hook: bool, raw: &mut C, out: &mut X) -> bool
    ensures { SetsUp X.does X.depth hook raw.old raw.new result out.old out.new }
{
    if !hook {
        return true;
    }
    let meta = PoolConnectionMetadata {
        age: 0,
        idle_for: 0,
    };
    match out.after_connect(raw, meta) {
        Ok(()) => out.depth(raw) == 0,
        Err(error) => {
            drop(error);
            false
        }
    }
}

// Sets a new connection up, or closes it.
fn readies<C, O, X: Outside<C, O>>(hook: bool, given: C, out: &mut X) -> Opening<C>
    ensures { Readies X.does X.depth hook given result out.old out.new }
{
    let mut raw = given;
    if sets_up::<C, O, X>(hook, &mut raw, out) {
        Opening::Opened(raw)
    } else {
        out.close_hard(raw);
        Opening::Rejected
    }
}

// What a refused connect comes to.
fn refused<C>(error: Error) -> Opening<C>
    ensures { result ≡ refused error }
{
    if is_transient(&error) {
        drop(error);
        Opening::Transient
    } else {
        Opening::Failed(error)
    }
}

/// Opens a connection, and runs the hook after a connect where it is set.
pub fn try_connect<C, O, X: Outside<C, O>>(
    alloc: Global,
    hook: bool,
    options: &O,
    out: &mut X,
) -> Opening<C>
    ensures { Tries X.does X.depth hook options.now result out.old out.new }
{
    match out.connect(alloc, options) {
        Ok(given) => readies::<C, O, X>(hook, given, out),
        Err(error) => refused(error),
    }
}

// The hook after a release, where it is set, and the open levels.
fn releases<C, O, X: Outside<C, O>>(
    hook: bool,
    raw: &mut C,
    meta: PoolConnectionMetadata,
    out: &mut X,
) -> Check
    ensures { Releases X.does X.depth hook meta raw.old raw.new result out.old out.new }
{
    if !hook {
        return if out.depth(raw) == 0 {
            Check::Pass
        } else {
            Check::CloseHard
        };
    }
    let said = out.after_release(raw, meta);
    let depth = out.depth(raw);
    let check = match &said {
        Ok(true) if depth == 0 => Check::Pass,
        Ok(false) => Check::Close,
        _ => Check::CloseHard,
    };
    drop(said);
    check
}

// The ping of a connection that passed so far.
fn pings_if<C, O, X: Outside<C, O>>(check: Check, raw: &mut C, out: &mut X) -> Check
    ensures { PingsIf X.does X.depth check raw.old raw.new result out.old out.new }
{
    match check {
        Check::Pass => {
            let answer = out.ping(raw);
            let answered = answer.is_ok();
            drop(answer);
            if answered {
                Check::Pass
            } else {
                Check::CloseHard
            }
        }
        Check::Close => Check::Close,
        Check::CloseHard => Check::CloseHard,
    }
}

/// Tests a connection that comes back: by the hook after a release where it is set, by its open levels, and by a ping.
pub fn returns<C, O, X: Outside<C, O>>(
    hook: bool,
    raw: &mut C,
    meta: PoolConnectionMetadata,
    out: &mut X,
) -> Check
    ensures { Returns X.does X.depth hook meta raw.old raw.new result out.old out.new }
{
    let so_far = releases::<C, O, X>(hook, raw, meta, out);
    pings_if::<C, O, X>(so_far, raw, out)
}
