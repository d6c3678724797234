//! What is asked of the outside between two locked steps: the core's own test of an idle connection, try to open one
//! and test of one that comes back. Nothing here knows the lock. Each reads the connection's own depth last.

ghost use Rattle.std.specs.Prelude.{◌≡◌, ◌==◌, ◌⊎◌, ℕ, ◌≤◌, ◌&&◌, false, not, if◌then◌else◌, length, IfErr, IfOk, OnErr};
ghost use Rattle.sqlx_text.specs.declared.error.Error.{Error};
ghost use Rattle.sqlx_pool_core.specs.Chain.{Tests, Tries};
ghost use Rattle.sqlx_pool_core.specs.declared.idle_check.Check.{Check};
ghost use Rattle.sqlx_pool_core.specs.Outside.{HasRisen};
ghost use Rattle.sqlx_pool_core.specs.CameTo.{IfAccepted, IfOpened, IfFailed, IsForGood};
ghost use Rattle.sqlx_pool_core.specs.Giving.{Returns, is_pass};
ghost use Rattle.sqlx_pool_lists.specs.PollSteps.{judged};
ghost use Rattle.sqlx_pool_parts.specs.Checks.{Closes, ClosesAll, Hooks, IfPassed, ReturnsFlat, TestsFlat, TriesFlat, flat_check};
ghost use Rattle.sqlx_pool_parts.specs.Opened.{IfUnopened, IsCounted, TellsLevels};

use sqlx_pool_core::idle_check::{self, Check, Opening};
use sqlx_pool_core::{Outside, PoolConnectionMetadata};
use sqlx_pool_lists::{Idle, Lent, PoolOptions, Verdict};
use sqlx_text::{Depth, Error, Moment};
use std::alloc::Global;
use std::collections::VecDeque;

// The test of an idle connection asks nothing of the outside.
pub fn tests_nothing(options: &PoolOptions) -> bool
    ensures { result ≡ (not options.now.test_before_acquire && not options.now.before_acquire) }
{
    !options.get_test_before_acquire() && !options.get_before_acquire()
}

// What a check comes to where the connection's own depth is read behind it: with a level open none passes.
fn flat<C: Depth>(check: Check, raw: &C) -> Check
    ensures passed { IfPassed result (C.levels raw.now ≡ 0) }
    ensures is { result ≡ flat_check (C.levels raw.now == 0) check }
{
    match check {
        Check::Pass => {
            let levels = raw.depth();
            if levels == 0 {
                Check::Pass
            } else {
                Check::CloseHard
            }
        }
        Check::Close => Check::Close,
        Check::CloseHard => Check::CloseHard,
    }
}

// The connection passed.
pub fn passes(check: Check) -> bool
    ensures { result ≡ is_pass check }
{
    match check {
        Check::Pass => true,
        Check::Close | Check::CloseHard => false,
    }
}

// Closes a connection as a check says.
pub fn close_by<C, O, X: Outside<C, O>>(check: Check, raw: C, out: &mut X)
    ensures closes { Closes X.does check raw out.old out.new }
    ensures counts { (X.faults out.old ≤ X.faults out.new) × (X.refusals out.old ≤ X.refusals out.new) }
{
    match check {
        Check::CloseHard => out.close_hard(raw),
        Check::Pass => out.close(raw),
        Check::Close => out.close(raw),
    }
}

// Closes a connection that a poll left.
pub fn close_left<C, O, X: Outside<C, O>>(raw: C, hard: bool, out: &mut X)
    ensures closes { Closes X.does (if hard then Check.CloseHard else Check.Close) raw out.old out.new }
    ensures counts { (X.faults out.old ≤ X.faults out.new) × (X.refusals out.old ≤ X.refusals out.new) }
{
    let check = if hard { Check::CloseHard } else { Check::Close };
    close_by::<C, O, X>(check, raw, out);
}

// Closes idle connections, hard or gently, the first of them first, and tells how many.
pub fn close_all<C: Drop, O, X: Outside<C, O>>(
    check: Check,
    idle: VecDeque<Idle<C>>,
    out: &mut X,
) -> usize
    ensures closes { ClosesAll X.does check idle.items out.old out.new }
    ensures count { result ≡ length idle.items }
    ensures counts { (X.faults out.old ≤ X.faults out.new) × (X.refusals out.old ≤ X.refusals out.new) }
{
    let mut idle = idle;
    let count = idle.len();
    while let Some(first) = idle.pop_front() {
        close_by::<C, O, X>(check, first.lent.raw, out);
    }
    count
}

// Tests an idle connection at a moment, and closes what doesn't pass.
fn tested<C, O, X: Outside<C, O>>(
    options: &PoolOptions,
    idle: Idle<C>,
    moment: Moment,
    out: &mut X,
) -> Verdict<C>
    ensures tests { Tests X.does X.depth options.now moment.0 idle result out.old out.new }
    ensures judged { judged result ≡ idle.lent.id }
    ensures counts { (X.faults out.old ≤ X.faults out.new) × (X.refusals out.old ≤ X.refusals out.new) }
{
    idle_check::test::<C, O, X>(options, idle, moment, out)
}

// Tests an idle connection at a moment, and closes what doesn't pass or has a level open.
pub fn judge<C: Depth, O, X: Outside<C, O>>(
    options: &PoolOptions,
    idle: Idle<C>,
    moment: Moment,
    out: &mut X,
) -> Verdict<C>
    ensures judged { judged result ≡ idle.lent.id }
    ensures tests { TestsFlat X.does X.depth C.levels options.now moment.0 idle result out.old out.new }
    ensures flat { IfAccepted result (λ raw. C.levels raw ≡ 0) }
    ensures counts { (X.faults out.old ≤ X.faults out.new) × (X.refusals out.old ≤ X.refusals out.new) }
{
    match tested::<C, O, X>(options, idle, moment, out) {
        Verdict::Accepted(lent) => {
            if lent.raw.depth() == 0 {
                Verdict::Accepted(lent)
            } else {
                let id = lent.id;
                close_by::<C, O, X>(Check::CloseHard, lent.raw, out);
                Verdict::Refused(id)
            }
        }
        Verdict::Refused(id) => Verdict::Refused(id),
    }
}

// Runs the hook after a connect, where it is set, on a new connection.
pub fn hooked<C, O, X: Outside<C, O>>(hook: bool, raw: &mut C, out: &mut X) -> Result<(), Error>
    ensures counts { (X.faults out.old ≤ X.faults out.new) × (X.refusals out.old ≤ X.refusals out.new) }
    ensures asked { Hooks X.does hook raw.old raw.new result out.old out.new }
    ensures refused { OnErr result (HasRisen (X.refusals out.old) (X.refusals out.new)) }
    ensures left { X.depth out.old raw.old ≡ 0 → (X.depth out.new raw.new == 0) ≡ false → HasRisen (X.refusals out.old) (X.refusals out.new) }
{
    if !hook {
        return Ok(());
    }
    let meta = PoolConnectionMetadata {
        age: 0,
        idle_for: 0,
    };
    out.after_connect(raw, meta)
}

// Opens a connection.
pub fn connected<C, O, X: Outside<C, O>>(
    alloc: Global,
    connect: &O,
    out: &mut X,
) -> Result<C, Error>
    ensures counts { (X.faults out.old ≤ X.faults out.new) × (X.refusals out.old ≤ X.refusals out.new) }
    ensures refused { IfErr result (λ e. (e ≡ Error.OutOfMemory) ⊎ HasRisen (X.faults out.old) (X.faults out.new)) }
    ensures flat { IfOk result (λ raw. X.depth out.new raw ≡ 0) }
{
    out.connect(alloc, connect)
}

// Tries to open a connection, and closes one that its hook refuses.
fn tried<C, O, X: Outside<C, O>>(alloc: Global, hook: bool, connect: &O, out: &mut X) -> Opening<C>
    ensures tries { Tries X.does X.depth hook connect.now result out.old out.new }
    ensures unopened { IfUnopened result (IsCounted X.faults X.refusals out.old out.new) }
    ensures rests { IfOpened result (λ raw. X.depth out.new raw ≡ 0) }
    ensures cause { IfFailed result (λ e. IsForGood (X.faults out.old) (X.faults out.new) e) }
    ensures counts { (X.faults out.old ≤ X.faults out.new) × (X.refusals out.old ≤ X.refusals out.new) }
{
    idle_check::try_connect::<C, O, X>(alloc, hook, connect, out)
}

// Tries to open a connection, and closes one that its hook refuses or leaves with a level open.
pub fn try_open<C: Depth, O, X: Outside<C, O>>(
    alloc: Global,
    options: &PoolOptions,
    connect: &O,
    out: &mut X,
) -> Opening<C>
    ensures flat { IfOpened result (λ raw. C.levels raw ≡ 0) }
    ensures tries { TriesFlat X.does X.depth C.levels options.now.after_connect connect.now result out.old out.new }
    ensures unopened { TellsLevels X.depth C.levels → IfUnopened result (IsCounted X.faults X.refusals out.old out.new) }
    ensures cause { IfFailed result (λ e. IsForGood (X.faults out.old) (X.faults out.new) e) }
    ensures counts { (X.faults out.old ≤ X.faults out.new) × (X.refusals out.old ≤ X.refusals out.new) }
{
    match tried::<C, O, X>(alloc, options.get_after_connect(), connect, out) {
        Opening::Opened(raw) => {
            if raw.depth() == 0 {
                Opening::Opened(raw)
            } else {
                close_by::<C, O, X>(Check::CloseHard, raw, out);
                Opening::Rejected
            }
        }
        opening => opening,
    }
}

// Tests a connection that comes back, by what the outside says.
fn returned<C, O, X: Outside<C, O>>(
    hook: bool,
    raw: &mut C,
    meta: PoolConnectionMetadata,
    out: &mut X,
) -> Check
    ensures returns { Returns X.does X.depth hook meta raw.old raw.new result out.old out.new }
    ensures counts { (X.faults out.old ≤ X.faults out.new) × (X.refusals out.old ≤ X.refusals out.new) }
{
    idle_check::returns::<C, O, X>(hook, raw, meta, out)
}

// Tests a connection that comes back: by the hook after a release where it is set, by its depth, and by a ping.
pub fn may_rest<C: Depth, O, X: Outside<C, O>>(
    options: &PoolOptions,
    raw: &mut C,
    meta: PoolConnectionMetadata,
    out: &mut X,
) -> Check
    ensures flat { IfPassed result (C.levels raw.new ≡ 0) }
    ensures returns { ReturnsFlat X.does X.depth C.levels options.now.after_release meta raw.old raw.new result out.old out.new }
    ensures counts { (X.faults out.old ≤ X.faults out.new) × (X.refusals out.old ≤ X.refusals out.new) }
{
    let check = returned::<C, O, X>(options.get_after_release(), raw, meta, out);
    flat(check, raw)
}
