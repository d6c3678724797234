//! Applies steps.
ghost use Rattle.std.specs.Prelude.{◌≡◌, ◌+◌, ◌<◌, ◌≤◌, ◌^◌, ℕ, pos, negsuc, length};
ghost use Rattle.sqlx_savepoints.specs.Rows.{Rows};
ghost use Rattle.sqlx_steps_rules.specs.Rules.{all_changed};
ghost use Rattle.sqlx_steps.specs.AtWork.{IsAtRest, IsWithin};
ghost use Rattle.sqlx_steps.specs.Texts.{Text, Texts, WritesRan, StepRan, stepped, stops_within};
ghost use Rattle.sqlx_steps.specs.Texts as spec;
ghost use Rattle.sqlx_steps.specs.Applies.{number_of, TellsVersion, IsAtVersion, Applies};

use crate::applied::Applied;
use crate::data_step::DataStep;
use crate::texts;
use crate::texts::Ran;
use crate::work::Work;
use sqlx_steps_rules::Write;
use std::alloc::Global;

/// The key of the row that holds the version.
pub const VERSION_KEY: i64 = -1;

// A row holds no version as large as this, and no memory has as many steps.
const TOO_MANY: u64 = 1 << 63;

// Runs the statements of a step.
fn run_statements<W: Work>(alloc: Global, work: &mut W, step: &DataStep, left: &mut u64) -> Ran
    ensures { (n : ℕ) (before rows : Rows) → IsWithin (W.store work.old) (W.link work.old) n before rows
        → WritesRan n before (all_changed step.now rows) (length step.now) left.old left.new result (W.store work.new) (W.link work.new) }
{
    let statements = step.statements();
    for write in statements {
        let ran = texts::write(alloc, work, *write, left);
        match ran {
            Ran::All => {}
            Ran::Refused | Ran::Wanting => return ran,
        }
    }
    Ran::All
}

// The write of a version.
fn version_write(version: u64) -> Write
    requires { version < 2 ^ 63 }
    ensures { result ≡ Write.Put (negsuc 0) (pos version) }
{
    Write::Put {
        key: VERSION_KEY,
        value: version as i64,
    }
}

// Runs the statements of a step, and then the write of the version.
fn run_writes<W: Work>(
    alloc: Global,
    work: &mut W,
    step: &DataStep,
    version: u64,
    left: &mut u64,
) -> Ran
    requires { version < 2 ^ 63 }
    ensures { (n : ℕ) (before rows : Rows) → IsWithin (W.store work.old) (W.link work.old) n before rows
        → WritesRan n before (stepped step.now (pos version) rows) (length step.now + 1) left.old left.new result (W.store work.new) (W.link work.new) }
{
    let ran = run_statements(alloc, work, step, left);
    match ran {
        Ran::All => texts::write(alloc, work, version_write(version), left),
        Ran::Refused | Ran::Wanting => ran,
    }
}

// Whether a text of the open level of a step is refused, where text number `left` is: a statement, the write of the version or the commit.
fn is_refused(step: &DataStep, left: u64) -> bool
    ensures { result ≡ stops_within step.now left }
{
    left > 0 && left.saturating_sub(2) <= step.statements().len() as u64
}

// The write behind so many texts of the open level: a statement, or the write of the version behind the statements; none where the commit comes.
fn write_behind(step: &DataStep, version: u64, texts: u64) -> Option<Write>
    requires { version < 2 ^ 63 }
    ensures { result ≡ spec.write_behind step.now (pos version) texts }
{
    let statements = step.statements();
    if texts < statements.len() as u64 {
        Some(statements[texts as usize])
    } else if texts == statements.len() as u64 {
        Some(version_write(version))
    } else {
        None
    }
}

// Asks text number `number` of the open level alone, which is refused, and gives the level up: what ran before it would be given up too.
fn run_refused<W: Work>(
    alloc: Global,
    work: &mut W,
    step: &DataStep,
    version: u64,
    number: u64,
) -> Ran
    requires version { version < 2 ^ 63 }
    requires some { 1 ≤ number }
    ensures { (n : ℕ) (before : Rows) → IsWithin (W.store work.old) (W.link work.old) n before before
        → Text (λ s l. IsAtRest s l n before) (λ s l. IsAtRest s l n before) 1 result (W.store work.new) (W.link work.new) }
{
    let mut left = 1;
    match write_behind(step, version, number - 1) {
        Some(write) => {
            let ran = texts::write(alloc, work, write, &mut left);
            work.give_up(alloc);
            ran
        }
        None => texts::commit(alloc, work, &mut left),
    }
}

// Runs the statements of a step and the write of the version in the level that is open, and ends it.
fn run_level<W: Work>(
    alloc: Global,
    work: &mut W,
    step: &DataStep,
    version: u64,
    left: &mut u64,
) -> Ran
    requires { version < 2 ^ 63 }
    ensures { (n : ℕ) (before : Rows) → IsWithin (W.store work.old) (W.link work.old) n before before
        → Texts (λ s l. IsAtRest s l n (stepped step.now (pos version) before)) (λ s l. IsAtRest s l n before) (length step.now + 2) left.old left.new result (W.store work.new) (W.link work.new) }
{
    if is_refused(step, *left) {
        return run_refused(alloc, work, step, version, *left);
    }
    let ran = run_writes(alloc, work, step, version, left);
    match ran {
        Ran::All => texts::commit(alloc, work, left),
        Ran::Refused | Ran::Wanting => {
            work.give_up(alloc);
            ran
        }
    }
}

// Applies one step in a level of its own.
fn run_step<W: Work>(
    alloc: Global,
    work: &mut W,
    step: &DataStep,
    version: u64,
    left: &mut u64,
) -> Ran
    requires { version < 2 ^ 63 }
    ensures { (n : ℕ) (rows : Rows) → IsAtRest (W.store work.old) (W.link work.old) n rows
        → StepRan n rows step.now (pos version) left.old left.new result (W.store work.new) (W.link work.new) }
{
    let ran = texts::begin(alloc, work, left);
    match ran {
        Ran::All => run_level(alloc, work, step, version, left),
        Ran::Refused | Ran::Wanting => ran,
    }
}

// The version that a row holds.
fn number_in(row: Option<i64>) -> u64
    ensures { result ≡ number_of row }
{
    match row {
        Some(version) if version > 0 => version as u64,
        _ => 0,
    }
}

// The version.
fn version_of<W: Work>(work: &W) -> u64
    ensures { (n v : ℕ) (rows : Rows) → IsAtRest (W.store work.now) (W.link work.now) n rows → TellsVersion rows v → result ≡ v }
{
    number_in(work.seen(VERSION_KEY))
}

/// Applies the steps behind the version up to this one, each in a level of its own; text number `refuse` is refused.
pub fn apply_on<W: Work>(
    alloc: Global,
    work: &mut W,
    steps: &[DataStep],
    upto: usize,
    refuse: u64,
) -> Applied
    requires { upto ≤ length steps.now }
    ensures { (n v : ℕ) → IsAtVersion steps.now n v (W.store work.old) (W.link work.old) → v ≤ length steps.now
        → Applies steps.now n v upto refuse result (W.store work.new) (W.link work.new) }
{
    let mut version = version_of(work);
    let mut left = refuse;
    if upto as u64 >= TOO_MANY {
        return Applied::OutOfMemory(version);
    }
    while version < upto as u64 {
        let ran = run_step(
            alloc,
            work,
            &steps[version as usize],
            version + 1,
            &mut left,
        );
        match ran {
            Ran::All => version += 1,
            Ran::Refused => return Applied::Stopped(version),
            Ran::Wanting => return Applied::OutOfMemory(version),
        }
    }
    Applied::Done(version)
}
