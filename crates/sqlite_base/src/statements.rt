//! Statements on the database's own connection.
ghost use Rattle.std.specs.Prelude.{◌≡◌, ◌⊎◌, ◌∷◌, ◌++◌, [], IfErr, IfNone, IfOk, IfSome, List, Ok, OnOk};
ghost use Rattle.either.specs.declared.Either.TheVariants.{Left};
ghost use Rattle.sqlite.specs.State.{Executes, HasCleanDisk, Shown};
ghost use Rattle.sqlite.specs.Held.{state};
ghost use Rattle.sqlite.specs.Values.{bound};
ghost use Rattle.sqlx_text.specs.declared.error.Error.{Error};
ghost use Rattle.sqlx_traits.specs.Faults.{CloseCause};
ghost use Rattle.sqlite_base.specs.Refusals.{IsUnfit, refusal_error};
ghost use Rattle.sqlite_base.specs.Ran.{Ran, Refuses};
ghost use Rattle.sqlite_base.specs.Queries.{GainsRows, Gives, GivesRows, HasRows, IsPrepared, Item, RefusesQuery, RefusesRows, RefusesToExecute, RefusesToPrepare, RefusesToShow, all_taken, no_count, tells_of_rows};

use crate::refusal::{Refusal, refused};
use crate::values::{lent_all, row};
use sqlite::types::ValueRef;
use sqlite::{Alter, Connection, Row, Statement};
use sqlx_any::{AnyArguments, AnyQueryResult, AnyRow, Either};
use std::alloc::Global;
use std::collections::VecDeque;

/// What a statement gives: rows, and then a result.
pub type Items = VecDeque<Either<AnyQueryResult, AnyRow>>;

fn changed<S: Alter>(
    conn: &mut Connection<S>,
    alloc: Global,
    text: &str,
    values: &[ValueRef<'_>],
) -> Result<u64, Refusal>
    ensures ran { IfOk result (λ rows. HasCleanDisk (state S.Store conn.new) → Executes text.now (bound values.now) (state S.Store conn.old) (state S.Store conn.new) (Ok rows)) }
    ensures refused { IfErr result (λ refusal. Refuses text.now (bound values.now) (state S.Store conn.old) (state S.Store conn.new) (refusal_error refusal)) }
    ensures cause { IfErr result (λ refusal. CloseCause (refusal_error refusal)) }
{
    match conn.execute(text, values) {
        Ok(rows) => Ok(rows as u64),
        Err(error) => Err(refused(alloc, error)),
    }
}

fn prepared<S: Alter>(
    conn: &mut Connection<S>,
    alloc: Global,
    text: &str,
) -> Result<Statement, Refusal>
    ensures prepared { IfOk result (λ statement. IsPrepared text.now (state S.Store conn.old) (state S.Store conn.new) statement) }
    ensures refused { IfErr result (λ refusal. RefusesToPrepare text.now (state S.Store conn.old) (state S.Store conn.new) (refusal_error refusal)) }
{
    match conn.prepare(text) {
        Ok(statement) => Ok(statement),
        Err(error) => Err(refused(alloc, error)),
    }
}

fn shown<S: Alter>(
    conn: &mut Connection<S>,
    alloc: Global,
    text: &str,
    values: &[ValueRef<'_>],
) -> Result<Vec<Row>, Refusal>
    ensures shown { IfOk result (λ rows. HasCleanDisk (state S.Store conn.new) → Shown text.now (bound values.now) (state S.Store conn.old) (state S.Store conn.new) rows.items) }
    ensures refused { IfErr result (λ refusal. RefusesToShow text.now (bound values.now) (state S.Store conn.old) (state S.Store conn.new) (refusal_error refusal)) }
{
    match conn.query_all(text, values) {
        Ok(rows) => Ok(rows),
        Err(error) => Err(refused(alloc, error)),
    }
}

/// These rows under the names of the statement's columns.
fn listed(alloc: Global, statement: &Statement, rows: &[Row]) -> Result<Items, Refusal>
    ensures listed { IfOk result (λ items. GainsRows statement.now.columns rows.now [] items.items) }
    ensures refused { IfErr result (λ refusal. IsUnfit (refusal_error refusal)) }
{
    let mut items = VecDeque::new(alloc);
    for shown in rows {
        let row = row(alloc, statement.column_names(), shown)?;
        if items.push_back(Either::Right(row)).is_err() {
            return Err(Refusal::OutOfMemory);
        }
    }
    Ok(items)
}

/// These rows, and then a result.
fn finished(items: Items, rows_affected: u64, id: Option<i64>) -> Result<Items, Refusal>
    ensures all { IfOk result (λ all. all.items ≡ items.items ++ Left (record { rows_affected = rows_affected; last_insert_id = id }) ∷ []) }
    ensures wanting { IfErr result (λ refusal. refusal_error refusal ≡ Error.OutOfMemory) }
{
    let mut items = items;
    let result = AnyQueryResult {
        rows_affected,
        last_insert_id: id,
    };
    match items.push_back(Either::Left(result)) {
        Ok(()) => Ok(items),
        Err(_) => Err(Refusal::OutOfMemory),
    }
}

/// The rows of a statement, and a result without a count.
fn completed(alloc: Global, statement: &Statement, rows: &[Row]) -> Result<Items, Refusal>
    ensures all { IfOk result (λ all. (listed : List Item) × GainsRows statement.now.columns rows.now [] listed × (all.items ≡ listed ++ Left no_count ∷ [])) }
    ensures refused { IfErr result (λ refusal. IsUnfit (refusal_error refusal)) }
{
    match listed(alloc, statement, rows) {
        Ok(items) => finished(items, 0, None),
        Err(refusal) => Err(refusal),
    }
}

/// Runs a text: one that gives rows gives these, any other how many rows it changed.
pub(crate) fn run<S: Alter>(
    conn: &mut Connection<S>,
    alloc: Global,
    text: &str,
    arguments: &Option<AnyArguments>,
) -> Result<Items, Refusal>
    ensures gave { IfOk result (λ items. Gives (state S.Store) text.now (all_taken arguments.now) conn.old conn.new items.items) }
    ensures refused { IfErr result (λ refusal. (refusal_error refusal ≡ Error.OutOfMemory) ⊎ RefusesQuery (state S.Store) text.now (all_taken arguments.now) conn.old conn.new (refusal_error refusal)) }
{
    let values = lent_all(alloc, arguments)?;
    given(conn, alloc, text, values.as_slice())
}

/// Executes a text, and asks for its rows where it gives some.
fn given<S: Alter>(
    conn: &mut Connection<S>,
    alloc: Global,
    text: &str,
    values: &[ValueRef<'_>],
) -> Result<Items, Refusal>
    ensures gave { IfOk result (λ items. Gives (state S.Store) text.now (bound values.now) conn.old conn.new items.items) }
    ensures refused { IfErr result (λ refusal. (refusal_error refusal ≡ Error.OutOfMemory) ⊎ RefusesQuery (state S.Store) text.now (bound values.now) conn.old conn.new (refusal_error refusal)) }
{
    match executed(conn, alloc, text, values) {
        Ok(Some(rows)) => finished(VecDeque::new(alloc), rows, Some(conn.last_insert_rowid())),
        Ok(None) => select(conn, alloc, text, values),
        Err(refusal) => Err(refusal),
    }
}

/// Executes a text, unless it gives rows: how many rows it changed.
fn executed<S: Alter>(
    conn: &mut Connection<S>,
    alloc: Global,
    text: &str,
    values: &[ValueRef<'_>],
) -> Result<Option<u64>, Refusal>
    ensures ran { IfOk result (λ done. IfSome done (λ rows. HasCleanDisk (state S.Store conn.new) → Executes text.now (bound values.now) (state S.Store conn.old) (state S.Store conn.new) (Ok rows))) }
    ensures rows { IfOk result (λ done. IfNone done (HasRows text.now (bound values.now) (state S.Store conn.old) (state S.Store conn.new))) }
    ensures refused { IfErr result (λ refusal. RefusesToExecute text.now (bound values.now) (state S.Store conn.old) (state S.Store conn.new) (refusal_error refusal)) }
{
    match conn.execute(text, values) {
        Ok(rows) => Ok(Some(rows as u64)),
        Err(error) => {
            if tells_of_rows(error) {
                return Ok(None);
            }
            Err(refused(alloc, error))
        }
    }
}

/// Whether a text wasn't executed since it gives rows.
fn tells_of_rows(error: sqlite::Error) -> bool
    ensures { result ≡ tells_of_rows error }
{
    matches!(error, sqlite::Error::ExecuteReturnedResults)
}

/// The rows of a text that gives some.
fn select<S: Alter>(
    conn: &mut Connection<S>,
    alloc: Global,
    text: &str,
    values: &[ValueRef<'_>],
) -> Result<Items, Refusal>
    ensures gave { IfOk result (λ items. GivesRows (state S.Store) text.now (bound values.now) conn.old conn.new items.items) }
    ensures refused { IfErr result (λ refusal. (refusal_error refusal ≡ Error.OutOfMemory) ⊎ RefusesRows (state S.Store) text.now (bound values.now) conn.old conn.new (refusal_error refusal)) }
{
    let statement = prepared(conn, alloc, text)?;
    match shown(conn, alloc, text, values) {
        Ok(rows) => completed(alloc, &statement, rows.as_slice()),
        Err(refusal) => Err(refusal),
    }
}

/// Runs a text of a level.
pub(crate) fn perform<S: Alter>(
    conn: &mut Connection<S>,
    alloc: Global,
    text: &str,
) -> Result<(), Refusal>
    ensures ran { OnOk result (Ran text.now (state S.Store conn.old) (state S.Store conn.new)) }
    ensures refused { IfErr result (λ refusal. Refuses text.now [] (state S.Store conn.old) (state S.Store conn.new) (refusal_error refusal)) }
    ensures cause { IfErr result (λ refusal. CloseCause (refusal_error refusal)) }
{
    match changed(conn, alloc, text, &[]) {
        Ok(_) => Ok(()),
        Err(refusal) => Err(refusal),
    }
}
