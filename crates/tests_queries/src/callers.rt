//! Callers as a user writes them, with their contracts; each is called once.
ghost use Rattle.std.specs.Prelude.{◌≡◌, ◌⊎◌, Bool, IfErr, OnOk, codes};
ghost use Rattle.sqlx_text.specs.declared.error.Error.{Error};
ghost use Rattle.tests_queries.specs.Callers.{FirstOfUnkept, RowAppends};

use crate::calls::{asked, one_row};
use crate::says::says;
use sqlx_query::{QueryBuilder, query};
use sqlx_text::{Error, Fault, OutOfMemory};
use sqlx_traits::{
    ArgumentList, Arguments, Database, Encode, Executor, HasStatementCache, IntoArguments, SqlType,
};
use std::alloc::Global;
use std::test::*;
use tests_database::{Toy, ToyConnection};

/// The first article of an author, by a statement that isn't kept.
pub fn first_article<'t, DB, E, T>(alloc: Global, conn: &mut E, author: T) -> Result<DB::Row, Error>
where
    DB: Database + HasStatementCache,
    E: Executor<DB>,
    T: Encode<'t, DB> + SqlType<DB> + Drop,
    DB::Arguments: IntoArguments<DB>,
    ensures { IfErr result (λ e. e ≡ Error.OutOfMemory) ⊎ FirstOfUnkept DB.Statement ⟦<DB::Arguments as IntoArguments<DB>>⟧.becomes E.runs
        (codes "SELECT title FROM articles WHERE author = ?") conn.old conn.new result }
{
    query::<DB, _>(alloc, "SELECT title FROM articles WHERE author = ?")?
        .bind(alloc, author)
        .persistent(false)
        .fetch_one(alloc, conn)
}

/// Asks only for the first note of a day.
pub fn of_day<'t, DB: Database, T: Encode<'t, DB> + SqlType<DB> + Drop>(
    alloc: Global,
    notes: &mut QueryBuilder<DB>,
    day: T,
) -> Result<(), Fault>
    requires { notes.old.built ≡ Bool.false }
    ensures bound { OnOk result (notes.new.arguments ≡ T.encoded day notes.old.arguments) }
    ensures open { OnOk result (notes.new.built ≡ Bool.false) }
{
    notes
        .push(alloc, " WHERE day = ")?
        .push_bind(alloc, day)?
        .push(alloc, " LIMIT 1")?;
    Ok(())
}

/// Adds notes, each a tuple of a day and a text.
#[tactic(auto, using(sqlx_query::proofs::RowLemmas::appends_then))]
pub fn with_notes<'t, DB, D>(
    alloc: Global,
    insert: &mut QueryBuilder<DB>,
    notes: Vec<(D, &'t str)>,
) -> Result<(), Fault>
where
    DB: Database,
    D: Encode<'t, DB> + SqlType<DB> + Drop,
    &'t str: Encode<'t, DB> + SqlType<DB>,
    requires { insert.old.built ≡ Bool.false }
    ensures open { OnOk result (insert.new.built ≡ Bool.false) }
{
    insert.push_values(
        alloc,
        notes.into_iter(),
        |row, note| -> Result<(), Fault>
            ensures { RowAppends DB.ArgumentBuffer.count DB.ArgumentBuffer.first DB.Arguments.buffered row.old.parts row.new.parts }
        {
            row.push_bind(alloc, note.0)?;
            row.push_bind(alloc, note.1)
        },
    )?;
    Ok(())
}

fn article(alloc: Global) -> Result<String, OutOfMemory> {
    let mut conn = ToyConnection::new(alloc, "t")?;
    let row = first_article::<Toy, ToyConnection, &str>(alloc, &mut conn, "x");
    let given = one_row(alloc, row);
    asked(alloc, conn, given)
}

fn notes(alloc: Global) -> Result<String, Fault> {
    let mut notes = QueryBuilder::<Toy>::new(alloc, "SELECT".to_string(alloc)?);
    of_day::<Toy, i64>(alloc, &mut notes, 3)?;
    Ok(notes.into_string())
}

fn two_notes(alloc: Global) -> Result<Vec<(i64, &'static str)>, OutOfMemory> {
    Ok(vec![in alloc; (1, "x"), (2, "y")]?)
}

fn inserted(alloc: Global) -> Result<String, Fault> {
    let mut insert = QueryBuilder::<Toy>::new(alloc, "INSERT ".to_string(alloc)?);
    with_notes::<Toy, i64>(alloc, &mut insert, two_notes(alloc)?)?;
    Ok(insert.into_string())
}

#[test]
fn callers_run(rt: HostRuntime) -> Result<(), Fail> {
    let alloc = rt.alloc();
    says(
        &rt,
        article(alloc),
        "SELECT title FROM articles WHERE author = ?|x: text",
    )?;
    says(&rt, notes(alloc), "SELECT WHERE day = $1 LIMIT 1")?;
    says(&rt, inserted(alloc), "INSERT VALUES ($1, $2), ($3, $4)")
}
