//! What a connection of `Any` hands on: queries, and statements that it prepares. Its backend is named in one place.

use crate::says::*;
use crate::texts::{asked, asks};
use sqlx_any::*;
use sqlx_text::{AnyTypeInfoKind, Error, Fault, OutOfMemory, SqlStr};
use std::alloc::Global;
use std::fmt::Debug;
use std::test::*;
use tests_backend::StubBackend;
use tests_database::steps::{Call, gives};
use tests_database::{Toy, ToyConnection};

// A query whose arguments can't be had.
#[derive(Drop)]
struct Unbound;

impl<DB: Database> Execute<DB> for Unbound {
    ghost use Rattle.std.specs.Prelude.{Err, None, codes, false};
    ghost use Rattle.sqlx_text.specs.declared.fault.Fault.TheVariants.{OutOfRange};

    ghost text = { λ _. codes "SELECT" };

    ghost prepared = { λ _. None };

    ghost arguments = { λ _. Err OutOfRange };

    ghost kept = { λ _. false };

    fn sql(self, _alloc: Global) -> Result<SqlStr, OutOfMemory> {
        Ok(SqlStr::from_static("SELECT"))
    }

    fn statement(&self) -> Option<&DB::Statement> {
        None
    }

    fn take_arguments(&mut self) -> Result<Option<DB::Arguments>, Fault> {
        Err(Fault::OutOfRange)
    }

    fn persistent(&self) -> bool {
        false
    }
}

// What is asked of a connection: a call with a text, with one and arguments, or with a query whose arguments can't be
// had; or a statement, for a text as its parameter, or for none.
#[derive(Clone, Copy)]
enum Ask {
    Text(Call),
    Numbers(Call),
    Unbound(Call),
    Prepare,
    PrepareWith,
}

fn numbers(alloc: Global) -> Result<AnyArguments, OutOfMemory> {
    let mut values = AnyArgumentBuffer::new(alloc);
    values.push(AnyValueKind::BigInt(5))?;
    values.push(AnyValueKind::Bool(true))?;
    Ok(AnyArguments { values })
}

// How many parameters are told.
fn parameters<T>(told: Option<Either<&[T], usize>>) -> usize {
    match told {
        Some(Either::Left(types)) => types.len(),
        Some(Either::Right(count)) => count,
        None => usize::MAX,
    }
}

fn told_statement(line: &mut String, columns: usize, parameters: usize, sql: &SqlStr) {
    tell(line, &columns);
    tell(line, &parameters);
    show(line, sql);
}

// How many columns and parameters a statement has, and its text.
fn prepared<DB: Database>(answer: Result<DB::Statement, Error>, line: &mut String) {
    match answer {
        Ok(statement) => {
            let count = parameters(statement.parameters());
            told_statement(line, statement.columns().len(), count, statement.sql());
            drop(statement);
        }
        Err(error) => refused(line, error),
    }
}

// What comes of it.
fn answers<DB: Database<Arguments = AnyArguments, TypeInfo = AnyTypeInfo>, E: Executor<DB>>(
    alloc: Global,
    conn: &mut E,
    ask: Ask,
    line: &mut String,
)
where
    DB::QueryResult: Debug,
{
    match ask {
        Ask::Text(call) => text(line, gives::<DB, E, _>(alloc, call, conn, "SELECT")),
        Ask::Numbers(call) => match numbers(alloc) {
            Ok(numbers) => {
                let query = ("SELECT", Some(numbers));
                text(line, gives::<DB, E, _>(alloc, call, conn, query));
            }
            Err(OutOfMemory) => {}
        },
        Ask::Unbound(call) => text(line, gives::<DB, E, _>(alloc, call, conn, Unbound)),
        Ask::Prepare => {
            let sql = SqlStr::from_static("SELECT");
            prepared::<DB>(conn.prepare(alloc, sql), line);
        }
        Ask::PrepareWith => {
            let kind = AnyTypeInfoKind::Text;
            let sql = SqlStr::from_static("SELECT");
            prepared::<DB>(conn.prepare_with(alloc, sql, &[AnyTypeInfo { kind }]), line);
        }
    }
}

fn answers_over<B: AnyConnectionBackend>(
    alloc: Global,
    conn: &mut AnyConnection<B>,
    ask: Ask,
    line: &mut String,
) {
    answers::<Any<B>, AnyConnection<B>>(alloc, conn, ask, line);
}

// What a backend was handed, and what comes of its steps.
fn of_backend(alloc: Global, backend: StubBackend, ask: Ask) -> String {
    let mut line = String::new(alloc);
    let mut conn = AnyConnection::new(backend);
    answers_over(alloc, &mut conn, ask, &mut line);
    text(&mut line, conn.backend().handed_shown(alloc));
    drop(conn);
    line
}

const HANDED: &str = "AnyQueryResult { rows_affected: 5, last_insert_id: None }|SELECT kept bare|\n\
    number|text||SELECT kept bare|\n\
    error communicating with database: other error|SELECT kept bare|\n\
    no rows returned by a query that expected to return at least one row|SELECT kept bare|\n\
    number|text||SELECT kept bare|\n\
    number|AnyQueryResult { rows_affected: 2, last_insert_id: None }|error communicating with database: other error||SELECT kept bare|\n\
    number||SELECT kept BigInt 5|Bool true||\n\
    number||SELECT kept bare|\n\
    error occurred while encoding a value: out of range integral type conversion attempted||nothing|\n\
    1|0|SqlStr { text: \"SELECT\" }|nothing|\n\
    1|1|SqlStr { text: \"SELECT\" }|nothing|\n";

#[test]
fn a_backend_is_handed_what_is_asked(rt: HostRuntime) -> Result<(), Fail> {
    let alloc = rt.alloc();
    let mut lines = String::new(alloc);
    for (ask, letters) in &[
        (Ask::Text(Call::Execute), "i2t3"),
        (Ask::Text(Call::FetchAll), "i2t3"),
        (Ask::Text(Call::FetchOptional), "1!"),
        (Ask::Text(Call::FetchOne), "12"),
        (Ask::Text(Call::Fetch), "it"),
        (Ask::Text(Call::FetchMany), "i2!"),
        (Ask::Numbers(Call::FetchMany), "i"),
        (Ask::Text(Call::FetchMany), "i"),
        (Ask::Unbound(Call::FetchMany), "i"),
        (Ask::Prepare, ""),
        (Ask::PrepareWith, ""),
    ] {
        let backend = StubBackend::new(alloc, letters)?;
        ended(&mut lines, of_backend(alloc, backend, *ask));
    }
    says(&rt, lines, HANDED);
    let conn = ToyConnection::new(alloc, "")?;
    says(&rt, asked_unbound(alloc, conn), "nothing|");
    Ok(())
}

// What the toy database is asked with a query whose arguments can't be had.
fn asked_unbound(alloc: Global, conn: ToyConnection) -> String {
    let mut conn = conn;
    asks::<Toy, ToyConnection, Unbound>(alloc, &mut conn, Unbound);
    asked(alloc, conn)
}
