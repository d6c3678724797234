//! Queries of a prepared statement, by functions and by its calls.

use crate::calls::{numbers, ran, ran_read};
use crate::says::says;
use sqlx_query::*;
use sqlx_text::{Fault, SqlStr};
use std::alloc::Global;
use std::test::*;
use tests_database::steps::Call;
use tests_database::{Toy, ToyStatement};

// A query of a statement, by a function or by a call of the statement.
#[derive(Clone, Copy)]
enum Ask {
    Function,
    FunctionWith,
    Call,
    CallWith,
}

fn rows(alloc: Global, ask: Ask, statement: &ToyStatement) -> Result<String, Fault> {
    let args = numbers(alloc, &[3])?;
    let query = match ask {
        Ask::Function => query_statement::<Toy>(alloc, statement),
        Ask::FunctionWith => query_statement_with::<Toy, _>(statement, args),
        Ask::Call => StatementQuery::<Toy>::query(statement, alloc),
        Ask::CallWith => StatementQuery::<Toy>::query_with(statement, args),
    };
    Ok(ran(alloc, "l2", Call::Execute, query)?)
}

fn values(alloc: Global, ask: Ask, statement: &ToyStatement) -> Result<String, Fault> {
    let args = numbers(alloc, &[3])?;
    let query: QueryAs<'_, Toy, (i64,), _> = match ask {
        Ask::Function => query_statement_as::<Toy, (i64,)>(alloc, statement),
        Ask::FunctionWith => query_statement_as_with::<Toy, (i64,), _>(statement, args),
        Ask::Call => StatementQuery::<Toy>::query_as(statement, alloc),
        Ask::CallWith => StatementQuery::<Toy>::query_as_with(statement, args),
    };
    Ok(ran_read(alloc, "l2", Call::FetchOne, query)?)
}

fn scalars(alloc: Global, ask: Ask, statement: &ToyStatement) -> Result<String, Fault> {
    let args = numbers(alloc, &[3])?;
    let query: QueryScalar<'_, Toy, i64, _> = match ask {
        Ask::Function => query_statement_scalar::<Toy, i64>(alloc, statement),
        Ask::FunctionWith => query_statement_scalar_with::<Toy, i64, _>(statement, args),
        Ask::Call => StatementQuery::<Toy>::query_scalar(statement, alloc),
        Ask::CallWith => StatementQuery::<Toy>::query_scalar_with(statement, args),
    };
    Ok(ran_read(alloc, "l2", Call::FetchOne, query)?)
}

#[test]
fn a_statement_is_asked(rt: HostRuntime) -> Result<(), Fail> {
    let alloc = rt.alloc();
    let statement = ToyStatement {
        sql: SqlStr::from_static("SELECT"),
        columns: Vec::new(alloc),
        types: Vec::new(alloc),
    };
    for (ask, asked) in &[
        (Ask::Function, "SELECT kept prepared"),
        (Ask::FunctionWith, "SELECT kept prepared|3"),
        (Ask::Call, "SELECT kept prepared"),
        (Ask::CallWith, "SELECT kept prepared|3"),
    ] {
        let result = format!(in alloc; "{asked}: ToyQueryResult(2)")?;
        let told = rows(alloc, *ask, &statement);
        says(&rt, told, result.as_str())?;
        let tuple = format!(in alloc; "{asked}: (7,)")?;
        let told = values(alloc, *ask, &statement);
        says(&rt, told, tuple.as_str())?;
        let number = format!(in alloc; "{asked}: 7")?;
        let told = scalars(alloc, *ask, &statement);
        says(&rt, told, number.as_str())?;
    }
    Ok(())
}
