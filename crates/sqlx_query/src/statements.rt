//! Queries of a prepared statement, as functions and as calls of the statement.
ghost use Rattle.std.specs.Prelude.{◌≡◌, Ok, Some};
ghost use Rattle.sqlx_query_drafts.specs.Query.{BeginsEmpty, fresh_query};

use crate::{Query, QueryAs, QueryScalar, ReadQuery};
use sqlx_traits::{ArgumentList, Arguments, Database, Either, IntoArguments, Statement};
use std::alloc::Global;

/// A query of a prepared statement, to which arguments are still to be bound.
pub fn query_statement<'q, DB: Database>(
    alloc: Global,
    statement: &'q DB::Statement,
) -> Query<'q, DB, DB::Arguments>
    ensures { BeginsEmpty (λ args. DB.ArgumentBuffer.count (DB.Arguments.buffered args)) (DB.Statement.text statement.entry.now) (Some statement.entry.now) result }
{
    Query::new(Either::Right(statement), Ok(DB::Arguments::new(alloc)))
}

/// A query of a prepared statement, with these arguments.
pub fn query_statement_with<'q, DB: Database, A: IntoArguments<DB> + Drop>(
    statement: &'q DB::Statement,
    arguments: A,
) -> Query<'q, DB, A>
    ensures { result ≡ fresh_query (DB.Statement.text statement.entry.now) (Some statement.entry.now) (Ok arguments) }
{
    Query::new(Either::Right(statement), Ok(arguments))
}

/// A query of a prepared statement for values that are made of its rows, to which arguments are still to be bound.
pub fn query_statement_as<'q, DB: Database, O>(
    alloc: Global,
    statement: &'q DB::Statement,
) -> QueryAs<'q, DB, O, DB::Arguments>
    ensures { BeginsEmpty (λ args. DB.ArgumentBuffer.count (DB.Arguments.buffered args)) (DB.Statement.text statement.entry.now) (Some statement.entry.now) result.query }
{
    ReadQuery::new(query_statement::<DB>(alloc, statement))
}

/// A query of a prepared statement for values that are made of its rows, with these arguments.
pub fn query_statement_as_with<'q, DB: Database, O, A: IntoArguments<DB> + Drop>(
    statement: &'q DB::Statement,
    arguments: A,
) -> QueryAs<'q, DB, O, A>
    ensures { result.query ≡ fresh_query (DB.Statement.text statement.entry.now) (Some statement.entry.now) (Ok arguments) }
{
    ReadQuery::new(query_statement_with::<DB, A>(statement, arguments))
}

/// A query of a prepared statement for the first column of its rows, to which arguments are still to be bound.
pub fn query_statement_scalar<'q, DB: Database, O>(
    alloc: Global,
    statement: &'q DB::Statement,
) -> QueryScalar<'q, DB, O, DB::Arguments>
    ensures { BeginsEmpty (λ args. DB.ArgumentBuffer.count (DB.Arguments.buffered args)) (DB.Statement.text statement.entry.now) (Some statement.entry.now) result.query }
{
    ReadQuery::new(query_statement::<DB>(alloc, statement))
}

/// A query of a prepared statement for the first column of its rows, with these arguments.
pub fn query_statement_scalar_with<'q, DB: Database, O, A: IntoArguments<DB> + Drop>(
    statement: &'q DB::Statement,
    arguments: A,
) -> QueryScalar<'q, DB, O, A>
    ensures { result.query ≡ fresh_query (DB.Statement.text statement.entry.now) (Some statement.entry.now) (Ok arguments) }
{
    ReadQuery::new(query_statement_with::<DB, A>(statement, arguments))
}

/// The queries of a statement, as calls. The statement of each database has them, and a call names the database:
/// `StatementQuery::<DB>::query(&statement, alloc)`.
pub trait StatementQuery<DB: Database>: Sized {
    /// The statement itself, as one of the database.
    ghost itself: { Self → DB.Statement };

    /// The statement itself, as one of the database.
    fn as_statement(&self) -> &DB::Statement
        ensures { result.now ≡ itself self.now };

    /// A query of the statement, to which arguments are still to be bound.
    final fn query(&self, alloc: Global) -> Query<'_, DB, DB::Arguments>
        ensures { BeginsEmpty (λ args. DB.ArgumentBuffer.count (DB.Arguments.buffered args)) (DB.Statement.text (itself self.entry.now)) (Some (itself self.entry.now)) result }
    {
        query_statement::<DB>(alloc, self.as_statement())
    }

    /// A query of the statement for values that are made of its rows, to which arguments are still to be bound.
    final fn query_as<O>(&self, alloc: Global) -> QueryAs<'_, DB, O, DB::Arguments>
        ensures { BeginsEmpty (λ args. DB.ArgumentBuffer.count (DB.Arguments.buffered args)) (DB.Statement.text (itself self.entry.now)) (Some (itself self.entry.now)) result.query }
    {
        query_statement_as::<DB, O>(alloc, self.as_statement())
    }

    /// A query of the statement for the first column of its rows, to which arguments are still to be bound.
    final fn query_scalar<O>(&self, alloc: Global) -> QueryScalar<'_, DB, O, DB::Arguments>
        ensures { BeginsEmpty (λ args. DB.ArgumentBuffer.count (DB.Arguments.buffered args)) (DB.Statement.text (itself self.entry.now)) (Some (itself self.entry.now)) result.query }
    {
        query_statement_scalar::<DB, O>(alloc, self.as_statement())
    }

    /// A query of the statement, with these arguments.
    final fn query_with<A: IntoArguments<DB> + Drop>(&self, arguments: A) -> Query<'_, DB, A>
        ensures { result ≡ fresh_query (DB.Statement.text (itself self.entry.now)) (Some (itself self.entry.now)) (Ok arguments) }
    {
        query_statement_with::<DB, A>(self.as_statement(), arguments)
    }

    /// A query of the statement for values that are made of its rows, with these arguments.
    final fn query_as_with<O, A: IntoArguments<DB> + Drop>(
        &self,
        arguments: A,
    ) -> QueryAs<'_, DB, O, A>
        ensures { result.query ≡ fresh_query (DB.Statement.text (itself self.entry.now)) (Some (itself self.entry.now)) (Ok arguments) }
    {
        query_statement_as_with::<DB, O, A>(self.as_statement(), arguments)
    }

    /// A query of the statement for the first column of its rows, with these arguments.
    final fn query_scalar_with<O, A: IntoArguments<DB> + Drop>(
        &self,
        arguments: A,
    ) -> QueryScalar<'_, DB, O, A>
        ensures { result.query ≡ fresh_query (DB.Statement.text (itself self.entry.now)) (Some (itself self.entry.now)) (Ok arguments) }
    {
        query_statement_scalar_with::<DB, O, A>(self.as_statement(), arguments)
    }
}

impl<DB: Database> StatementQuery<DB> for DB::Statement {
    ghost itself = { λ statement. statement };

    fn as_statement(&self) -> &DB::Statement {
        self
    }
}
