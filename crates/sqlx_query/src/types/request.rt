//! What a query hands to an executor. It names the types of its parts alone and not the database, so that its `Drop`
//! is small where an executor is called.
use either::Either;
use sqlx_text::{Fault, OutOfMemory, SqlStr};
use sqlx_traits::{Database, Execute, Statement};
use std::alloc::Global;
use std::mem;

/// A text or a prepared statement, with arguments that the driver takes as they are.
#[derive(Drop)]
pub(crate) struct Request<'q, S, A> {
    pub(crate) statement: Either<SqlStr, &'q S>,
    pub(crate) arguments: Result<Option<A>, Fault>,
    pub(crate) persistent: bool,
}

impl<'q, DB: Database> Execute<DB> for Request<'q, DB::Statement, DB::Arguments> {
    ghost use Rattle.sqlx_query_drafts.specs.Query.{statement_of, text_of};

    ghost text = { λ request. text_of DB.Statement.text request.statement };

    ghost prepared = { λ request. statement_of request.statement };

    ghost arguments = { λ request. request.arguments };

    ghost kept = { λ request. request.persistent };

    fn sql(self, alloc: Global) -> Result<SqlStr, OutOfMemory> {
        let Request {
            statement,
            arguments,
            persistent: _,
        } = self;
        drop(arguments);
        match statement {
            Either::Left(sql) => Ok(sql),
            Either::Right(statement) => statement.sql().try_clone(alloc),
        }
    }

    fn statement(&self) -> Option<&DB::Statement> {
        match &self.statement {
            Either::Left(_sql) => None,
            Either::Right(statement) => Some(*statement),
        }
    }

    fn take_arguments(&mut self) -> Result<Option<DB::Arguments>, Fault> {
        mem::replace(&mut self.arguments, Ok(None))
    }

    fn persistent(&self) -> bool {
        self.persistent
    }
}
