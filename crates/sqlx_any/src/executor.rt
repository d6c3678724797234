//! Queries of a connection over a backend, which runs them.

use crate::{Any, AnyConnection, AnyConnectionBackend, AnyStatement, AnyTypeInfo};
use sqlx_text::{Error, SqlStr};
use sqlx_traits::{Execute, Executor, FetchMany, StepList};
use std::alloc::Global;

impl<B: AnyConnectionBackend> Executor<Any<B>> for AnyConnection<B> {
    ghost use Rattle.sqlx_any.specs.Runs.{RunsOver};

    ghost runs = { λ conn query list after. RunsOver B.runs conn.backend query list after.backend };

    ghost prepares = { λ conn sql types result after. B.prepares conn.backend sql types result after.backend };

    fn fetch_many<Q: Execute<Any<B>>>(&mut self, alloc: Global, query: Q) -> FetchMany<Any<B>> {
        let mut query = query;
        let persistent = query.persistent();
        let arguments = query.take_arguments();
        let sql = query.sql(alloc);
        match arguments {
            Ok(arguments) => match sql {
                Ok(sql) => self.backend.fetch_many(alloc, sql, persistent, arguments),
                Err(_) => {
                    drop(arguments);
                    StepList::refused(alloc, Error::OutOfMemory)
                }
            },
            Err(fault) => {
                drop(sql);
                StepList::not_encoded(alloc, fault)
            }
        }
    }

    fn prepare_with(
        &mut self,
        alloc: Global,
        sql: SqlStr,
        parameters: &[AnyTypeInfo],
    ) -> Result<AnyStatement, Error> {
        self.backend.prepare_with(alloc, sql, parameters)
    }
}
