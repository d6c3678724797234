//! The calls of the backend.

use crate::{Call, Handed, StubBackend, cells};
use sqlx_any::*;
use sqlx_text::{AnyTypeInfoKind, Error, IoFault, SqlStr};
use std::alloc::Global;

impl AnyConnectionBackend for StubBackend {
    ghost use Rattle.std.specs.Prelude.{⊤, true, codes};

    ghost called = { λ _. codes "stub" };

    ghost levels = { λ backend. backend.depth };

    ghost closes = { λ _. true };

    ghost runs = { λ _ _ _ _ _ _. ⊤ };

    ghost prepares = { λ _ _ _ _ _. ⊤ };

    fn name(&self) -> &str {
        "stub"
    }

    fn close(self) -> Result<(), Error> {
        drop(self);
        Ok(())
    }

    fn close_hard(self) -> Result<(), Error> {
        drop(self);
        Ok(())
    }

    fn ping(&mut self) -> Result<(), Error> {
        self.called(Call::Ping)
    }

    fn begin(&mut self, _alloc: Global, statement: Option<SqlStr>) -> Result<(), Error> {
        let call = match statement {
            Some(sql) => {
                drop(sql);
                if self.depth > 0 {
                    return Err(Error::InvalidSavePointStatement);
                }
                Call::BeginWith
            }
            None => Call::Begin,
        };
        match self.depth.checked_add(1) {
            Some(depth) => match self.called(call) {
                Ok(()) => {
                    self.depth = depth;
                    Ok(())
                }
                Err(error) => Err(error),
            },
            None => Err(self.refused()),
        }
    }

    fn commit(&mut self, _alloc: Global) -> Result<(), Error> {
        self.depth -= 1;
        self.called(Call::Commit)
    }

    fn rollback(&mut self, _alloc: Global) -> Result<(), Error> {
        self.depth -= 1;
        self.called(Call::Rollback)
    }

    fn start_rollback(&mut self) {
        self.depth -= 1;
        self.last = Some(Call::StartRollback);
    }

    fn get_transaction_depth(&self) -> usize {
        self.depth
    }

    fn cached_statements_size(&self) -> usize {
        0
    }

    fn clear_cached_statements(&mut self) -> Result<(), Error> {
        self.called(Call::Clear)
    }

    fn shrink_buffers(&mut self) {
        self.last = Some(Call::Shrink);
    }

    fn flush(&mut self) -> Result<(), Error> {
        self.called(Call::Flush)
    }

    fn should_flush(&self) -> bool {
        false
    }

    fn fetch_many(
        &mut self,
        alloc: Global,
        query: SqlStr,
        persistent: bool,
        arguments: Option<AnyArguments>,
    ) -> FetchMany<Any<StubBackend>> {
        self.handed = Some(Handed {
            sql: query,
            kept: persistent,
            arguments,
        });
        self.hand_out(alloc)
    }

    fn fetch_optional(
        &mut self,
        alloc: Global,
        query: SqlStr,
        persistent: bool,
        arguments: Option<AnyArguments>,
    ) -> Result<Option<AnyRow>, Error> {
        let list = AnyConnectionBackend::fetch_many(self, alloc, query, persistent, arguments);
        let mut rows = RowList::new(list);
        match rows.next() {
            Some(Ok(row)) => Ok(Some(row)),
            Some(Err(error)) => Err(error),
            None => Ok(None),
        }
    }

    fn prepare_with(
        &mut self,
        alloc: Global,
        sql: SqlStr,
        parameters: &[AnyTypeInfo],
    ) -> Result<AnyStatement, Error> {
        let mut types = Vec::new(alloc);
        for ty in parameters {
            cells::keep(&mut types, *ty)?;
        }
        let mut columns = Vec::new(alloc);
        cells::keep(
            &mut columns,
            cells::column(0, "what", AnyTypeInfoKind::BigInt),
        )?;
        let names = ColumnNames::new(alloc);
        AnyStatement::new(sql, Some(Either::Left(types)), names, columns)
    }
}

impl AnyOpen for StubBackend {
    ghost use Rattle.std.specs.Prelude.{⊤};

    ghost opens = { λ _ _. ⊤ };

    /// A backend by the letters that are the path of the URL; one without a path is refused.
    fn from_options(alloc: Global, options: &AnyConnectOptions) -> Result<StubBackend, Error> {
        let letters = options.database_url.path();
        if letters.is_empty() {
            return Err(Error::Io(IoFault::ConnectionRefused));
        }
        match StubBackend::new(alloc, letters) {
            Ok(backend) => Ok(backend),
            Err(error) => {
                drop(error);
                Err(Error::OutOfMemory)
            }
        }
    }
}
