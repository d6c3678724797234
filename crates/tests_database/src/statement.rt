//! Prepared statements.

use crate::{Toy, ToyColumn, ToyType};
use sqlx_text::{Error, OutOfMemory, SqlStr, UStr};
use sqlx_traits::*;
use std::alloc::Global;

/// A prepared statement.
#[derive(Drop)]
pub struct ToyStatement {
    pub sql: SqlStr,
    pub columns: Vec<ToyColumn>,
    pub types: Vec<ToyType>,
}

impl Statement<Toy> for ToyStatement {
    ghost use Rattle.std.specs.Prelude.{Some};
    ghost use Rattle.either.specs.declared.Either.TheVariants.{Left};

    ghost text = { λ statement. statement.sql };

    ghost described = { λ statement. statement.columns.items };

    ghost takes = { λ statement. Some (Left statement.types.items) };

    fn into_sql(self) -> SqlStr {
        let ToyStatement {
            sql,
            columns,
            types,
        } = self;
        drop(columns);
        drop(types);
        sql
    }

    fn sql(&self) -> &SqlStr {
        &self.sql
    }

    fn columns(&self) -> &[ToyColumn] {
        self.columns.as_slice()
    }

    fn parameters(&self) -> Option<Either<&[ToyType], usize>> {
        Some(Either::Left(self.types.as_slice()))
    }
}

impl ColumnIndex<ToyStatement> for usize {
    ghost use Rattle.std.specs.Prelude.{decimal, length};
    ghost use Rattle.sqlx_traits.specs.Places.{place_of_position};

    ghost place = { λ at statement. place_of_position at (length statement.columns.items) };

    ghost shown = { λ at. decimal at };

    fn index(&self, _alloc: Global, statement: &ToyStatement) -> Result<usize, Error> {
        index_of_position(*self, statement.columns.len())
    }

    fn label(&self, alloc: Global) -> Result<UStr, OutOfMemory> {
        label_of_position(alloc, *self)
    }
}
