//! A statement that a backend prepared.
ghost use Rattle.std.specs.Prelude.{◌≡◌, ◌↔◌, IfErr, IfOk, IsOk, Ok, codes, length};
ghost use Rattle.sqlx_traits.specs.Parameters.{parameters_seen};
ghost use Rattle.sqlx_traits.specs.Places.{IsGiven, at_place};
ghost use Rattle.sqlx_traits.specs.Reads.{Answers};
ghost use Rattle.sqlx_any_values.specs.Names.{AreBelow};
ghost use Rattle.sqlx_any.specs.Native.{FormsStatement};
ghost use Rattle.sqlx_any.specs.Rows.{parameters_held};

use crate::native::{columns_from, parameters_from};
use crate::row::copy_of_columns;
use crate::{Any, AnyColumn, AnyConnectionBackend, AnyTypeInfo, ColumnNames};
use sqlx_text::{Error, OutOfMemory, SqlStr, UStr};
use sqlx_traits::{
    ColumnIndex, Database, Either, Statement, index_of_name, index_of_position, item_at,
    label_of_name, label_of_position,
};
use std::alloc::Global;
use std::marker::Model;

/// A prepared statement: its text, its parameters, and the columns of its rows.
pub struct AnyStatement {
    sql: SqlStr,
    parameters: Option<Either<Vec<AnyTypeInfo>, usize>>,
    names: ColumnNames,
    columns: Vec<AnyColumn>,
}

impl Drop for AnyStatement {
    fn drop(self) {
        let AnyStatement {
            sql,
            parameters,
            names,
            columns,
        } = self;
        drop(sql);
        drop(parameters);
        drop(names);
        drop(columns);
    }
}

impl Model for AnyStatement {
    ghost use Rattle.std.specs.Prelude.{length};
    ghost use Rattle.sqlx_any_values.specs.Names.{AreBelow};
    ghost use Rattle.sqlx_any.specs.Rows.{StatementParts, parameters_held};

    ghost Value = { StatementParts };

    ghost view = { λ s. record { sql = s.sql; parameters = parameters_held s.parameters; names = s.names; columns = s.columns.items } };

    ghost invariant = { λ s. AreBelow s.names (length s.columns.items) };
}

impl AnyStatement {
    /// A statement of these parts, and `InvalidArgument` exactly where a name has a position past the columns.
    pub fn new(
        sql: SqlStr,
        parameters: Option<Either<Vec<AnyTypeInfo>, usize>>,
        names: ColumnNames,
        columns: Vec<AnyColumn>,
    ) -> Result<AnyStatement, Error>
        ensures fits { IsOk result ↔ AreBelow names (length columns.items) }
        ensures ok { IfOk result (λ s. s ≡ record { sql = sql; parameters = parameters_held parameters; names = names; columns = columns.items }) }
        ensures err { IfErr result (λ e. e ≡ Error.InvalidArgument (codes "a statement names no column past its own")) }
    {
        if names.are_below(columns.len()) {
            return Ok(AnyStatement {
                sql,
                parameters,
                names,
                columns,
            });
        }
        drop(sql);
        drop(parameters);
        drop(names);
        drop(columns);
        Err(Error::InvalidArgument(UStr::from_static("a statement names no column past its own")))
    }

    /// The form of a statement of the database, whose columns these names find.
    ///
    /// An error is `AnyDriverError` of the first type without a kind, of a parameter before that of a column, or want of memory.
    pub fn try_from_statement<DB: Database>(
        alloc: Global,
        statement: DB::Statement,
        names: ColumnNames,
    ) -> Result<AnyStatement, Error>
        requires { AreBelow names (length (DB.Statement.described statement)) }
        ensures { FormsStatement DB.TypeInfo.kind DB.TypeInfo.named DB.Column.at DB.Column.named DB.Column.typed DB.Statement.text DB.Statement.takes DB.Statement.described statement names result }
    {
        let parameters = match parameters_from::<DB::TypeInfo>(alloc, statement.parameters()) {
            Ok(parameters) => parameters,
            Err(error) => {
                drop(statement);
                drop(names);
                return Err(error);
            }
        };
        match columns_from::<DB>(alloc, statement.columns()) {
            Ok(columns) => Ok(AnyStatement {
                sql: statement.into_sql(),
                parameters,
                names,
                columns,
            }),
            Err(error) => {
                drop(statement);
                drop(parameters);
                drop(names);
                Err(error)
            }
        }
    }

    /// The same statement. In sqlx: `clone`.
    pub fn try_clone(&self, alloc: Global) -> Result<AnyStatement, OutOfMemory>
        ensures { IfOk result (λ copy. copy ≡ self.now) }
    {
        let sql = self.sql.try_clone(alloc)?;
        let parameters = copy_of_parameters(alloc, &self.parameters)?;
        let names = self.names.try_clone(alloc)?;
        let columns = copy_of_columns(alloc, self.columns.as_slice())?;
        Ok(AnyStatement {
            sql,
            parameters,
            names,
            columns,
        })
    }
}

impl AnyStatement {
    /// Its text.
    pub fn sql(&self) -> &SqlStr
        ensures { result.now ≡ self.now.sql }
    {
        &self.sql
    }

    /// Its text, where the statement isn't needed any more.
    pub fn into_sql(self) -> SqlStr
        ensures { result ≡ self.sql }
    {
        let AnyStatement {
            sql,
            parameters,
            names,
            columns,
        } = self;
        drop(parameters);
        drop(names);
        drop(columns);
        sql
    }

    /// The columns of its rows.
    pub fn columns(&self) -> &[AnyColumn]
        ensures { result.now ≡ self.now.columns }
    {
        self.columns.as_slice()
    }

    /// The types of its parameters, or how many there are, as far as the driver can tell.
    pub fn parameters(&self) -> Option<Either<&[AnyTypeInfo], usize>>
        ensures { parameters_seen result ≡ self.now.parameters }
    {
        match &self.parameters {
            Some(Either::Left(types)) => Some(Either::Left(types.as_slice())),
            Some(Either::Right(count)) => Some(Either::Right(*count)),
            None => None,
        }
    }

    /// The column at an index.
    pub fn try_column<I: ColumnIndex<AnyStatement> + Drop>(
        &self,
        alloc: Global,
        index: I,
    ) -> Result<&AnyColumn, Error>
        ensures { Answers (λ column. column.now) Error.OutOfMemory (at_place self.now.columns (I.place index self.now)) result }
    {
        match index.index(alloc, self) {
            Ok(at) => item_at(self.columns.as_slice(), at),
            Err(error) => Err(error),
        }
    }

    /// The column at an index, of which it is known that it names one.
    pub fn column<I: ColumnIndex<AnyStatement> + Drop>(
        &self,
        alloc: Global,
        index: I,
    ) -> Result<&AnyColumn, OutOfMemory>
        requires { IsGiven (at_place self.now.columns (I.place index self.now)) }
        ensures { IfOk result (λ column. at_place self.now.columns (I.place index self.now) ≡ Ok column.now) }
    {
        match self.try_column(alloc, index) {
            Ok(column) => Ok(column),
            Err(error) => {
                drop(error);
                Err(OutOfMemory)
            }
        }
    }
}

fn copy_of_parameters(
    alloc: Global,
    parameters: &Option<Either<Vec<AnyTypeInfo>, usize>>,
) -> Result<Option<Either<Vec<AnyTypeInfo>, usize>>, OutOfMemory>
    ensures { IfOk result (λ copy. parameters_held copy ≡ parameters_held parameters.now) }
{
    match parameters {
        Some(Either::Left(types)) => {
            let copy = Vec::from_slice(alloc, types.as_slice())?;
            Ok(Some(Either::Left(copy)))
        }
        Some(Either::Right(count)) => Ok(Some(Either::Right(*count))),
        None => Ok(None),
    }
}

impl<B: AnyConnectionBackend> Statement<Any<B>> for AnyStatement {
    ghost text = { λ statement. statement.sql };

    ghost described = { λ statement. statement.columns };

    ghost takes = { λ statement. statement.parameters };

    fn into_sql(self) -> SqlStr {
        self.into_sql()
    }

    fn sql(&self) -> &SqlStr {
        &self.sql
    }

    fn columns(&self) -> &[AnyColumn] {
        self.columns.as_slice()
    }

    fn parameters(&self) -> Option<Either<&[AnyTypeInfo], usize>> {
        self.parameters()
    }
}

impl ColumnIndex<AnyStatement> for usize {
    ghost use Rattle.std.specs.Prelude.{decimal, length};
    ghost use Rattle.sqlx_traits.specs.Places.{place_of_position};

    ghost place = { λ at statement. place_of_position at (length statement.columns) };

    ghost shown = { λ at. decimal at };

    fn index(&self, _alloc: Global, statement: &AnyStatement) -> Result<usize, Error> {
        index_of_position(*self, statement.columns.len())
    }

    fn label(&self, alloc: Global) -> Result<UStr, OutOfMemory> {
        label_of_position(alloc, *self)
    }
}

impl ColumnIndex<AnyStatement> for &str {
    ghost use Rattle.sqlx_traits.specs.Places.{in_quotes, place_of_name};
    ghost use Rattle.sqlx_any_values.specs.Names.{position_of};

    ghost place = { λ name statement. place_of_name (position_of name.now statement.names) name.now };

    ghost shown = { λ name. in_quotes name.now };

    fn index(&self, alloc: Global, statement: &AnyStatement) -> Result<usize, Error> {
        index_of_name(alloc, statement.names.get(*self), *self)
    }

    fn label(&self, alloc: Global) -> Result<UStr, OutOfMemory> {
        label_of_name(alloc, *self)
    }
}
