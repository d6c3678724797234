//! What is told of a text without running it.
ghost use Rattle.std.specs.Prelude.{◌≡◌, ◌<◌, Some, length, slice_get};
ghost use Rattle.std.specs.Option.{option_flatten};
ghost use Rattle.sqlx_traits.specs.Parameters.{parameters_seen};
ghost use Rattle.sqlx_any.specs.Described.{native_held, held};
ghost use Rattle.sqlx_any.specs.Native.{Forms};
ghost use Rattle.sqlx_any.specs.Rows.{parameters_held};

use crate::native::{columns_from, parameters_from};
use crate::{Any, AnyConnectionBackend};
use sqlx_text::Error;
use sqlx_traits::{Database, Either};
use std::alloc::Global;

/// What is told of a text without running it.
#[derive(Drop)]
pub struct Describe<DB: Database> {
    /// The columns of its rows.
    pub columns: Vec<DB::Column>,
    /// The types of its parameters, or how many there are, as far as the driver can tell.
    pub parameters: Option<Either<Vec<DB::TypeInfo>, usize>>,
    /// Of each column, whether it can be null, as far as the driver can tell.
    pub nullable: Vec<Option<bool>>,
}

impl<DB: Database> Describe<DB> {
    /// The columns.
    pub fn columns(&self) -> &[DB::Column]
        ensures { result.now ≡ self.now.columns.items }
    {
        self.columns.as_slice()
    }

    /// The column at a position, which has to be below the number of columns.
    pub fn column(&self, index: usize) -> &DB::Column
        requires { index < length self.now.columns.items }
        ensures { slice_get self.now.columns.items index ≡ Some result.now }
    {
        &self.columns[index]
    }

    /// The types of the parameters, or how many there are, as far as the driver can tell.
    pub fn parameters(&self) -> Option<Either<&[DB::TypeInfo], usize>>
        ensures { parameters_seen result ≡ parameters_held self.now.parameters }
    {
        match &self.parameters {
            Some(Either::Left(types)) => Some(Either::Left(types.as_slice())),
            Some(Either::Right(count)) => Some(Either::Right(*count)),
            None => None,
        }
    }

    /// Whether the column at a position can be null; `None` where the driver can't tell, and past the end.
    pub fn nullable(&self, column: usize) -> Option<bool>
        ensures { result ≡ option_flatten (slice_get self.now.nullable.items column) }
    {
        match self.nullable.get(column) {
            Some(nullable) => *nullable,
            None => None,
        }
    }

    /// The same in `Any`. An error is `AnyDriverError` of the first type without a kind, of a column before that of a parameter, or want of memory.
    pub fn try_into_any<B: AnyConnectionBackend>(
        self,
        alloc: Global,
    ) -> Result<Describe<Any<B>>, Error>
        ensures { Forms (λ made. held made.columns made.parameters made.nullable)
            (native_held DB.TypeInfo.kind DB.TypeInfo.named DB.Column.at DB.Column.named DB.Column.typed self.columns self.parameters self.nullable) result }
    {
        let columns = match columns_from::<DB>(alloc, self.columns()) {
            Ok(columns) => columns,
            Err(error) => {
                drop(self);
                return Err(error);
            }
        };
        match parameters_from::<DB::TypeInfo>(alloc, self.parameters()) {
            Ok(parameters) => Ok(Describe {
                columns,
                parameters,
                nullable: self.into_nullable(),
            }),
            Err(error) => {
                drop(self);
                drop(columns);
                Err(error)
            }
        }
    }

    fn into_nullable(self) -> Vec<Option<bool>>
        ensures { result ≡ self.nullable }
    {
        let Describe {
            columns,
            parameters,
            nullable,
        } = self;
        drop(columns);
        drop(parameters);
        nullable
    }
}
