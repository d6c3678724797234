//! The forms in `Any` of the types and columns that a database has of its own.
ghost use Rattle.std.specs.Prelude.{◌≡◌, ◌++◌, ◌∷◌, [], IfOk, OnOk, length};
ghost use Rattle.sqlx_traits.specs.Parameters.{parameters_seen};
ghost use Rattle.sqlx_traits.specs.Reads.{Answers};
ghost use Rattle.sqlx_any.specs.Native.{native_columns, native_parameters, native_type, native_types};
ghost use Rattle.sqlx_any.specs.Rows.{parameters_held};

use crate::{AnyColumn, AnyTypeInfo};
use sqlx_text::{Error, Fault, OutOfMemory, UStr};
use sqlx_traits::{Column, Database, Either, TypeInfo};
use std::alloc::Global;

/// The type, and `AnyDriverError` exactly where it has no kind.
pub(crate) fn type_from<T: TypeInfo>(alloc: Global, ty: &T) -> Result<AnyTypeInfo, Error>
    ensures { Answers (λ form. form) Error.OutOfMemory (native_type T.kind T.named ty.now) result }
{
    match ty.any_kind() {
        Some(kind) => Ok(AnyTypeInfo { kind }),
        None => match UStr::new(alloc, ty.name()) {
            Ok(name) => Err(Error::AnyDriverError(Fault::NoKind(name))),
            Err(_) => Err(Error::OutOfMemory),
        },
    }
}

/// The types in order, and the refusal of the first one that has no kind.
pub(crate) fn types_from<T: TypeInfo>(alloc: Global, types: &[T]) -> Result<Vec<AnyTypeInfo>, Error>
    ensures { Answers (λ forms. forms.items) Error.OutOfMemory (native_types T.kind T.named types.now) result }
{
    let mut forms = Vec::new(alloc);
    for ty in types {
        match type_from::<T>(alloc, ty) {
            Ok(form) => keep(&mut forms, form)?,
            Err(error) => return Err(error),
        }
    }
    Ok(forms)
}

/// What is told of parameters, and the refusal of the first type that has no kind.
pub(crate) fn parameters_from<T: TypeInfo>(
    alloc: Global,
    parameters: Option<Either<&[T], usize>>,
) -> Result<Option<Either<Vec<AnyTypeInfo>, usize>>, Error>
    ensures { Answers (λ forms. parameters_held forms) Error.OutOfMemory (native_parameters T.kind T.named (parameters_seen parameters.entry)) result }
{
    match parameters {
        Some(Either::Left(types)) => match types_from::<T>(alloc, types) {
            Ok(forms) => Ok(Some(Either::Left(forms))),
            Err(error) => Err(error),
        },
        Some(Either::Right(count)) => Ok(Some(Either::Right(count))),
        None => Ok(None),
    }
}

/// The columns in order, and the refusal of the first one whose type has no kind.
pub(crate) fn columns_from<DB: Database>(
    alloc: Global,
    columns: &[DB::Column],
) -> Result<Vec<AnyColumn>, Error>
    ensures forms { Answers (λ forms. forms.items) Error.OutOfMemory (native_columns DB.TypeInfo.kind DB.TypeInfo.named DB.Column.at DB.Column.named DB.Column.typed columns.now) result }
    ensures as_many { IfOk result (λ forms. length forms.items ≡ length columns.now) }
{
    let mut forms = Vec::new(alloc);
    for column in columns {
        match AnyColumn::from_column::<DB>(alloc, column) {
            Ok(form) => keep(&mut forms, form)?,
            Err(error) => return Err(error),
        }
    }
    Ok(forms)
}

/// Adds an item at the end.
pub(crate) fn keep<T: Drop>(list: &mut Vec<T>, item: T) -> Result<(), OutOfMemory>
    ensures { OnOk result (list.new.items ≡ list.old.items ++ item ∷ []) }
{
    Ok(list.push(item)?)
}
