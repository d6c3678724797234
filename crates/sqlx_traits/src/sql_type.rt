//! The SQL type of a Rust type.
ghost use Rattle.std.specs.Prelude.{◌≡◌, ◌⊎◌, ℕ, Bool, List, Some};

use crate::{Database, TypeInfo};
use sqlx_text::{Fault, UStr};
use std::alloc::Global;

/// The SQL type of a Rust type, and the types whose values can be read as it.
pub trait SqlType<DB: Database> {
    /// The name of the Rust type.
    ghost called: { List ℕ };

    /// The SQL type of its values.
    ghost own_type: { DB.TypeInfo };

    /// The types whose values can be read as it.
    ghost reads_type: { DB.TypeInfo → Bool };

    /// The name of the Rust type. In sqlx: `type_name`.
    fn name() -> &'static str
        ensures { result.now ≡ called };

    /// The SQL type of its values.
    fn type_info() -> DB::TypeInfo
        ensures { result ≡ own_type };

    /// Whether a value of the type can be read as it; mostly, whether its own type is compatible.
    fn compatible(ty: &DB::TypeInfo) -> bool
        ensures { result ≡ reads_type ty.now };
}

impl<DB: Database, T: SqlType<DB>> SqlType<DB> for &T {
    ghost called = { T.called };

    ghost own_type = { T.own_type };

    ghost reads_type = { T.reads_type };

    fn name() -> &'static str {
        T::name()
    }

    fn type_info() -> DB::TypeInfo {
        T::type_info()
    }

    fn compatible(ty: &DB::TypeInfo) -> bool {
        T::compatible(ty)
    }
}

impl<DB: Database, T: SqlType<DB>> SqlType<DB> for Option<T> {
    ghost use Rattle.std.specs.Prelude.{◌||◌};

    ghost called = { T.called };

    ghost own_type = { T.own_type };

    ghost reads_type = { λ ty. DB.TypeInfo.null_type ty || T.reads_type ty };

    fn name() -> &'static str {
        T::name()
    }

    fn type_info() -> DB::TypeInfo {
        T::type_info()
    }

    fn compatible(ty: &DB::TypeInfo) -> bool {
        ty.is_null() || T::compatible(ty)
    }
}

/// The fault of a value whose type the Rust type doesn't read.
pub fn mismatched_types<DB: Database, T: SqlType<DB>>(alloc: Global, ty: &DB::TypeInfo) -> Fault
    ensures { (result ≡ Fault.Mismatched T.called (Some (DB.TypeInfo.named T.own_type)) (DB.TypeInfo.named ty.now)) ⊎ (result ≡ Fault.OutOfMemory) }
{
    let own = T::type_info();
    match UStr::new(alloc, own.name()) {
        Ok(own) => mismatched::<DB, T>(alloc, ty, Some(own)),
        Err(_) => Fault::OutOfMemory,
    }
}

/// The same, where the SQL type of the Rust type is told or not.
pub(crate) fn mismatched<DB: Database, T: SqlType<DB>>(
    alloc: Global,
    ty: &DB::TypeInfo,
    own: Option<UStr>,
) -> Fault
    ensures { (result ≡ Fault.Mismatched T.called own (DB.TypeInfo.named ty.now)) ⊎ (result ≡ Fault.OutOfMemory) }
{
    match UStr::new(alloc, ty.name()) {
        Ok(sql) => Fault::Mismatched {
            rust: UStr::from_static(T::name()),
            sql_of_rust: own,
            sql,
        },
        Err(_) => {
            drop(own);
            Fault::OutOfMemory
        }
    }
}
