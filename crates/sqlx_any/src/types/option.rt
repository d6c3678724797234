//! Options: as an argument `None` is a null of the kind that the type under it has.

use crate::{Any, AnyArgumentBuffer, AnyConnectionBackend, AnyTypeInfo};
use sqlx_any_values::types::put_null;
use sqlx_text::Fault;
use sqlx_traits::{Encode, IsNull, SqlType};
use std::alloc::Global;

impl<'q, B: AnyConnectionBackend, T: Encode<'q, Any<B>> + SqlType<Any<B>>> Encode<'q, Any<B>>
    for Option<T> {
    ghost use Rattle.std.specs.Prelude.{None, Some};
    ghost use Rattle.sqlx_traits.specs.Arguments.{IsWantOfMemory};
    ghost use Rattle.sqlx_traits.specs.declared.encode.IsNull.TheVariants.{Yes};
    ghost use Rattle.sqlx_any_values.specs.Kinds.{with_null};

    ghost encoded = { λ x list. elim x [ None ↦ with_null T.own_type.kind list | Some y ↦ T.encoded y list ] };

    ghost null = { λ x. elim x [ None ↦ Yes | Some y ↦ T.null y ] };

    ghost refuses = { λ x fault. elim x [ None ↦ IsWantOfMemory fault | Some y ↦ T.refuses y fault ] };

    ghost produced = { λ _. None };

    ghost size = { λ x. elim x [ None ↦ 0 | Some y ↦ T.size y ] };

    fn encode(self, alloc: Global, buf: &mut AnyArgumentBuffer) -> Result<IsNull, Fault> {
        match self {
            Some(value) => value.encode(alloc, buf),
            None => put_null(buf, T::type_info().kind),
        }
    }

    fn encode_by_ref(&self, alloc: Global, buf: &mut AnyArgumentBuffer) -> Result<IsNull, Fault> {
        match self {
            Some(value) => value.encode_by_ref(alloc, buf),
            None => put_null(buf, T::type_info().kind),
        }
    }

    fn produces(&self) -> Option<AnyTypeInfo> {
        None
    }

    fn size_hint(&self) -> usize {
        match self {
            Some(value) => value.size_hint(),
            None => 0,
        }
    }
}
