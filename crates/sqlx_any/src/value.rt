//! Values as those of a database of `Any`.

use crate::{Any, AnyConnectionBackend, AnyTypeInfo, AnyValue, AnyValueKind};
use sqlx_traits::Value;

impl<B: AnyConnectionBackend> Value<Any<B>> for AnyValue {
    ghost use Rattle.sqlx_any_values.specs.Kinds.{is_null_kind, kind_of};

    ghost itself = { λ value. value };

    ghost type_of = { λ value. record { kind = kind_of value.kind } };

    ghost null = { λ value. is_null_kind (kind_of value.kind) };

    fn as_value(&self) -> &AnyValue {
        self
    }

    fn type_info(&self) -> AnyTypeInfo {
        AnyTypeInfo {
            kind: self.kind.kind(),
        }
    }

    fn is_null(&self) -> bool {
        matches!(self.kind, AnyValueKind::Null(_))
    }
}
