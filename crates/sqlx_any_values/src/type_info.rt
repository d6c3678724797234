//! The type of a value: its kind.
ghost use Rattle.std.specs.Prelude.{◌≡◌, Some};
ghost use Rattle.std.specs.Fmt.{padded};
ghost use Rattle.sqlx_text.specs.Kind.{kind_name};

use sqlx_text::AnyTypeInfoKind;
use sqlx_traits::TypeInfo;
use std::fmt;

/// The type of a value.
#[derive(Clone, Copy, Debug, PartialEq, Eq, Drop)]
pub struct AnyTypeInfo {
    pub kind: AnyTypeInfoKind,
}

impl AnyTypeInfo {
    /// Its kind.
    pub fn kind(&self) -> AnyTypeInfoKind
        ensures { result ≡ self.now.kind }
    {
        self.kind
    }
}

impl TypeInfo for AnyTypeInfo {
    ghost use Rattle.std.specs.Prelude.{Some};
    ghost use Rattle.sqlx_text.specs.Kind.{kind_name};
    ghost use Rattle.sqlx_any_values.specs.Kinds.{is_null_kind};

    ghost named = { λ ty. kind_name ty.kind };

    ghost null_type = { λ ty. is_null_kind ty.kind };

    ghost accepts = { λ own other. ⟦<AnyTypeInfo as PartialEq>⟧.eq own other };

    ghost kind = { λ ty. Some ty.kind };

    fn is_null(&self) -> bool {
        matches!(self.kind, AnyTypeInfoKind::Null)
    }

    fn name(&self) -> &str {
        self.kind.name()
    }

    fn type_compatible(&self, other: &Self) -> bool {
        *self == *other
    }

    fn is_void(&self) -> bool {
        false
    }

    fn any_kind(&self) -> Option<AnyTypeInfoKind> {
        Some(self.kind)
    }
}

impl fmt::Display for AnyTypeInfo {
    ghost output = { λ ty. Some (kind_name ty.kind) };

    ghost styled_output = { λ ty spec. Some (padded spec (kind_name ty.kind)) };

    fn fmt<W: fmt::Write>(&self, f: &mut fmt::Formatter<W>) -> fmt::Result {
        f.pad(self.kind.name())
    }
}
