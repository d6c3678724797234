//! The types of values.
ghost use Rattle.std.specs.Prelude.{◌≡◌, Some};

use sqlx_text::AnyTypeInfoKind;
use sqlx_traits::TypeInfo;

/// The type that has a kind, or `POINT`, which has none.
#[derive(Clone, Copy, PartialEq, Eq, Drop)]
pub struct ToyType {
    pub kind: Option<AnyTypeInfoKind>,
}

impl ToyType {
    /// The type that has the kind.
    pub fn of(kind: AnyTypeInfoKind) -> ToyType
        ensures { result ≡ record { kind = Some kind } }
    {
        ToyType { kind: Some(kind) }
    }
}

impl TypeInfo for ToyType {
    ghost use Rattle.std.specs.Prelude.{None, Some, codes, false, true};
    ghost use Rattle.sqlx_text.specs.Kind.{kind_name};
    ghost use Rattle.sqlx_text.specs.declared.kind.AnyTypeInfoKind.TheVariants.{Null};

    ghost named = { λ ty. elim ty.kind [ None ↦ codes "POINT" | Some kind ↦ kind_name kind ] };

    ghost null_type = { λ ty. elim ty.kind [ Some Null ↦ true | _ ↦ false ] };

    ghost accepts = { λ own other. ⟦<ToyType as PartialEq>⟧.eq own other };

    ghost kind = { λ ty. ty.kind };

    fn is_null(&self) -> bool {
        matches!(self.kind, Some(AnyTypeInfoKind::Null))
    }

    fn name(&self) -> &str {
        match &self.kind {
            Some(kind) => kind.name(),
            None => "POINT",
        }
    }

    fn type_compatible(&self, other: &Self) -> bool {
        *self == *other
    }

    fn is_void(&self) -> bool {
        false
    }

    fn any_kind(&self) -> Option<AnyTypeInfoKind> {
        self.kind
    }
}
