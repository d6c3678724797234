//! The type of a value, as the database calls it.
ghost use Rattle.std.specs.Prelude.{◌≡◌, ℕ, Bool, List, Option};
ghost use Rattle.sqlx_text.specs.declared.kind.AnyTypeInfoKind.{AnyTypeInfoKind};

use sqlx_text::AnyTypeInfoKind;

/// The type of a value.
pub trait TypeInfo: PartialEq + Sized {
    /// Its name.
    ghost named: { Self → List ℕ };

    /// Whether it is the type of nulls.
    ghost null_type: { Self → Bool };

    /// Whether a value of the second type can be taken for one of the first.
    ghost accepts: { Self → Self → Bool };

    /// Whether it is the type of no value.
    ghost void: { Self → Bool } = { λ _. Bool.false };

    /// The kind that each database of the project knows it by, where there is one.
    ghost kind: { Self → Option AnyTypeInfoKind };

    /// Whether it is the type of nulls.
    fn is_null(&self) -> bool
        ensures { result ≡ null_type self.now };

    /// Its name.
    fn name(&self) -> &str
        ensures { result.now ≡ named self.now };

    /// Whether a value of the other type can be taken for one of this; mostly, whether they are equal.
    fn type_compatible(&self, other: &Self) -> bool
        ensures { result ≡ accepts self.now other.now };

    /// Whether it is the type of no value.
    fn is_void(&self) -> bool
        ensures { result ≡ void self.now };

    /// The kind that each database of the project knows it by, where there is one.
    fn any_kind(&self) -> Option<AnyTypeInfoKind>
        ensures { result ≡ kind self.now };
}
