//! The kinds of values that each database of the project knows, and their names.
ghost use Rattle.std.specs.Prelude.{◌≡◌, Some};
ghost use Rattle.std.specs.Fmt.{padded};
ghost use Rattle.sqlx_text.specs.Kind.{kind_name, is_whole_number};

use std::fmt;

/// The kind of a value.
#[derive(Clone, Copy, Debug, PartialEq, Eq)]
pub enum AnyTypeInfoKind {
    Null,
    Bool,
    SmallInt,
    Integer,
    BigInt,
    Text,
    Blob,
}

impl AnyTypeInfoKind {
    /// The name of the kind, as SQL writes it.
    pub fn name(&self) -> &'static str
        ensures { result.now ≡ kind_name self.now }
    {
        match self {
            AnyTypeInfoKind::Null => "NULL",
            AnyTypeInfoKind::Bool => "BOOLEAN",
            AnyTypeInfoKind::SmallInt => "SMALLINT",
            AnyTypeInfoKind::Integer => "INTEGER",
            AnyTypeInfoKind::BigInt => "BIGINT",
            AnyTypeInfoKind::Text => "TEXT",
            AnyTypeInfoKind::Blob => "BLOB",
        }
    }

    /// Whether the values of the kind are whole numbers.
    pub fn is_integer(&self) -> bool
        ensures { result ≡ is_whole_number self.now }
    {
        matches!(
            self,
            AnyTypeInfoKind::SmallInt | AnyTypeInfoKind::Integer | AnyTypeInfoKind::BigInt
        )
    }
}

impl fmt::Display for AnyTypeInfoKind {
    ghost output = { λ kind. Some (kind_name kind) };

    ghost styled_output = { λ kind spec. Some (padded spec (kind_name kind)) };

    fn fmt<W: fmt::Write>(&self, f: &mut fmt::Formatter<W>) -> fmt::Result {
        f.pad(self.name())
    }
}
