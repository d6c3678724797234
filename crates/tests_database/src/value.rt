//! Values.
ghost use Rattle.std.specs.Prelude.{◌≡◌};

use crate::{Toy, ToyType};
use sqlx_text::{AnyTypeInfoKind, UStr};
use sqlx_traits::Value;
use std::fmt;
use std::marker::Model;

/// Bytes.
#[derive(Drop)]
pub struct Bytes {
    bytes: Vec<u8>,
}

impl Model for Bytes {
    ghost use Rattle.std.specs.Prelude.{List, ℕ};

    ghost Value = { List ℕ };

    ghost view = { λ held. held.bytes.items };
}

impl Bytes {
    /// The bytes of a list.
    pub fn from_vec(bytes: Vec<u8>) -> Bytes
        ensures { result ≡ bytes.items }
    {
        Bytes { bytes }
    }

    /// The bytes.
    pub fn as_slice(&self) -> &[u8]
        ensures { result.now ≡ self.now }
    {
        self.bytes.as_slice()
    }
}

/// What a value holds.
#[derive(Drop)]
pub enum Held {
    Nothing,
    Flag(bool),
    Whole(i64),
    Text(UStr),
    Bytes(Bytes),
}

/// A value: the kind of its type, and what it holds.
#[derive(Drop)]
pub struct ToyValue {
    pub kind: Option<AnyTypeInfoKind>,
    pub held: Held,
}

impl Value<Toy> for ToyValue {
    ghost use Rattle.std.specs.Prelude.{false, true};
    ghost use Rattle.tests_database.specs.declared.value.Held.TheVariants.{Nothing};

    ghost itself = { λ value. value };

    ghost type_of = { λ value. record { kind = value.kind } };

    ghost null = { λ value. elim value.held [ Nothing ↦ true | _ ↦ false ] };

    fn as_value(&self) -> &ToyValue {
        self
    }

    fn type_info(&self) -> ToyType {
        ToyType { kind: self.kind }
    }

    fn is_null(&self) -> bool {
        matches!(self.held, Held::Nothing)
    }
}

impl fmt::Display for ToyValue {
    fn fmt<W: fmt::Write>(&self, f: &mut fmt::Formatter<W>) -> fmt::Result {
        match &self.held {
            Held::Nothing => f.write_str("null"),
            Held::Flag(flag) => write!(f, "{flag}"),
            Held::Whole(n) => write!(f, "{n}"),
            Held::Text(text) => f.write_str(text.as_str()),
            Held::Bytes(bytes) => {
                let bytes = bytes.as_slice();
                write!(f, "{bytes:?}")
            }
        }
    }
}
