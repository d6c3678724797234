//! What is read of values: each Rust type reads what it is encoded as.
ghost use Rattle.std.specs.Prelude.{⊤};

use crate::binds::copied;
use crate::{Held, Toy, ToyValue};
use sqlx_text::Fault;
use sqlx_traits::{Decode, DecodeOwned};
use std::alloc::Global;

// The whole number that a value holds.
fn whole(value: &ToyValue) -> Result<i64, Fault> {
    match value.held {
        Held::Whole(n) => Ok(n),
        _ => Err(unread(value)),
    }
}

// The text that a value holds.
fn text(value: &ToyValue) -> Result<&str, Fault> {
    match &value.held {
        Held::Text(text) => Ok(text.as_str()),
        _ => Err(unread(value)),
    }
}

// Why a value can't be read.
fn unread(value: &ToyValue) -> Fault {
    match value.held {
        Held::Nothing => Fault::UnexpectedNull,
        _ => Fault::OutOfRange,
    }
}

impl DecodeOwned<Toy> for bool {
    ghost reads = { λ _ _. ⊤ };

    fn decode_owned(_alloc: Global, value: &ToyValue) -> Result<bool, Fault> {
        match value.held {
            Held::Flag(flag) => Ok(flag),
            _ => Err(unread(value)),
        }
    }
}

impl DecodeOwned<Toy> for i16 {
    ghost reads = { λ _ _. ⊤ };

    fn decode_owned(_alloc: Global, value: &ToyValue) -> Result<i16, Fault> {
        match i16::try_from(whole(value)?) {
            Ok(n) => Ok(n),
            Err(_) => Err(Fault::OutOfRange),
        }
    }
}

impl DecodeOwned<Toy> for i32 {
    ghost reads = { λ _ _. ⊤ };

    fn decode_owned(_alloc: Global, value: &ToyValue) -> Result<i32, Fault> {
        match i32::try_from(whole(value)?) {
            Ok(n) => Ok(n),
            Err(_) => Err(Fault::OutOfRange),
        }
    }
}

impl DecodeOwned<Toy> for i64 {
    ghost reads = { λ _ _. ⊤ };

    fn decode_owned(_alloc: Global, value: &ToyValue) -> Result<i64, Fault> {
        whole(value)
    }
}

impl<'r> Decode<'r, Toy> for &'r str {
    ghost reads = { λ _ _. ⊤ };

    fn decode(_alloc: Global, value: &'r ToyValue) -> Result<&'r str, Fault> {
        text(value)
    }
}

impl DecodeOwned<Toy> for String {
    ghost reads = { λ _ _. ⊤ };

    fn decode_owned(alloc: Global, value: &ToyValue) -> Result<String, Fault> {
        match text(value)?.to_string(alloc) {
            Ok(text) => Ok(text),
            Err(_) => Err(Fault::OutOfMemory),
        }
    }
}

impl DecodeOwned<Toy> for Vec<u8> {
    ghost reads = { λ _ _. ⊤ };

    fn decode_owned(alloc: Global, value: &ToyValue) -> Result<Vec<u8>, Fault> {
        match &value.held {
            Held::Bytes(bytes) => Ok(copied(alloc, bytes.as_slice())?),
            _ => Err(unread(value)),
        }
    }
}
