//! What the Rust types keep as arguments and as reads: a value that is bound reads back as itself at its
//! own type, in a checked read and in one that isn't, and so does an option of it. Each law is the contract
//! of a function that does nothing.
ghost use Rattle.std.specs.Prelude.{None, Some, option_map, string_bytes};
ghost use Rattle.sqlx_any.specs.ReadsBack.{ReadsBack};

use crate::{Any, AnyConnectionBackend, AnyRead};
use sqlx_traits::Encode;

/// A bound `bool` reads back as itself, also as an option.
pub fn bool_reads_back<'q, B: AnyConnectionBackend>(x: bool)
    ensures alone { ReadsBack ⟦<bool as Encode<'q, Any<B>>>⟧.encoded ⟦<bool as AnyRead<'q>>⟧.reads (λ b. b) x }
    ensures some { ReadsBack ⟦<Option<bool> as Encode<'q, Any<B>>>⟧.encoded ⟦<Option<bool> as AnyRead<'q>>⟧.reads (option_map (λ b. b)) (Some x) }
    ensures none { ReadsBack ⟦<Option<bool> as Encode<'q, Any<B>>>⟧.encoded ⟦<Option<bool> as AnyRead<'q>>⟧.reads (option_map (λ b. b)) None }
{
    drop(x);
}

/// A bound `i16` reads back as itself, also as an option.
pub fn i16_reads_back<'q, B: AnyConnectionBackend>(x: i16)
    ensures alone { ReadsBack ⟦<i16 as Encode<'q, Any<B>>>⟧.encoded ⟦<i16 as AnyRead<'q>>⟧.reads (λ n. n) x }
    ensures some { ReadsBack ⟦<Option<i16> as Encode<'q, Any<B>>>⟧.encoded ⟦<Option<i16> as AnyRead<'q>>⟧.reads (option_map (λ n. n)) (Some x) }
    ensures none { ReadsBack ⟦<Option<i16> as Encode<'q, Any<B>>>⟧.encoded ⟦<Option<i16> as AnyRead<'q>>⟧.reads (option_map (λ n. n)) None }
{
    drop(x);
}

/// A bound `i32` reads back as itself, also as an option.
pub fn i32_reads_back<'q, B: AnyConnectionBackend>(x: i32)
    ensures alone { ReadsBack ⟦<i32 as Encode<'q, Any<B>>>⟧.encoded ⟦<i32 as AnyRead<'q>>⟧.reads (λ n. n) x }
    ensures some { ReadsBack ⟦<Option<i32> as Encode<'q, Any<B>>>⟧.encoded ⟦<Option<i32> as AnyRead<'q>>⟧.reads (option_map (λ n. n)) (Some x) }
    ensures none { ReadsBack ⟦<Option<i32> as Encode<'q, Any<B>>>⟧.encoded ⟦<Option<i32> as AnyRead<'q>>⟧.reads (option_map (λ n. n)) None }
{
    drop(x);
}

/// A bound `i64` reads back as itself, also as an option.
pub fn i64_reads_back<'q, B: AnyConnectionBackend>(x: i64)
    ensures alone { ReadsBack ⟦<i64 as Encode<'q, Any<B>>>⟧.encoded ⟦<i64 as AnyRead<'q>>⟧.reads (λ n. n) x }
    ensures some { ReadsBack ⟦<Option<i64> as Encode<'q, Any<B>>>⟧.encoded ⟦<Option<i64> as AnyRead<'q>>⟧.reads (option_map (λ n. n)) (Some x) }
    ensures none { ReadsBack ⟦<Option<i64> as Encode<'q, Any<B>>>⟧.encoded ⟦<Option<i64> as AnyRead<'q>>⟧.reads (option_map (λ n. n)) None }
{
    drop(x);
}

/// A bound `&str` reads back as itself, also as an option.
pub fn str_reads_back<'q, B: AnyConnectionBackend>(x: &'q str)
    ensures alone { ReadsBack ⟦<&'q str as Encode<'q, Any<B>>>⟧.encoded ⟦<&'q str as AnyRead<'q>>⟧.reads (λ text. text.now) x.entry }
    ensures some { ReadsBack ⟦<Option<&'q str> as Encode<'q, Any<B>>>⟧.encoded ⟦<Option<&'q str> as AnyRead<'q>>⟧.reads (option_map (λ text. text.now)) (Some x.entry) }
    ensures none { ReadsBack ⟦<Option<&'q str> as Encode<'q, Any<B>>>⟧.encoded ⟦<Option<&'q str> as AnyRead<'q>>⟧.reads (option_map (λ text. text.now)) None }
{
    drop(x);
}

/// A bound `String` reads back as itself, also as an option.
pub fn string_reads_back<'q, B: AnyConnectionBackend>(x: String)
    ensures alone { ReadsBack ⟦<String as Encode<'q, Any<B>>>⟧.encoded ⟦<String as AnyRead<'q>>⟧.reads string_bytes x }
    ensures some { ReadsBack ⟦<Option<String> as Encode<'q, Any<B>>>⟧.encoded ⟦<Option<String> as AnyRead<'q>>⟧.reads (option_map string_bytes) (Some x) }
    ensures none { ReadsBack ⟦<Option<String> as Encode<'q, Any<B>>>⟧.encoded ⟦<Option<String> as AnyRead<'q>>⟧.reads (option_map string_bytes) None }
{
    drop(x);
}

/// A bound `&[u8]` reads back as itself, also as an option.
pub fn slice_reads_back<'q, B: AnyConnectionBackend>(x: &'q [u8])
    ensures alone { ReadsBack ⟦<&'q [u8] as Encode<'q, Any<B>>>⟧.encoded ⟦<&'q [u8] as AnyRead<'q>>⟧.reads (λ bytes. bytes.now) x.entry }
    ensures some { ReadsBack ⟦<Option<&'q [u8]> as Encode<'q, Any<B>>>⟧.encoded ⟦<Option<&'q [u8]> as AnyRead<'q>>⟧.reads (option_map (λ bytes. bytes.now)) (Some x.entry) }
    ensures none { ReadsBack ⟦<Option<&'q [u8]> as Encode<'q, Any<B>>>⟧.encoded ⟦<Option<&'q [u8]> as AnyRead<'q>>⟧.reads (option_map (λ bytes. bytes.now)) None }
{
    drop(x);
}

/// A bound `Vec<u8>` reads back as itself, also as an option.
pub fn vec_reads_back<'q, B: AnyConnectionBackend>(x: Vec<u8>)
    ensures alone { ReadsBack ⟦<Vec<u8> as Encode<'q, Any<B>>>⟧.encoded ⟦<Vec<u8> as AnyRead<'q>>⟧.reads (λ bytes. bytes.items) x }
    ensures some { ReadsBack ⟦<Option<Vec<u8>> as Encode<'q, Any<B>>>⟧.encoded ⟦<Option<Vec<u8>> as AnyRead<'q>>⟧.reads (option_map (λ bytes. bytes.items)) (Some x) }
    ensures none { ReadsBack ⟦<Option<Vec<u8>> as Encode<'q, Any<B>>>⟧.encoded ⟦<Option<Vec<u8>> as AnyRead<'q>>⟧.reads (option_map (λ bytes. bytes.items)) None }
{
    drop(x);
}
