//! The Rust types as arguments and as reads of values: truth values, whole numbers, texts, bytes, and
//! each of them as an option. What they have in common stands in `sqlx_any_values`.

mod bool;
mod bytes;
mod int;
mod option;
mod text;
