//! Queries of a connection of `Any` over a backend.

use crate::calls::joined;
use crate::says::says;
use sqlx_any::AnyConnection;
use sqlx_text::Error;
use std::alloc::Global;
use std::test::*;
use tests_backend::StubBackend;
use tests_kv::{Act, answers};

// What a backend by letters was handed with an act's query, and what came of it.
fn of_backend(alloc: Global, letters: &str, act: Act) -> Result<String, Error> {
    let mut conn = AnyConnection::new(StubBackend::new(alloc, letters)?);
    let given = answers(alloc, &mut conn, &[act]);
    let handed = conn.backend().handed_shown(alloc);
    drop(conn);
    Ok(joined(alloc, handed, ", ", given)?)
}

#[test]
fn a_backend_is_handed_a_query(rt: HostRuntime) -> Result<(), Fail> {
    for (act, letters, want) in &[
        (Act::Steps, "i", "UPDATE Text x|, number||"),
        (Act::Tuples, "i2i", "SELECT kept , [(5,), (5,)]|"),
        (
            Act::Tuples,
            "it",
            "SELECT kept , error occurred while decoding column 0: mismatched types; Rust type `i64` is not compatible with SQL type `TEXT`|",
        ),
    ] {
        says(&rt, of_backend(rt.alloc(), letters, *act), want)?;
    }
    Ok(())
}
