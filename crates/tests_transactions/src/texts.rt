//! The texts of levels, by depth.

use sqlx_text::{OutOfMemory, SqlStr};
use sqlx_tx::{
    begin_ansi_transaction_sql, commit_ansi_transaction_sql, laws, rollback_ansi_transaction_sql,
};
use std::alloc::Global;
use std::process::Abort;
use std::test::*;

// What a text does to a level.
enum Does {
    Begins,
    Commits,
    RollsBack,
}

const TEXTS: &[(Does, usize, &str)] = &[
    (Does::Begins, 0, "BEGIN"),
    (Does::Begins, 1, "SAVEPOINT _sqlx_savepoint_1"),
    (Does::Commits, 1, "COMMIT"),
    (Does::Commits, 3, "RELEASE SAVEPOINT _sqlx_savepoint_2"),
    (Does::RollsBack, 1, "ROLLBACK"),
    (
        Does::RollsBack,
        2,
        "ROLLBACK TO SAVEPOINT _sqlx_savepoint_1",
    ),
];

// The text; at depth 0 a level can only begin.
fn text_of(alloc: Global, does: &Does, depth: usize) -> Result<SqlStr, OutOfMemory> {
    match does {
        Does::Commits if depth > 0 => commit_ansi_transaction_sql(alloc, depth),
        Does::RollsBack if depth > 0 => rollback_ansi_transaction_sql(alloc, depth),
        _ => begin_ansi_transaction_sql(alloc, depth),
    }
}

// Stops the test where it is another text.
fn says<R: Abort>(rt: &R, text: SqlStr, want: &str) {
    assert_eq!(rt; text.as_str(), want);
    drop(text);
}

#[test]
fn texts_go_by_depth(rt: HostRuntime) -> Result<(), Fail> {
    for (does, depth, want) in TEXTS {
        says(&rt, text_of(rt.alloc(), does, *depth)?, want);
    }
    laws::savepoints_are_levels();
    Ok(())
}
