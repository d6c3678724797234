//! What each call of an executor gives of the steps that it hands out.

use crate::says::*;
use std::alloc::Global;
use std::test::*;
use tests_database::steps::{Call, gives};
use tests_database::{Toy, ToyConnection};

const BROKEN: &str = "error communicating with database: other error|";

const NO_ROW: &str = "no rows returned by a query that expected to return at least one row|";

fn of_toy(alloc: Global, conn: ToyConnection, call: Call) -> String {
    let mut conn = conn;
    let mut line = String::new(alloc);
    text(
        &mut line,
        gives::<Toy, ToyConnection, &str>(alloc, call, &mut conn, "SELECT"),
    );
    drop(conn);
    line
}

#[test]
fn calls_filter_one_list(rt: HostRuntime) -> Result<(), Fail> {
    let alloc = rt.alloc();
    for (call, letters, want) in &[
        (Call::Execute, "t1l2", "ToyQueryResult(3)|"),
        (Call::Execute, "1t!", BROKEN),
        (Call::Execute, "", "ToyQueryResult(0)|"),
        (Call::FetchAll, "t1l2", "text|large||"),
        (Call::FetchAll, "1t!", BROKEN),
        (Call::FetchAll, "12", "|"),
        (Call::FetchOptional, "1t!", "text|"),
        (Call::FetchOptional, "12!", BROKEN),
        (Call::FetchOptional, "12", "none|"),
        (Call::FetchOne, "lt!", "large|"),
        (Call::FetchOne, "12!", BROKEN),
        (Call::FetchOne, "12", NO_ROW),
        (Call::Fetch, "t1l2t", "text|large|text||"),
        (
            Call::Fetch,
            "t12!",
            "text|error communicating with database: other error||",
        ),
        (
            Call::ExecuteMany,
            "t1l2t",
            "ToyQueryResult(1)|ToyQueryResult(2)||",
        ),
        (Call::ExecuteMany, "1", "ToyQueryResult(1)||"),
        (
            Call::FetchMany,
            "t1!",
            "text|ToyQueryResult(1)|error communicating with database: other error||",
        ),
        (Call::FetchMany, "", "|"),
    ] {
        let conn = ToyConnection::new(alloc, letters)?;
        says(&rt, of_toy(alloc, conn, *call), want);
    }
    Ok(())
}
