//! Scripts of tenants, what they write, and the exit status with the text of the fault.
use sqlx_player::{SureSink, SureSource, outcome};
use sqlx_tenants::{USAGE, run};
use std::alloc::{AllocError, Global};
use std::test::*;

// A script, what is written, and the exit status with the text of the fault.
struct Row {
    script: &'static str,
    output: &'static str,
    end: &'static str,
}

const ROWS: &[Row] = &[
    // A refused connect leaves the permit with its tenant, who gives it back by going.
    Row {
        script: "tenants 1 5\ntenant 0 1\nask 0 1 2\nask 0 1 1\npoll 0 1 1 1 i\nuse 0 1\ntenant 0 1\nask 0 2 2\npoll 0 2 2 2 +\nretire 0 1\npoll 4 2 2 2 +\nask 4 1 1\n",
        output: "tenant 1\nNoTenant\nticket 1\nIo\nopen 0 owned 1\ntenant 2\nticket 2\nwaiting\nretired 0\nready 1\nPoolClosed\nopen 1 of 1\n",
        end: "0",
    },
    // A connection that is out when its tenant goes is closed as it comes back; exactly at its deadline a ticket is late.
    Row {
        script: "tenants 2 5\ntenant 0 2\nask 0 7 1\npoll 0 7 1 1 +\nask 0 8 1\nretire 0 1\nuse 0 1\ngive 1 8 1 1\ngive 1 7 1 1\ntenant 1 2\nask 1 9 2\npoll 6 9 2 3 +\npoll 6 8 1 2 +\npoll 6 8 1 2 +\nretire 6 1\n",
        output: "tenant 1\nticket 1\nready 1\nticket 2\nretired 0\nopen 1 owned 1\nNotHeld\nclosed\ntenant 2\nticket 3\nPoolTimedOut\nPoolClosed\nNotHeld\nretired 0\nopen 0 of 2\n",
        end: "0",
    },
    // A budget above the limit.
    Row {
        script: "tenants 2 5\ntenant 0 2\ntenant 0 3\n",
        output: "tenant 1\n",
        end: "4 script line 3",
    },
    // A moment below the last.
    Row {
        script: "tenants 2 5\ntenant 4 2\nuse 3 1\n",
        output: "tenant 1\n",
        end: "4 script line 3",
    },
    Row {
        script: "",
        output: "",
        end: "4 script line 1",
    },
];

// Whether a script writes and ends as its row says.
fn plays(alloc: Global, row: &Row) -> Result<bool, AllocError> {
    let mut source = SureSource::new(Vec::from_slice(alloc, row.script.as_bytes())?);
    let mut sink = SureSink::new(alloc);
    let answer = run(alloc, &[], &mut source, &mut sink);
    let end = outcome(alloc, USAGE, &answer)?;
    Ok(sink.written() == row.output.as_bytes() && end.as_str() == row.end)
}

// How many of the rows play so, up to the first one that doesn't.
fn count_plays(alloc: Global, rows: &[Row]) -> Result<usize, AllocError> {
    for at in 0..rows.len() {
        if !plays(alloc, &rows[at])? {
            return Ok(at);
        }
    }
    Ok(rows.len())
}

#[test]
fn scripts_write_and_end_so(rt: HostRuntime) -> Result<(), Fail> {
    let count = count_plays(rt.alloc(), ROWS)?;
    assert_eq!(rt; count, ROWS.len());
    Ok(())
}

#[test]
fn a_word_is_a_wrong_use(rt: HostRuntime) -> Result<(), Fail> {
    let alloc = rt.alloc();
    let words = vec![in alloc; String::from_str(alloc, "make")?]?;
    let mut source = SureSource::new(Vec::new(alloc));
    let mut sink = SureSink::new(alloc);
    let answer = run(alloc, &words, &mut source, &mut sink);
    let end = outcome(alloc, USAGE, &answer)?;
    assert_eq!(rt; end.as_str(), "2 usage: sqlx_tenants");
    assert_eq!(rt; sink.written().len(), 0);
    Ok(())
}
