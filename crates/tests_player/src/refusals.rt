//! A refusal at each place of two scripts in turn, and the replies that it changes: refused connects, of a poll and of the
//! minimum, and refused hooks and pings.

use crate::tables::played;
use sqlx_play_program::{PlayError, SureSink};
use std::alloc::Global;
use std::sync::Wait;
use std::thread::Threads;

// Lines that stand otherwise, each by its place.
type Changes = &'static [(usize, &'static str)];

// Three clients at a pool of two that keeps one, a ping at each return.
const DAY: &[&str] = &[
    "pool 2 1 30000 1800000 600000 +---",
    "min 0 1",
    "ask 10 1",
    "poll 10 1 1 ++++",
    "ask 12 2",
    "poll 12 2 2 ++++",
    "ask 13 3",
    "poll 13 3 3 ++++",
    "begin 14 1 1 +",
    "put 15 1 1 100 50 +",
    "get 15 2 2 100 +",
    "commit 16 1 1 +",
    "get 17 2 2 100 +",
    "give 18 1 1 ++ 0",
    "poll 18 3 3 ++++",
    "put 19 3 1 100 75 +",
    "give 20 2 2 +- 0",
    "give 21 3 1 ++ 0",
    "reap 600022 1",
];

const DAY_REPLIES: &[&str] = &[
    "opened 1",
    "ticket 1",
    "ready 1",
    "ticket 2",
    "ready 2",
    "ticket 3",
    "waiting",
    "level 1 BEGIN",
    "ok 1",
    "RowNotFound",
    "level 0 COMMIT",
    "value 50",
    "kept",
    "ready 1",
    "ok 1",
    "closed 0",
    "kept",
    "reaped 1 opened 1",
    "held 0 idle 1 leaked 0 waiting 0",
];

// What follows where client 2 backs off: nothing is its own, and its ticket waits at the end.
const BACKS_OFF: Changes = &[
    (4, "backoff 22000000"),
    (9, "NotHeld"),
    (11, "NotHeld"),
    (15, "NotHeld"),
    (17, "reaped 1 opened 0"),
    (18, "held 0 idle 0 leaked 0 waiting 1"),
];

// What follows where client 2's ticket ends: client 3 is served at once, by the second connection.
const ENDS_BY_IO: Changes = &[
    (4, "Io"),
    (6, "ready 2"),
    (9, "NotHeld"),
    (11, "NotHeld"),
    (13, "NotHeld"),
    (14, "NotHeld"),
    (15, "NotHeld"),
    (16, "NotHeld"),
    (17, "reaped 1 opened 0"),
    (18, "held 1 idle 0 leaked 0 waiting 0"),
];

const ENDS_BY_THE_DATABASE: Changes = &[
    (4, "Database refused"),
    (6, "ready 2"),
    (9, "NotHeld"),
    (11, "NotHeld"),
    (13, "NotHeld"),
    (14, "NotHeld"),
    (15, "NotHeld"),
    (16, "NotHeld"),
    (17, "reaped 1 opened 0"),
    (18, "held 1 idle 0 leaked 0 waiting 0"),
];

// No connect is asked for where one is idle, or where the ticket waits.
const CONNECTS: &[(usize, &str, Changes)] = &[
    (1, "min 0 0", &[(0, "opened 0")]),
    (3, "poll 10 1 1 ++~+", &[]),
    (3, "poll 10 1 1 ++i+", &[]),
    (3, "poll 10 1 1 ++d+", &[]),
    (5, "poll 12 2 2 ++~+", BACKS_OFF),
    (5, "poll 12 2 2 ++i+", ENDS_BY_IO),
    (5, "poll 12 2 2 ++d+", ENDS_BY_THE_DATABASE),
    (7, "poll 13 3 3 ++~+", &[]),
    (7, "poll 13 3 3 ++i+", &[]),
    (7, "poll 13 3 3 ++d+", &[]),
    (14, "poll 18 3 3 ++~+", &[]),
    (14, "poll 18 3 3 ++i+", &[]),
    (14, "poll 18 3 3 ++d+", &[]),
    (
        18,
        "reap 600022 0",
        &[
            (17, "reaped 1 opened 0"),
            (18, "held 0 idle 0 leaked 0 waiting 0"),
        ],
    ),
];

// One connection whose hooks look at each poll and each return; it is refused at 0, and too old at 21.
const HOOKED: &[&str] = &[
    "pool 1 0 90 5 - -+++",
    "ask 0 1",
    "poll 0 1 1 +++!",
    "poll 10 1 1 ++++",
    "give 15 1 1 ++ 0",
    "ask 15 1",
    "poll 15 1 2 +-++",
    "give 15 1 2 ^+ 0",
    "ask 15 1",
    "poll 15 1 3 ++++",
    "give 21 1 3 ++ 0",
];

const HOOKED_REPLIES: &[&str] = &[
    "ticket 1",
    "backoff 10000000",
    "ready 1",
    "kept",
    "ticket 2",
    "ready 2",
    "closed 0",
    "ticket 3",
    "ready 3",
    "closed 0",
    "held 0 idle 0 leaked 0 waiting 0",
];

// A hook that leaves a level open: the connection is closed and never lent.
const HOOKS: &[(usize, &str, Changes)] = &[
    (2, "poll 0 1 1 +^+!", &[]),
    (2, "poll 0 1 1 +++^", &[]),
    (3, "poll 10 1 1 +^++", &[]),
    (
        3,
        "poll 10 1 1 +++^",
        &[
            (2, "backoff 28000000"),
            (3, "NotHeld"),
            (5, "waiting"),
            (6, "NotHeld"),
            (8, "waiting"),
            (9, "NotHeld"),
            (10, "held 0 idle 0 leaked 0 waiting 3"),
        ],
    ),
    (4, "give 15 1 1 ^+ 0", &[(3, "closed 0")]),
    (6, "poll 15 1 2 +^++", &[]),
    (
        6,
        "poll 15 1 2 +-+^",
        &[
            (5, "backoff 25000000"),
            (6, "NotHeld"),
            (8, "waiting"),
            (9, "NotHeld"),
            (10, "held 0 idle 0 leaked 0 waiting 2"),
        ],
    ),
    (9, "poll 15 1 3 +^++", &[]),
    (
        9,
        "poll 15 1 3 +++^",
        &[
            (8, "backoff 25000000"),
            (9, "NotHeld"),
            (10, "held 0 idle 0 leaked 0 waiting 1"),
        ],
    ),
    (10, "give 21 1 3 ^+ 0", &[]),
];

// The line that stands at this place.
fn line_at(line: &'static str, at: usize, changes: &[(usize, &'static str)]) -> &'static str {
    for (place, other) in changes {
        if *place == at {
            return *other;
        }
    }
    line
}

// Lines as a text, with some that stand otherwise.
fn text(
    alloc: Global,
    lines: &[&'static str],
    changes: &[(usize, &'static str)],
) -> Result<String, PlayError> {
    let mut text = String::new(alloc);
    for (at, line) in lines.iter().enumerate() {
        text.push_str(line_at(*line, at, changes))?;
        text.push_str("\n")?;
    }
    Ok(text)
}

// Whether a script with one line written otherwise is answered so.
fn is_answered<R: Wait + Threads + Copy + Drop + Send + Sync + 'static>(
    rt: &R,
    alloc: Global,
    script: &str,
    replies: &str,
) -> Result<bool, PlayError> {
    let mut sink = SureSink::new(alloc);
    played(rt, alloc, script.as_bytes(), &mut sink)?;
    Ok(sink.written() == replies.as_bytes())
}

#[test]
fn each_connect_is_refused(rt: HostRuntime) -> Result<(), PlayError> {
    let alloc = rt.alloc();
    for (at, line, changes) in CONNECTS {
        let script = text(alloc, DAY, &[(*at, *line)])?;
        let replies = text(alloc, DAY_REPLIES, *changes)?;
        assert!(rt; is_answered(&rt, alloc, &script, &replies)?, "{line}");
    }
    Ok(())
}

#[test]
fn each_hook_leaves_a_level_open(rt: HostRuntime) -> Result<(), PlayError> {
    let alloc = rt.alloc();
    for (at, line, changes) in HOOKS {
        let script = text(alloc, HOOKED, &[(*at, *line)])?;
        let replies = text(alloc, HOOKED_REPLIES, *changes)?;
        assert!(rt; is_answered(&rt, alloc, &script, &replies)?, "{line}");
    }
    Ok(())
}
