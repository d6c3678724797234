//! Crowds by the words of the command line.
use crate::words::{run_words, wrong_uses};
use sqlx_play_program::{PlayError, SureSink};

const ALONE: &str = "\
asked 1 1 30000000000
left 1
opened 1 0
lent 1 1
ended 1
kept 1 0
asked 2 1 30000000000
left 2
taken 1
lent 1 1
ended 2
kept 1 0
loans 2
";

#[test]
fn a_worker_alone_line_by_line(rt: HostRuntime) -> Result<(), PlayError> {
    let alloc = rt.alloc();
    let mut sink = SureSink::new(alloc);
    run_words(&rt, alloc, &["crowd", "1", "2", "1"], &mut sink)?;
    assert!(rt; sink.written() == ALONE.as_bytes());
    Ok(())
}

#[test]
fn a_crowd_tells_its_loans_last(rt: HostRuntime) -> Result<(), PlayError> {
    let alloc = rt.alloc();
    let mut sink = SureSink::new(alloc);
    run_words(&rt, alloc, &["crowd", "4", "100", "2"], &mut sink)?;
    assert!(rt; sink.written().ends_with(b"\nloans 400\n"));
    Ok(())
}

const WRONG: &[&[&str]] = &[
    &["crowd", "17", "1", "1"],
    &["crowd", "0", "1", "1"],
    &["crowd", "1", "1001", "1"],
    &["crowd", "1", "0", "1"],
    &["crowd", "1", "1", "17"],
    &["crowd", "1", "1", "0"],
    &["crowd", "01", "1", "1"],
    &["crowds", "1", "1", "1"],
];

#[test]
fn numbers_out_of_their_ranges_are_a_wrong_use(rt: HostRuntime) -> Result<(), PlayError> {
    let alloc = rt.alloc();
    assert_eq!(rt; wrong_uses(&rt, alloc, WRONG), WRONG.len());
    Ok(())
}
