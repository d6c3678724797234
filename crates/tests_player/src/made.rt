//! The made script by the words of the command line.
use crate::words::{run_words, wrong_uses};
use sqlx_play_program::{PlayError, SureSink};

#[test]
fn made_scripts_are_summarized(rt: HostRuntime) -> Result<(), PlayError> {
    let alloc = rt.alloc();
    for (lines, seed, summary) in [
        (
            "1",
            "0",
            "lines 1\nready 0\nkept 0\nclosed 0\nheld 0 idle 0 leaked 0 waiting 0\n",
        ),
        (
            "4",
            "1",
            "lines 4\nready 1\nkept 0\nclosed 0\nheld 1 idle 0 leaked 0 waiting 0\n",
        ),
        (
            "8",
            "1",
            "lines 8\nready 1\nkept 0\nclosed 1\nheld 0 idle 0 leaked 0 waiting 0\n",
        ),
        (
            "10000",
            "7",
            "lines 10000\nready 1429\nkept 1077\nclosed 351\nheld 1 idle 0 leaked 0 waiting 0\n",
        ),
    ] {
        let mut sink = SureSink::new(alloc);
        let answer = run_words(&rt, alloc, &["make", lines, seed], &mut sink);
        assert!(rt; answer.is_ok(), "make {lines} {seed}");
        assert!(rt; sink.written() == summary.as_bytes(), "make {lines} {seed}");
    }
    Ok(())
}

const WRONG: &[&[&str]] = &[
    &["make", "10001", "1"],
    &["make", "0", "1"],
    &["make", "4", "2147483648"],
    &["make", "04", "1"],
    &["make", "4", "-1"],
    &["makes", "4", "1"],
    &["", "4", "1"],
    &["make"],
    &["make", "4"],
    &["make", "4", "1", "1"],
];

#[test]
fn other_words_are_a_wrong_use(rt: HostRuntime) -> Result<(), PlayError> {
    let alloc = rt.alloc();
    assert_eq!(rt; wrong_uses(&rt, alloc, WRONG), WRONG.len());
    Ok(())
}
