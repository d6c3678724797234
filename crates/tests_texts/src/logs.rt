//! What a log learns of a statement.

use log::LevelFilter;
use sqlx_text::{*, *};
use std::alloc::Global;
use std::test::*;

const SELECT: &str = "SELECT id, name\n  FROM users WHERE id = ?";

// The level, summary and statement of a record, and `off` where there is none.
fn told(
    alloc: Global,
    settings: LogSettings,
    sql: &'static str,
    nanos: u64,
) -> Result<String, OutOfMemory> {
    let logger = QueryLogger::new(SqlStr::from_static(sql), settings, Moment(7));
    let Some(made) = logger.finish(alloc, Moment(nanos))? else {
        return String::from_str(alloc, "off").map_err(|_| OutOfMemory);
    };
    let (level, slow, elapsed) = (made.level, made.slow, made.elapsed);
    let text = format!(in alloc;
        "{level} {slow} {elapsed}|{}|{}",
        made.summary, made.statement
    );
    drop(made);
    Ok(text?)
}

#[test]
fn records_what_the_settings_ask_for(rt: HostRuntime) -> Result<(), Fail> {
    let first = LogSettings::default();
    let mut own = LogSettings::default();
    own.log_statements(LevelFilter::Off);
    own.log_slow_statements(LevelFilter::Info, 5);
    for (settings, sql, nanos, want) in &[
        (
            first,
            SELECT,
            1_000_000_007,
            "WARN true 1000000000|SELECT id, name FROM …|\n\nSELECT id, name\n  FROM users WHERE id = ?\n",
        ),
        (
            first,
            "COMMIT",
            1_000_000_006,
            "DEBUG false 999999999|COMMIT|",
        ),
        (first, "COMMIT", 3, "DEBUG false 0|COMMIT|"),
        (own, "COMMIT", 3, "off"),
        (own, "COMMIT", 12, "INFO true 5|COMMIT|"),
    ] {
        assert_eq!(rt; told(rt.alloc(), *settings, sql, *nanos)?.as_str(), *want);
    }
    Ok(())
}

#[test]
fn counts_rows(rt: HostRuntime) -> Result<(), Fail> {
    let mut logger = QueryLogger::new(
        SqlStr::from_static(SELECT),
        LogSettings::default(),
        Moment(0),
    );
    logger.increment_rows_returned();
    logger.increase_rows_affected(3);
    logger.increase_rows_affected(u64::MAX);
    assert!(rt; logger.sql().is(SELECT));
    let record = logger.finish(rt.alloc(), Moment(1))?;
    let counts = record
        .as_ref()
        .map(|record| (record.rows_affected, record.rows_returned));
    assert_eq!(rt; counts, Some((u64::MAX, 1)));
    Ok(())
}

#[test]
fn summary_has_four_words(rt: HostRuntime) -> Result<(), Fail> {
    for (sql, want) in &[
        (SELECT, "SELECT id, name FROM"),
        ("COMMIT", "COMMIT"),
        ("  a\tb  ", "a b"),
        ("", ""),
    ] {
        assert_eq!(rt; parse_query_summary(rt.alloc(), sql)?.as_str(), *want);
    }
    Ok(())
}
