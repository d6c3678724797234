//! What a log learns of a statement that ran: how long it took and how many rows it touched.
//!
//! Nothing is printed here: `finish` gives the record, and the caller hands it to a log.
ghost use Rattle.std.specs.Prelude.{◌≡◌, ◌+◌, ◌-◌, ◌^◌, ◌∷◌, ◌++◌, [], min, IfOk, Ok, None, string_bytes};
ghost use Rattle.sqlx_text.specs.Logger.{level_that_applies, record_of, shown_summary, shown_statement};

use crate::{Moment, OutOfMemory, SqlStr, UStr, parse_query_summary};
use log::LevelFilter;
use std::alloc::Global;
use std::marker::Model;

/// Which statements are logged, and at which levels.
#[derive(Clone, Copy, Debug)]
pub struct LogSettings {
    /// The level of statements that aren't slow; `Off` for none of them.
    pub statements_level: LevelFilter,
    /// The level of slow statements; `Off` for none of them.
    pub slow_statements_level: LevelFilter,
    /// From how many nanoseconds on a statement is slow.
    pub slow_statements_duration: u64,
}

impl LogSettings {
    /// Statements at `Debug`, those of a second and more at `Warn`.
    pub fn default() -> LogSettings
        ensures { result ≡ record { statements_level = LevelFilter.Debug; slow_statements_level = LevelFilter.Warn; slow_statements_duration = 1_000_000_000 } }
    {
        LogSettings {
            statements_level: LevelFilter::Debug,
            slow_statements_level: LevelFilter::Warn,
            slow_statements_duration: 1_000_000_000,
        }
    }

    /// Sets the level of statements that aren't slow.
    pub fn log_statements(&mut self, level: LevelFilter)
        ensures { self.new ≡ record self.old { statements_level = level } }
    {
        self.statements_level = level;
    }

    /// Sets the level of slow statements, and from how many nanoseconds on one is slow.
    pub fn log_slow_statements(&mut self, level: LevelFilter, duration: u64)
        ensures { self.new ≡ record self.old { slow_statements_level = level; slow_statements_duration = duration } }
    {
        self.slow_statements_level = level;
        self.slow_statements_duration = duration;
    }
}

/// A statement that runs, and what is known of it so far.
#[derive(Drop)]
pub struct QueryLogger {
    sql: SqlStr,
    settings: LogSettings,
    start: Moment,
    rows_affected: u64,
    rows_returned: u64,
}

impl Model for QueryLogger {
    ghost use Rattle.sqlx_text.specs.Logging.{Logging};

    ghost Value = { Logging };

    ghost view = { λ l. record { sql = l.sql; settings = l.settings; start = l.start.0; rows_affected = l.rows_affected; rows_returned = l.rows_returned } };
}

/// What a log shows of a statement that ran.
#[derive(Drop)]
pub struct QueryRecord {
    pub level: LevelFilter,
    pub slow: bool,
    /// The first four words, with ` …` behind them where there is more.
    pub summary: UStr,
    /// The statement on lines of its own, and empty where the summary is the whole of it.
    pub statement: UStr,
    pub rows_affected: u64,
    pub rows_returned: u64,
    /// Nanoseconds, and 0 where the clock went backwards.
    pub elapsed: u64,
}

impl QueryLogger {
    /// A statement that begins to run now.
    pub fn new(sql: SqlStr, settings: LogSettings, now: Moment) -> QueryLogger
        ensures { result ≡ record { sql = sql; settings = settings; start = now.0; rows_affected = 0; rows_returned = 0 } }
    {
        QueryLogger {
            sql,
            settings,
            start: now,
            rows_affected: 0,
            rows_returned: 0,
        }
    }

    /// Counts a row that the statement gave. The count stops at the greatest `u64`.
    pub fn increment_rows_returned(&mut self)
        ensures { self.new ≡ record self.old { rows_returned = min (self.old.rows_returned + 1) (2 ^ 64 - 1) } }
    {
        self.rows_returned = self.rows_returned.saturating_add(1);
    }

    /// Counts rows that the statement changed. The count stops at the greatest `u64`.
    pub fn increase_rows_affected(&mut self, n: u64)
        ensures { self.new ≡ record self.old { rows_affected = min (self.old.rows_affected + n) (2 ^ 64 - 1) } }
    {
        self.rows_affected = self.rows_affected.saturating_add(n);
    }

    /// The statement.
    pub fn sql(&self) -> &SqlStr
        ensures { result.now ≡ self.now.sql }
    {
        &self.sql
    }

    /// The record of the statement that ends now, and `None` where the level that applies is `Off`.
    pub fn finish(&self, alloc: Global, now: Moment) -> Result<Option<QueryRecord>, OutOfMemory>
        ensures ok { IfOk result (λ given. given ≡ record_of self.now now.0) }
        ensures off { level_that_applies self.now now.0 ≡ LevelFilter.Off → result ≡ Ok None }
    {
        let elapsed = now.0.saturating_sub(self.start.0);
        let slow = elapsed >= self.settings.slow_statements_duration;
        let level = if slow {
            self.settings.slow_statements_level
        } else {
            self.settings.statements_level
        };
        if level == LevelFilter::Off {
            return Ok(None);
        }
        let (summary, statement) = shown(alloc, &self.sql)?;
        Ok(Some(QueryRecord {
            level,
            slow,
            summary,
            statement,
            rows_affected: self.rows_affected,
            rows_returned: self.rows_returned,
            elapsed,
        }))
    }
}

fn shown(alloc: Global, sql: &SqlStr) -> Result<(UStr, UStr), OutOfMemory>
    ensures { IfOk result (λ texts. (texts.0 ≡ shown_summary sql.now) × (texts.1 ≡ shown_statement sql.now)) }
{
    let summary = parse_query_summary(alloc, sql.as_str())?;
    if sql.is(summary.as_str()) {
        return Ok((summary, UStr::from_static("")));
    }
    let summary = between(alloc, "", summary.as_str(), " …")?;
    let statement = between(alloc, "\n\n", sql.as_str(), "\n")?;
    Ok((summary, statement))
}

fn between(alloc: Global, before: &str, text: &str, after: &str) -> Result<UStr, OutOfMemory>
    ensures { IfOk result (λ whole. whole ≡ before.now ++ text.now ++ after.now) }
{
    let mut whole = String::new(alloc);
    push_text(&mut whole, before)?;
    push_text(&mut whole, text)?;
    push_text(&mut whole, after)?;
    Ok(UStr::from_string(whole))
}

fn push_text(whole: &mut String, text: &str) -> Result<(), OutOfMemory>
    ensures { IfOk result (λ _. string_bytes whole.new ≡ string_bytes whole.old ++ text.now) }
{
    whole.push_str(text)?;
    Ok(())
}
