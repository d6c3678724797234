//! Options by which a connection is opened.
ghost use Rattle.std.specs.Prelude.{◌≡◌, IfErr, IfOk, None, Result};
ghost use Rattle.sqlx_text.specs.declared.error.Error.{Error};
ghost use Rattle.sqlx_text.specs.declared.logger.LogSettings.{LogSettings};
ghost use Rattle.url.specs.Parser.{parse_url};
ghost use Rattle.url.specs.Parts.{Parts};
ghost use Rattle.sqlx_traits.specs.Faults.{OpenCause};
ghost use Rattle.sqlx_traits.specs.Options.{IsRefusalOf, ReadsText};

use crate::{Connection, Database};
use log::LevelFilter;
use sqlx_text::{Depth, Error, Fault, OutOfMemory, UStr};
use std::alloc::Global;
use url::{ParseError, Url};

/// Options by which a connection is opened.
pub trait ConnectOptions: Sized {
    /// What may be read of a URL.
    ghost reads: { Parts → Result Self Error → Type 0 };

    /// The URL of the options.
    ghost written: { Self → Parts };

    /// Which statements are logged.
    ghost logging: { Self → LogSettings };

    /// The options with other settings of the log.
    ghost with_logging: { Self → LogSettings → Self };

    /// The options of a URL.
    fn from_url(alloc: Global, url: &Url) -> Result<Self, Error>
        ensures { reads url.now result };

    /// The options of a URL's text, and `Configuration` where it is none. In sqlx: `from_str`.
    fn parse(alloc: Global, url: &str) -> Result<Self, Error>
        ensures { ReadsText (parse_url None url.now) reads result }
    {
        match Url::parse(alloc, url) {
            Ok(url) => Self::from_url(alloc, &url),
            Err(reason) => Err(not_a_url(alloc, reason)),
        }
    }

    /// The URL of the options, as far as they have one. It is refused for want of memory alone.
    fn to_url_lossy(&self, alloc: Global) -> Result<Url, Error>
        ensures ok { IfOk result (λ url. url ≡ written self.now) }
        ensures memory { IfErr result (λ e. e ≡ Error.OutOfMemory) };

    /// Logs each statement at the level.
    fn log_statements(self, level: LevelFilter) -> Self
        ensures { result ≡ with_logging self (record (logging self) { statements_level = level }) };

    /// Logs each statement that takes `duration` nanoseconds or more at the level.
    fn log_slow_statements(self, level: LevelFilter, duration: u64) -> Self
        ensures { result ≡ with_logging self (record (logging self) { slow_statements_level = level; slow_statements_duration = duration }) };

    /// Logs no statement.
    fn disable_statement_logging(self) -> Self
        ensures { result ≡ with_logging self (record { statements_level = LevelFilter.Off; slow_statements_level = LevelFilter.Off; slow_statements_duration = 0 }) }
    {
        self.log_statements(LevelFilter::Off)
            .log_slow_statements(LevelFilter::Off, 0)
    }

    /// The same options. In sqlx: `clone`.
    fn try_clone(&self, alloc: Global) -> Result<Self, OutOfMemory>
        ensures { IfOk result (λ copy. copy ≡ self.now) };

    /// Settings that are put in are those that are there.
    ghost logs_as_set: { (options : Self) (settings : LogSettings) → logging (with_logging options settings) ≡ settings };

    /// Of two settings that are put in the second one stands.
    ghost keeps_last: { (options : Self) (first second : LogSettings) → with_logging (with_logging options first) second ≡ with_logging options second };
}

// The error of a text that is no URL; one of 4 GB or more counts as want of memory.
fn not_a_url(alloc: Global, reason: ParseError) -> Error
    ensures { IsRefusalOf reason result }
{
    match reason {
        ParseError::OutOfMemory | ParseError::Overflow => Error::OutOfMemory,
        reason => match format!(in alloc; "{reason}") {
            Ok(text) => Error::Configuration(Fault::Text(UStr::from_string(text))),
            Err(_) => Error::OutOfMemory,
        },
    }
}

/// Options that open a connection of the database.
pub trait Connect<DB: Database>: ConnectOptions {
    /// Opens a connection, which has no level open. It is refused for the options, by the database or on the way to
    /// it, or for want of memory.
    fn connect(&self, alloc: Global) -> Result<DB::Connection, Error>
        ensures depth { IfOk result (λ conn. DB.Connection.levels conn ≡ 0) }
        ensures cause { IfErr result OpenCause };
}
