//! Options by which a connection is opened: their URL, their settings of the log, and the connections.

use crate::says::*;
use log::LevelFilter;
use sqlx_any::*;
use sqlx_text::{Depth, Error, OutOfMemory};
use std::alloc::Global;
use std::test::*;
use tests_backend::StubBackend;
use tests_database::Toy;
use url::Url;

fn told_url(line: &mut String, url: Result<Url, Error>) {
    match url {
        Ok(url) => {
            tell(line, &url.as_str());
            drop(url);
        }
        Err(error) => refused(line, error),
    }
}

// The URL of options.
fn url_of<O: ConnectOptions + Drop>(alloc: Global, options: Result<O, Error>, line: &mut String) {
    match options {
        Ok(options) => {
            told_url(line, options.to_url_lossy(alloc));
            drop(options);
        }
        Err(error) => refused(line, error),
    }
}

// The URL of a copy of options, and of options that are made of their URL.
fn copies<O: ConnectOptions + Drop>(alloc: Global, options: &O, line: &mut String) {
    match options.try_clone(alloc) {
        Ok(copy) => url_of::<O>(alloc, Ok(copy), line),
        Err(OutOfMemory) => {}
    }
    match options.to_url_lossy(alloc) {
        Ok(url) => {
            url_of::<O>(alloc, O::from_url(alloc, &url), line);
            drop(url);
        }
        Err(error) => refused(line, error),
    }
}

// The URL of options that are made of a text, of a copy, and of options that are made of the URL.
fn urls<O: ConnectOptions + Drop>(alloc: Global, text: &str) -> String {
    let mut line = String::new(alloc);
    match O::parse(alloc, text) {
        Ok(options) => {
            copies::<O>(alloc, &options, &mut line);
            url_of::<O>(alloc, Ok(options), &mut line);
        }
        Err(error) => refused(&mut line, error),
    }
    line
}

const URLS: &str = "mem:x|mem:x|mem:x|\n\
    sqlite://a/b?c=d|sqlite://a/b?c=d|sqlite://a/b?c=d|\n\
    error with configuration: relative URL without a base|\n";

#[test]
fn options_keep_their_url(rt: HostRuntime) {
    let alloc = rt.alloc();
    let mut lines = String::new(alloc);
    for text in &["mem:x", "sqlite://a/b?c=d", "no url"] {
        ended(&mut lines, urls::<AnyConnectOptions>(alloc, text));
    }
    says(&rt, lines, URLS);
}

// How the log is set.
#[derive(Clone, Copy)]
enum Setting {
    First,
    Statements,
    SlowStatements,
    Nothing,
}

fn set(options: AnyConnectOptions, setting: Setting) -> AnyConnectOptions {
    match setting {
        Setting::First => options,
        Setting::Statements => options.log_statements(LevelFilter::Info),
        Setting::SlowStatements => options.log_slow_statements(LevelFilter::Error, 5),
        Setting::Nothing => options.disable_statement_logging(),
    }
}

// The two levels of the log, and the slow threshold, of a copy.
fn logs(alloc: Global, options: AnyConnectOptions) -> Result<String, OutOfMemory> {
    let copy = options.try_clone(alloc);
    drop(options);
    let copy = copy?;
    let settings = copy.log_settings;
    drop(copy);
    let mut line = String::new(alloc);
    show(&mut line, &settings.statements_level);
    show(&mut line, &settings.slow_statements_level);
    show(&mut line, &settings.slow_statements_duration);
    Ok(line)
}

#[test]
fn options_set_the_log(rt: HostRuntime) -> Result<(), Fail> {
    let alloc = rt.alloc();
    for (setting, want) in &[
        (Setting::First, "Debug|Warn|1000000000|"),
        (Setting::Statements, "Info|Warn|1000000000|"),
        (Setting::SlowStatements, "Debug|Error|5|"),
        (Setting::Nothing, "Off|Off|0|"),
    ] {
        let options = AnyConnectOptions::parse(alloc, "mem:x")?;
        says(&rt, logs(alloc, set(options, *setting))?, want);
    }
    Ok(())
}

// The depth of a connection, and that it can be closed.
fn closed<DB: Database>(conn: Result<DB::Connection, Error>, line: &mut String) {
    match conn {
        Ok(conn) => {
            tell(line, &conn.depth());
            answered(line, conn.close());
        }
        Err(error) => refused(line, error),
    }
}

// The same of a connection that a URL opens.
fn opened<DB: Database>(alloc: Global, url: &str) -> String
where
    DB::Options: Connect<DB>,
{
    let mut line = String::new(alloc);
    match DB::Options::parse(alloc, url) {
        Ok(options) => {
            closed::<DB>(options.connect(alloc), &mut line);
            drop(options);
        }
        Err(error) => refused(&mut line, error),
    }
    line
}

fn opened_any<B: AnyConnectionBackend + AnyOpen>(alloc: Global, url: &str) -> String {
    opened::<Any<B>>(alloc, url)
}

const OPENED: &str = "0|()|\n0|()|\n\
    error communicating with database: connection refused|\n";

#[test]
fn options_open_connections(rt: HostRuntime) {
    let alloc = rt.alloc();
    let mut lines = String::new(alloc);
    ended(&mut lines, opened::<Toy>(alloc, "toy:t1"));
    ended(&mut lines, opened_any::<StubBackend>(alloc, "stub:i1"));
    ended(&mut lines, opened_any::<StubBackend>(alloc, "stub:"));
    says(&rt, lines, OPENED);
}
