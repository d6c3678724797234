//! What a connection answers from its opening to its close, whatever its backend.

use crate::acts::{Act, answers};
use sqlx_any::*;
use sqlx_text::Error;
use std::alloc::Global;

/// The answers of a connection, which is closed behind them.
pub fn answers_of<B: AnyConnectionBackend>(
    alloc: Global,
    conn: AnyConnection<B>,
    acts: &[Act],
) -> Result<String, Error> {
    let mut conn = conn;
    let line = answers(alloc, &mut conn, acts);
    conn.close()?;
    Ok(line?)
}

/// The answers of a new connection that a URL opens.
pub fn answers_at<B: AnyOpen>(alloc: Global, url: &str, acts: &[Act]) -> Result<String, Error> {
    let options = AnyConnectOptions::parse(alloc, url)?;
    let conn = Connect::<Any<B>>::connect(&options, alloc)?;
    answers_of(alloc, conn, acts)
}

/// The answers of a new connection that the connector opens.
pub fn answers_by<B: AnyConnectionBackend, C: Connector<Any<B>>>(
    alloc: Global,
    connector: &mut C,
    url: &str,
    acts: &[Act],
) -> Result<String, Error> {
    let options = AnyConnectOptions::parse(alloc, url)?;
    let conn = connector.connect(alloc, &options)?;
    answers_of(alloc, conn, acts)
}
