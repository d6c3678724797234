//! A connection to the database that a URL names.

use sqlx_any::{
    Any, AnyConnectOptions, AnyConnection, AnyOpen, Connect, ConnectOptions, Connection,
};
use sqlx_text::Error;
use std::alloc::Global;

/// A new connection.
pub fn opened<B: AnyOpen>(alloc: Global, url: &str) -> Result<AnyConnection<B>, Error> {
    let options = AnyConnectOptions::parse(alloc, url)?;
    let conn = Connect::<Any<B>>::connect(&options, alloc);
    drop(options);
    conn
}

/// The answer of a connection, which is closed behind it.
pub fn closed<B: AnyOpen, T: Drop>(
    conn: AnyConnection<B>,
    answer: Result<T, Error>,
) -> Result<T, Error> {
    match conn.close() {
        Ok(()) => answer,
        Err(error) => {
            drop(answer);
            Err(error)
        }
    }
}
