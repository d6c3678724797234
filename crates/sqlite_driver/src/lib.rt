//! SQLite as a driver: a connection to a database of the crate `sqlite` is a backend of `Any`, so
//! that queries and transactions run on it. What its texts do is said in the words of that crate.
#![tactic(auto)]

mod backend;
mod connection;
mod files;
mod open;

pub use connection::SqliteConnection;
pub use files::SqliteFiles;

/// The database of such connections: what queries on it are written for.
pub type Sqlite = sqlx_any::Any<SqliteConnection>;
