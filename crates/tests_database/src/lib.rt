//! For tests: a small database, and executors that hand out given steps and keep what they were asked.
//!
//! A value is null, a truth value, a whole number, a text or bytes. Its type has one of the kinds of `Any`, or is
//! `POINT`, which has none. The placeholders are numbered: `$1`, `$2` and on.
#![tactic(auto)]

pub mod answers;
pub mod arguments;
mod binds;
pub mod connection;
pub mod database;
pub mod executor;
pub mod letters;
pub mod options;
mod reads;
pub mod row;
pub mod statement;
pub mod steps;
pub mod types;
pub mod value;

pub use arguments::{ToyArgumentList, ToyArguments};
pub use connection::{ToyConnection, ToyTransactionManager};
pub use database::{Toy, ToyQueryResult};
pub use executor::Asked;
pub use options::ToyConnectOptions;
pub use row::{ToyColumn, ToyRow};
pub use statement::ToyStatement;
pub use types::ToyType;
pub use value::{Bytes, Held, ToyValue};
