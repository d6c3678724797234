//! Transactions: a level of a connection as a value that has to be spent, over whatever holds the connection.
//!
//! The texts of the levels, and the law that by them savepoints are nested levels, are those of `sqlx_savepoints`.
#![tactic(auto)]

pub mod calls;
mod hold;
mod transaction;

pub use hold::{Borrowed, Hold};
pub use sqlx_savepoints::{
    begin_ansi_transaction_sql, commit_ansi_transaction_sql, laws, rollback_ansi_transaction_sql,
};
pub use transaction::Transaction;
