//! Levels of a transaction: the texts that begin and end them, what savepoints by name do with rows, the law that the ANSI
//! texts make nested levels of them, and which writes of a history stand, by the brackets around them.
#![tactic(auto)]

mod ansi;
pub mod laws;
mod level_text;

pub use ansi::{
    begin_ansi_transaction_sql, commit_ansi_transaction_sql, rollback_ansi_transaction_sql,
};
pub use level_text::LevelText;
