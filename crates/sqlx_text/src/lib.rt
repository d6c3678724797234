//! Texts, errors and moments, on which every crate of the project stands; and what a driver keeps of statements, and tells
//! of those that ran: a cache and a logger.
#![tactic(auto)]

mod database_fault;
mod depth;
mod error;
mod fault;
mod io_fault;
mod kind;
mod logger;
mod moment;
mod out_of_memory;
mod sql_str;
mod statement_cache;
mod summary;
mod ustr;

pub use database_fault::{DatabaseFault, ErrorKind};
pub use depth::Depth;
pub use error::{Error, Result};
pub use fault::{Fault, UnexpectedNullError};
pub use io_fault::IoFault;
pub use kind::AnyTypeInfoKind;
pub use logger::{LogSettings, QueryLogger, QueryRecord};
pub use moment::Moment;
pub use out_of_memory::OutOfMemory;
pub use sql_str::{AssertSqlSafe, SqlSafeStr, SqlStr};
pub use statement_cache::StatementCache;
pub use summary::parse_query_summary;
pub use ustr::UStr;
