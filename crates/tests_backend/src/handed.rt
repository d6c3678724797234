//! What the backend was handed.

use crate::cells::listed;
use sqlx_any::AnyArguments;
use sqlx_text::{OutOfMemory, SqlStr};
use std::alloc::Global;

/// What came with a query.
#[derive(Drop)]
pub struct Handed {
    pub sql: SqlStr,
    pub kept: bool,
    pub arguments: Option<AnyArguments>,
}

impl Handed {
    /// The text, whether its statement is to be kept, and each argument before a bar, as `SELECT kept BigInt 5|`.
    pub fn shown(&self, alloc: Global) -> Result<String, OutOfMemory> {
        let sql = self.sql.as_str();
        let kept = if self.kept { " kept" } else { "" };
        let arguments = match &self.arguments {
            Some(arguments) => listed(alloc, arguments.values.as_slice())?,
            None => "bare".to_string(alloc)?,
        };
        Ok(format!(in alloc; "{sql}{kept} {arguments}")?)
    }
}

/// A call of the backend besides its queries.
#[derive(Clone, Copy, Debug, PartialEq, Eq, Drop)]
pub enum Call {
    Ping,
    Begin,
    BeginWith,
    Commit,
    Rollback,
    StartRollback,
    Clear,
    Shrink,
    Flush,
}
