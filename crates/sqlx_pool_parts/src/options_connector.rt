//! What opens connections by nothing but their options.

ghost use Rattle.std.specs.Prelude.{◌≡◌, ◌≤◌, IfErr, IfOk};

use sqlx_text::Error;
use sqlx_traits::{Connect, Connector, Database, Faults};
use std::alloc::Global;

/// Opens connections of a database whose options can do so, and counts what they refuse for another cause than want
/// of memory.
#[derive(Drop)]
pub struct OptionsConnector {
    refused: u64,
}

impl OptionsConnector {
    /// A connector that has refused nothing yet.
    pub fn new() -> Self
        ensures { result.refused ≡ 0 }
    {
        OptionsConnector { refused: 0 }
    }
}

impl Faults for OptionsConnector {
    ghost faults = { λ connector. connector.refused };
}

impl<DB: Database> Connector<DB> for OptionsConnector
where
    DB::Options: Connect<DB>,
{
    fn connect(&mut self, alloc: Global, options: &DB::Options) -> Result<DB::Connection, Error> {
        match options.connect(alloc) {
            Ok(conn) => Ok(conn),
            Err(error) => {
                if !matches!(&error, Error::OutOfMemory) {
                    self.refused = self.refused.saturating_add(1);
                }
                Err(error)
            }
        }
    }
}
