//! Faults of the way to a database.

use thiserror::Error;

/// Why a database couldn't be reached.
#[derive(Clone, Copy, Debug, Error)]
pub enum IoFault {
    /// Nothing listens there: a later try may succeed.
    #[error("connection refused")]
    ConnectionRefused,
    /// Any other fault.
    #[error("other error")]
    Other,
}
