//! The events of a client on a connection that it owns.

pub mod acts;
pub mod give;
pub mod leave;
pub mod lent;
pub mod statements;
