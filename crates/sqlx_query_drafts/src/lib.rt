//! Statements that grow with their arguments: a query's bound values, and the draft of a builder. `sqlx_query` hands it on.
#![tactic(auto)]

mod arguments;
mod draft;
mod growing_text;
mod row_parts;

pub use arguments::{after_a_fault, bound, turn};
pub use draft::{Mark, StatementDraft};
pub use row_parts::RowParts;
