//! What a pool did, as a list of marks; which marks may follow which; and what a pool answers, by its marks.
//!
//! Nothing here knows a pool: each definition reads one list of [`Mark`]s, plain numbers and switches.
#![tactic(auto)]

pub mod laws;
mod mark;
mod turn;

pub use mark::Mark;
pub use turn::Turn;
