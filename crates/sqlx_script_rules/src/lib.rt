//! The rules of a script: the marks of its events, the one reply to each, its closing report, and the headline's
//! laws over these alone. What stands here knows no pool that runs, no database and no program.
#![tactic(auto)]

pub mod laws;
