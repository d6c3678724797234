//! Tests of `sqlx_tx`: levels as values and around calls, on the database in memory, and callers of any database as
//! `CALLING.md` of `sqlx_tx` names them.
#![tactic(auto)]

#[cfg(test)]
mod acts;
#[cfg(test)]
mod callers;
#[cfg(test)]
mod levels;
#[cfg(test)]
mod tests;
#[cfg(test)]
mod texts;
#[cfg(test)]
mod writes;
