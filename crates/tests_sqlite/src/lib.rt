//! Tests of SQLite as a driver: a row in memory, what is refused, a file that is opened again, and callers as
//! `CALLING.md` of `sqlite_driver` names them.
#![tactic(auto)]

#[cfg(test)]
mod callers;
#[cfg(test)]
mod files;
#[cfg(test)]
mod memory;
