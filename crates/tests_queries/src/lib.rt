//! Tests of `sqlx_query_rows` and `sqlx_query`, at the toy database, and of queries over a backend of `Any`.
#![tactic(auto)]

#[cfg(test)]
mod any;
#[cfg(test)]
mod builders;
#[cfg(test)]
mod callers;
#[cfg(test)]
mod calls;
#[cfg(test)]
mod faults;
#[cfg(test)]
mod mapped;
#[cfg(test)]
mod queries;
#[cfg(test)]
mod read;
#[cfg(test)]
mod rows;
#[cfg(test)]
mod says;
#[cfg(test)]
mod statements;
