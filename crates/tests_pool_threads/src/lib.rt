//! Tests of the threaded pool: a pool of one on one thread, call by call with the length of its log; a close while a
//! ticket waits, while a poll connects and while it pings; the first connections; connects, pings and hooks
//! that refuse; loans by two threads; calls that
//! wait; a log that is cut, and one that the pool cuts by itself; transactions and queries over one store, also by the
//! pool as an executor; and what goes between threads.
#![tactic(auto)]

#[cfg(test)]
mod clients;
#[cfg(test)]
mod closes;
#[cfg(test)]
mod cuts;
#[cfg(test)]
mod hooks;
#[cfg(test)]
mod levels;
#[cfg(test)]
mod marks;
#[cfg(test)]
mod outside;
#[cfg(test)]
mod refusals;
#[cfg(test)]
mod refusing;
#[cfg(test)]
mod rows;
#[cfg(test)]
mod same;
#[cfg(test)]
mod setup;
#[cfg(test)]
mod stores;
#[cfg(test)]
mod traits;
#[cfg(test)]
mod waits;
#[cfg(test)]
mod works;
