//! Tests of families behind their lock: how a permit moves, which pool's log a step is written to, and what a retired child
//! hands over; the same by handles; transactions on the connections of a child; what the front of a caller sees of a child;
//! threads that wait for one pool while another's permit comes back; and crowds of threads, by how many connections are
//! open at once.
#![tactic(auto)]

#[cfg(test)]
mod begins;
#[cfg(test)]
mod crowds;
#[cfg(test)]
mod cuts;
#[cfg(test)]
mod fronts;
#[cfg(test)]
mod handles;
#[cfg(test)]
mod outside;
#[cfg(test)]
mod rows;
#[cfg(test)]
mod setup;
#[cfg(test)]
mod traits;
#[cfg(test)]
mod waits;
