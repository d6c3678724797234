//! Tests of the pool's core and of families: each call once on its happy path, the edge of the line (three tickets and one
//! permit), the keeping of the minimum, and moments at the ends of their range.
#![tactic(auto)]

#[cfg(test)]
mod each_call;
#[cfg(test)]
mod edge;
#[cfg(test)]
mod families;
#[cfg(test)]
mod minimum;
#[cfg(test)]
mod moments;
#[cfg(test)]
mod one_permit;
