//! Tests of `sqlx_traits` and `sqlx_any`, at the toy database and at a stub backend.
#![tactic(auto)]

#[cfg(test)]
mod arguments;
#[cfg(test)]
mod callers;
#[cfg(test)]
mod connections;
#[cfg(test)]
mod drivers;
#[cfg(test)]
mod executors;
#[cfg(test)]
mod handed;
#[cfg(test)]
mod native;
#[cfg(test)]
mod options;
#[cfg(test)]
mod parts;
#[cfg(test)]
mod present;
#[cfg(test)]
mod reads;
#[cfg(test)]
mod samples;
#[cfg(test)]
mod says;
#[cfg(test)]
mod texts;
#[cfg(test)]
mod toy_reads;
