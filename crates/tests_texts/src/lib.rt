//! Tests of `sqlx_text`: what is printed, and worked values of each call.
#![tactic(auto)]

#[cfg(test)]
mod errors;
#[cfg(test)]
mod logs;
#[cfg(test)]
mod messages;
#[cfg(test)]
mod statements;
#[cfg(test)]
mod texts;
