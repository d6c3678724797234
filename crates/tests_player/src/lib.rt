//! Tests of the player, of its program and of a crowd: the text that one worker leaves, how many lines and loans four
//! leave, and two workers whose connects wait for each other.
#![tactic(auto)]

#[cfg(test)]
mod crowds;
#[cfg(test)]
mod made;
#[cfg(test)]
mod outside;
#[cfg(test)]
mod refusals;
#[cfg(test)]
mod rows;
#[cfg(test)]
mod tables;
#[cfg(test)]
mod words;
