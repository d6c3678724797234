//! Tests of the program of tenants: whole scripts against what they must write, and how each run ends.
#![tactic(auto)]

#[cfg(test)]
mod scripts;
