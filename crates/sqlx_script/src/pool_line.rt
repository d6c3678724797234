//! The first line of a script, which says how the pool is set up.

/// `pool max min timeout lifetime idle switches`, or `pool2 max min timeout lifetime idle switches tries`. Durations are in nanoseconds.
#[derive(Clone, Copy)]
pub struct PoolLine {
    /// At most so many connections, from 1 to 65,535.
    pub max: u32,
    /// So many connections are kept, as far as they can be.
    pub min: u32,
    /// How long a ticket is good for.
    pub timeout: u64,
    /// How old a connection may grow, if there is a limit.
    pub lifetime: Option<u64>,
    /// How long a connection may stay idle, if there is a limit.
    pub idle: Option<u64>,
    /// Whether an idle connection is pinged before it is lent.
    pub test_before_acquire: bool,
    /// Whether there is an `after_connect` hook.
    pub after_connect: bool,
    /// Whether there is a `before_acquire` hook.
    pub before_acquire: bool,
    /// Whether there is an `after_release` hook.
    pub after_release: bool,
    /// At most so many idle connections are tested in a poll, from 1 to 16; 1 where the first word is `pool`.
    pub tries: u32,
    /// Whether the first word is `pool2`, so that each poll tells how many tests its letters answer; else they answer one.
    pub counts_tests: bool,
}
