//! How a pool is set up.

ghost use Rattle.std.specs.Prelude.{◌≡◌};
ghost use Rattle.sqlx_pool_lists.specs.Defaults.{default_options};

use log::LevelFilter;

/// The options of a pool, by setters that take and give the value. Durations are in nanoseconds.
#[derive(Clone, Copy, PartialEq, Eq)]
pub struct PoolOptions {
    max_connections: u32,
    min_connections: u32,
    acquire_timeout: u64,
    max_lifetime: Option<u64>,
    idle_timeout: Option<u64>,
    test_before_acquire: bool,
    after_connect: bool,
    before_acquire: bool,
    after_release: bool,
    acquire_time_level: LevelFilter,
    acquire_slow_level: LevelFilter,
    acquire_slow_threshold: u64,
    idle_tries: u32,
}

const SECOND: u64 = 1_000_000_000;

impl PoolOptions {
    /// At most 10 connections and none kept at least; an acquire times out after 30 s, an idle connection
    /// is closed after 10 minutes and any connection after 30; idle connections are tested before they are
    /// lent, one in each poll; no hooks; acquires that take 2 s are logged as warnings.
    pub fn new() -> Self
        ensures { result ≡ default_options }
    {
        PoolOptions {
            max_connections: 10,
            min_connections: 0,
            acquire_timeout: 30 * SECOND,
            max_lifetime: Some(1800 * SECOND),
            idle_timeout: Some(600 * SECOND),
            test_before_acquire: true,
            after_connect: false,
            before_acquire: false,
            after_release: false,
            acquire_time_level: LevelFilter::Off,
            acquire_slow_level: LevelFilter::Warn,
            acquire_slow_threshold: 2 * SECOND,
            idle_tries: 1,
        }
    }

    /// How many connections the pool has at most.
    pub fn max_connections(self, max: u32) -> Self
        ensures { result ≡ record self { max_connections = max } }
    {
        PoolOptions {
            max_connections: max,
            ..self
        }
    }

    /// How many connections the pool has at most.
    pub fn get_max_connections(&self) -> u32
        ensures { result ≡ self.now.max_connections }
    {
        self.max_connections
    }

    /// How many connections the pool keeps at least, where nobody waits.
    pub fn min_connections(self, min: u32) -> Self
        ensures { result ≡ record self { min_connections = min } }
    {
        PoolOptions {
            min_connections: min,
            ..self
        }
    }

    /// How many connections the pool keeps at least, where nobody waits.
    pub fn get_min_connections(&self) -> u32
        ensures { result ≡ self.now.min_connections }
    {
        self.min_connections
    }

    /// How long an acquire may take, in nanoseconds.
    pub fn acquire_timeout(self, timeout: u64) -> Self
        ensures { result ≡ record self { acquire_timeout = timeout } }
    {
        PoolOptions {
            acquire_timeout: timeout,
            ..self
        }
    }

    /// How long an acquire may take, in nanoseconds.
    pub fn get_acquire_timeout(&self) -> u64
        ensures { result ≡ self.now.acquire_timeout }
    {
        self.acquire_timeout
    }

    /// After which age a connection isn't kept, in nanoseconds; None for no limit.
    pub fn max_lifetime(self, lifetime: Option<u64>) -> Self
        ensures { result ≡ record self { max_lifetime = lifetime } }
    {
        PoolOptions {
            max_lifetime: lifetime,
            ..self
        }
    }

    /// After which age a connection isn't kept, in nanoseconds; None for no limit.
    pub fn get_max_lifetime(&self) -> Option<u64>
        ensures { result ≡ self.now.max_lifetime }
    {
        self.max_lifetime
    }

    /// For how long a connection may be idle, in nanoseconds; None for no limit.
    pub fn idle_timeout(self, timeout: Option<u64>) -> Self
        ensures { result ≡ record self { idle_timeout = timeout } }
    {
        PoolOptions {
            idle_timeout: timeout,
            ..self
        }
    }

    /// For how long a connection may be idle, in nanoseconds; None for no limit.
    pub fn get_idle_timeout(&self) -> Option<u64>
        ensures { result ≡ self.now.idle_timeout }
    {
        self.idle_timeout
    }

    /// Whether an idle connection is tested before it is lent.
    pub fn test_before_acquire(self, test: bool) -> Self
        ensures { result ≡ record self { test_before_acquire = test } }
    {
        PoolOptions {
            test_before_acquire: test,
            ..self
        }
    }

    /// Whether an idle connection is tested before it is lent.
    pub fn get_test_before_acquire(&self) -> bool
        ensures { result ≡ self.now.test_before_acquire }
    {
        self.test_before_acquire
    }

    /// Whether there is a hook that runs after a connect, and may refuse the connection.
    pub fn after_connect(self, hook: bool) -> Self
        ensures { result ≡ record self { after_connect = hook } }
    {
        PoolOptions {
            after_connect: hook,
            ..self
        }
    }

    /// Whether there is a hook that runs after a connect, and may refuse the connection.
    pub fn get_after_connect(&self) -> bool
        ensures { result ≡ self.now.after_connect }
    {
        self.after_connect
    }

    /// Whether there is a hook that runs before an idle connection is lent, and may refuse it.
    pub fn before_acquire(self, hook: bool) -> Self
        ensures { result ≡ record self { before_acquire = hook } }
    {
        PoolOptions {
            before_acquire: hook,
            ..self
        }
    }

    /// Whether there is a hook that runs before an idle connection is lent, and may refuse it.
    pub fn get_before_acquire(&self) -> bool
        ensures { result ≡ self.now.before_acquire }
    {
        self.before_acquire
    }

    /// Whether there is a hook that runs when a connection is given back, and may refuse it.
    pub fn after_release(self, hook: bool) -> Self
        ensures { result ≡ record self { after_release = hook } }
    {
        PoolOptions {
            after_release: hook,
            ..self
        }
    }

    /// Whether there is a hook that runs when a connection is given back, and may refuse it.
    pub fn get_after_release(&self) -> bool
        ensures { result ≡ self.now.after_release }
    {
        self.after_release
    }

    /// At which level the time of an acquire is logged.
    pub fn acquire_time_level(self, level: LevelFilter) -> Self
        ensures { result ≡ record self { acquire_time_level = level } }
    {
        PoolOptions {
            acquire_time_level: level,
            ..self
        }
    }

    /// At which level the time of an acquire is logged.
    pub fn get_acquire_time_level(&self) -> LevelFilter
        ensures { result ≡ self.now.acquire_time_level }
    {
        self.acquire_time_level
    }

    /// At which level a slow acquire is logged.
    pub fn acquire_slow_level(self, level: LevelFilter) -> Self
        ensures { result ≡ record self { acquire_slow_level = level } }
    {
        PoolOptions {
            acquire_slow_level: level,
            ..self
        }
    }

    /// At which level a slow acquire is logged.
    pub fn get_acquire_slow_level(&self) -> LevelFilter
        ensures { result ≡ self.now.acquire_slow_level }
    {
        self.acquire_slow_level
    }

    /// From which time on an acquire is slow, in nanoseconds.
    pub fn acquire_slow_threshold(self, threshold: u64) -> Self
        ensures { result ≡ record self { acquire_slow_threshold = threshold } }
    {
        PoolOptions {
            acquire_slow_threshold: threshold,
            ..self
        }
    }

    /// From which time on an acquire is slow, in nanoseconds.
    pub fn get_acquire_slow_threshold(&self) -> u64
        ensures { result ≡ self.now.acquire_slow_threshold }
    {
        self.acquire_slow_threshold
    }

    /// How many idle connections are tested in one poll at most, before a new one is opened: from 1 to 16 in a pool.
    /// sqlx has no such limit.
    pub fn idle_tries(self, tries: u32) -> Self
        ensures { result ≡ record self { idle_tries = tries } }
    {
        PoolOptions {
            idle_tries: tries,
            ..self
        }
    }

    /// How many idle connections are tested in one poll at most, before a new one is opened.
    pub fn get_idle_tries(&self) -> u32
        ensures { result ≡ self.now.idle_tries }
    {
        self.idle_tries
    }
}
