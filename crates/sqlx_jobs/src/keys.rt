//! The keys of a queue's rows: one for the count of jobs, and three for each job.
ghost use Rattle.std.specs.Prelude.{◌≡◌};
ghost use Rattle.sqlx_jobs.specs.Kept as kept;

/// The key of the count of jobs.
pub const COUNT_KEY: u64 = 0;

/// The key of a job's state.
pub fn state_key(job: u32) -> u64
    ensures { result ≡ kept.state_key job }
{
    (1 << 32) + u64::from(job)
}

/// The key of the moment until which a job is held.
pub fn until_key(job: u32) -> u64
    ensures { result ≡ kept.until_key job }
{
    (2 << 32) + u64::from(job)
}

/// The key of who holds a job until then.
pub fn holder_key(job: u32) -> u64
    ensures { result ≡ kept.holder_key job }
{
    (3 << 32) + u64::from(job)
}
