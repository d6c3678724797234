//! What a caller tells: the code of a step, and numbers.

ghost use Rattle.std.specs.Prelude.{◌≡◌};
ghost use Rattle.zangipuk_c.specs.Told.{step_by, told_lent, told_verdict, now_of};

use sqlx_pool_core::{Lent, Verdict};
use sqlx_text::Moment;

/// What a step is told. Which numbers it looks at depends on the step.
#[derive(Clone, Copy)]
pub struct Told {
    pub client: u32,
    pub ticket: u64,
    pub conn: u64,
    pub raw: u64,
    pub now: u64,
}

/// The steps, and the questions that change nothing.
#[derive(Clone, Copy, PartialEq, Eq)]
pub enum Step {
    Ask,
    Start,
    /// The test of a connection: accepted, refused.
    TestAccepted,
    TestRefused,
    /// The try of a connect: opened, refused by a hook, refused for a cause that may pass, refused for good.
    Opened,
    Rejected,
    Transient,
    Fatal,
    Cancel,
    /// A connection that comes back: accepted, refused.
    Give,
    GiveRefused,
    End,
    Detach,
    Leak,
    ServeNew,
    TryAcquire,
    Reap,
    MinimumPlace,
    /// A place for the minimum: opened, not opened.
    MinimumOpened,
    MinimumFailed,
    Close,
    /// The next idle connection that a close took out.
    NextLeft,
    Closing,
    Size,
    NumIdle,
    NumHeld,
    NumLeaked,
    NumTickets,
    /// How long the log is, and one mark of it.
    LogLength,
    MarkAt,
    /// No step has this code.
    Unknown,
}

/// The code by which a pool is let go, which is no step of it.
pub const FREE: u32 = 0;

/// The step of a code.
pub fn step_by(code: u32) -> Step
    ensures { result ≡ step_by code }
{
    match code {
        1 => Step::Ask,
        2 => Step::Start,
        3 => Step::TestAccepted,
        4 => Step::TestRefused,
        5 => Step::Opened,
        6 => Step::Rejected,
        7 => Step::Transient,
        8 => Step::Fatal,
        9 => Step::Cancel,
        10 => Step::Give,
        11 => Step::GiveRefused,
        12 => Step::End,
        13 => Step::Detach,
        14 => Step::Leak,
        15 => Step::ServeNew,
        16 => Step::TryAcquire,
        17 => Step::Reap,
        18 => Step::MinimumPlace,
        19 => Step::MinimumOpened,
        20 => Step::MinimumFailed,
        21 => Step::Close,
        22 => Step::NextLeft,
        23 => Step::Closing,
        24 => Step::Size,
        25 => Step::NumIdle,
        26 => Step::NumHeld,
        27 => Step::NumLeaked,
        28 => Step::NumTickets,
        29 => Step::LogLength,
        30 => Step::MarkAt,
        _ => Step::Unknown,
    }
}

impl Told {
    /// The moment of the step.
    pub fn moment(self) -> Moment
        ensures { result ≡ now_of self }
    {
        Moment(self.now)
    }

    /// The connection that comes back. The pool keeps when it was opened.
    pub fn lent(self) -> Lent<u64>
        ensures { result ≡ told_lent self }
    {
        Lent {
            id: self.conn,
            created: Moment(0),
            raw: self.raw,
        }
    }

    /// The connection of this token was accepted, or the one of this number refused.
    pub fn verdict(self, accepted: bool) -> Verdict<u64>
        ensures { result ≡ told_verdict self accepted }
    {
        if accepted {
            Verdict::Accepted(self.lent())
        } else {
            Verdict::Refused(self.conn)
        }
    }
}
