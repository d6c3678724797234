//! What tells the time to a call that waits.

ghost use Rattle.sqlx_text.specs.declared.moment.Moment.{Moment};

use sqlx_text::Moment;

/// What tells the time to a call that waits. It may sleep a while before it answers.
pub trait Clock {
    /// What a reading makes of the clock.
    ghost reads: { Self → Moment → Self → Type 0 };

    /// The moment, in nanoseconds.
    fn now(&mut self) -> Moment
        ensures { reads self.old result self.new };
}

/// A clock that stands still.
#[derive(Clone, Copy)]
pub struct FixedClock(pub Moment);

impl Clock for FixedClock {
    ghost use Rattle.std.specs.Prelude.{◌≡◌};

    ghost reads = { λ clock moment after. (moment ≡ clock.0) × (after ≡ clock) };

    fn now(&mut self) -> Moment {
        self.0
    }
}
