//! The law of a history, and how a state is added to it.

use logbook::{Gain, Plain, Play, Rule};
use std::marker::Brand;

/// A state of a value under a lock.
pub trait Chained {
    /// Which state may come behind which.
    ghost follows: { Self → Self → Type 0 };
}

/// A value under a lock, whose states are of the type `S`.
pub trait Stands<S> {
    /// The state in which it stands.
    ghost state: { Self → S };
}

/// The rule of a history: the number that runs is its length, and each state follows the one before it.
pub struct Law;

impl<S: Chained> Rule<S, u64> for Law {
    ghost use Rattle.std.specs.Prelude.{[]};
    ghost use base.Fml.{ftrue};
    ghost use Rattle.sqlx_pool_history.specs.Rules.{IsKept};

    ghost holds = { λ cells log. IsKept S.follows cells log };

    ghost first = { [] };

    ghost hinted = { λ n log. Unit {0} };

    ghost shows = { λ log. [] };

    ghost keeps = { λ names log. ftrue };

    ghost moves = { λ ask before after answer. Unit {0} };
}

// Nothing is traded.
pub struct Nothing;

impl<S: Chained> Gain<S, u64> for Nothing {
    ghost use base.Fml.{ftrue};

    ghost after = { λ names about answer. ftrue };
}

// A step that adds a state.
pub struct Add;

impl<S: Chained> Play<S, u64> for Add {
    ghost use Rattle.sqlx_pool_history.specs.Rules.{Adds};

    ghost then = { Adds S.follows };
}

// What is added: the state in which the value stands.
impl<S: Chained, T: Stands<S>> Plain<T, S, u64> for Add {
    ghost use Rattle.std.specs.Prelude.{None};

    ghost ask = { λ value. T.state value };

    ghost state = { λ value. None };
}

/// Which history it is. Each call of a program that makes one picks it.
pub trait Naming {
    ghost use Rattle.logbook.specs.Pages.{Book};

    /// Its book.
    ghost book: { Book };
}

impl Naming for Brand {
    ghost book = { record { number = 0; log_name = 0; cells_name = 0 } };
}
