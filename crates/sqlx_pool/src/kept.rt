//! What lies under a lock: its value, and the history of the states in which that stood.

ghost use Rattle.std.specs.Prelude.{◌≡◌, []};

mod asking;
mod families;
mod polling;
mod questions;
mod returning;
mod upkeep;

use crate::steps::{PoolSteps, Wakes};
use sqlx_pool_history::{Front, History, Opened};
use sqlx_text::Depth;
use std::marker::Model;

// The value, which stands in the last state of the history; that begins when it is first asked for. Contracts see the
// history.
pub(crate) struct Kept<C: Depth, O, S: PoolSteps<C, O>> {
    locked: S,
    history: History<S::Stood, S::Book>,
}

impl<C: Depth, O, S: PoolSteps<C, O>> Drop for Kept<C, O, S> {
    fn drop(self) {
        let Kept { locked, history } = self;
        drop(locked);
        drop(history);
    }
}

impl<C: Depth, O, S: PoolSteps<C, O>> Model for Kept<C, O, S> {
    ghost use Rattle.std.specs.Prelude.{◌≡◌, List};
    ghost use Rattle.sqlx_pool_history.specs.Chains.{IfLast};

    ghost Value = { List S.Stood };

    ghost view = { λ k. k.history };

    ghost invariant = { λ k. IfLast k.history (λ last. last ≡ S.Stands.state k.locked) };
}

// A front of this history.
type Seen<C, O, S> = Front<<S as PoolSteps<C, O>>::Stood, <S as PoolSteps<C, O>>::Book>;

impl<C: Depth, O, S: PoolSteps<C, O>> Kept<C, O, S> {
    // A value, and its history, in which nothing stands yet.
    pub(crate) fn new(locked: S, opened: Opened<S::Stood>) -> Self
        requires { opened.seen.book ≡ S.Book.book }
        ensures { result ≡ [] }
    {
        Kept {
            locked,
            history: opened.named::<S::Book>(),
        }
    }

    // A front that has seen all of the history.
    pub(crate) fn front(&self) -> Seen<C, O, S>
        ensures { result ≡ self.now }
    {
        self.history.front()
    }

    // The value, to read.
    pub(crate) fn locked(&self) -> &S {
        &self.locked
    }

    // Who may go on behind a step that may have freed something.
    pub(crate) fn wakes(&mut self) -> Wakes
        ensures { self.new ≡ self.old }
    {
        self.locked.wakes()
    }

    // Who may go on behind the beginning of a poll.
    pub(crate) fn wakes_begun(&mut self, name: S::Name, pending: bool) -> Wakes
        ensures { self.new ≡ self.old }
    {
        self.locked.wakes_begun(name, pending)
    }
}
