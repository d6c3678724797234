//! The history, and the fronts of it that callers have seen.

ghost use Rattle.std.specs.Prelude.{◌≡◌, ℕ, ◌+◌, ◌==◌, ◌<◌, ◌≤◌, ◌++◌, ◌∷◌, [], length, MatchBool};
ghost use mathlib.Core.List.{IsPrefix};
ghost use Rattle.sqlx_pool_history.specs.Chains.{EndsWith, IfLast, IsChain};
ghost use Rattle.sqlx_pool_history.specs.Rules.{head_of};

use crate::law::{Add, Chained, Law, Naming, Nothing, Stands};
use logbook::{Offer, Seen, Start, Word};
use std::marker::{Model, PhantomData};
use std::sync::Wait;

/// A history in which nothing stands, which has no name yet.
pub struct Opened<S: Chained> {
    head: Word<S, u64, Law>,
    seen: Seen<S, u64, Law>,
    pub ghost empty: { seen.log ≡ [] },
    pub ghost head_is: { head ≡ head_of seen.book },
}

impl<S: Chained> Drop for Opened<S> {
    fn drop(self) {
        let Opened { head, seen } = self;
        drop(head);
        drop(seen);
    }
}

impl<S: Chained> Opened<S> {
    /// A new history.
    pub fn new() -> Opened<S> {
        let (seen, mut first, _second) = Seen::open(Start::alone(), 0, 0);
        Opened {
            head: Word::tracked(0, &mut first),
            seen,
        }
    }

    /// The history under its name, in which nothing stands yet.
    pub fn named<J: Naming>(self) -> History<S, J>
        requires { self.seen.book ≡ J.book }
        ensures { result ≡ [] }
    {
        let Opened { head, seen } = self;
        History {
            head,
            front: Front {
                len: 0,
                seen,
                of: PhantomData,
            },
        }
    }
}

/// A beginning of the history that was seen. Contracts see it as its states.
#[derive(Drop)]
pub struct Front<S: Chained, J: Naming> {
    len: u64,
    seen: Seen<S, u64, Law>,
    of: PhantomData<J>,
}

impl<S: Chained, J: Naming> Model for Front<S, J> {
    ghost use Rattle.std.specs.Prelude.{◌≡◌, List, length};
    ghost use Rattle.sqlx_pool_history.specs.Chains.{IsChain};

    ghost Value = { List S };

    ghost view = { λ f. f.seen.log };

    ghost invariant = { λ f. (f.len ≡ length f.seen.log) × (f.seen.book ≡ J.book) × IsChain S.follows f.seen.log };
}

impl<S: Chained, J: Naming> Front<S, J> {
    /// Each state of it follows the one before.
    pub fn facts(&self)
        ensures { IsChain S.follows self.now }
    {
        let _ = &self.len;
    }

    /// Another front that has seen the same.
    pub fn again(&self) -> Front<S, J>
        ensures { result ≡ self.now }
    {
        Front {
            len: self.len,
            seen: self.seen.again(),
            of: PhantomData,
        }
    }

    // Another front is a beginning of this one, where this one is all of the history: the one under the lock is.
    fn holds<R: Wait>(&self, rt: &R, other: &Front<S, J>)
        ensures { IsPrefix other.now self.now }
    {
        no_more(rt, other.len, self.len);
        let mut both = self.seen.again();
        both.learn(&other.seen);
    }

    // Adds a state to all that was seen, where that is all of the history: of the one under the lock it is.
    fn add<T: Stands<S>, R: Wait>(&mut self, rt: &R, head: &Word<S, u64, Law>, value: &T)
        requires head { head.now ≡ head_of J.book }
        requires may { IfLast self.old (λ last. S.follows last (T.state value.now)) }
        ensures { self.new ≡ self.old ++ T.state value.now ∷ [] }
    {
        let len = self.len;
        if len == u64::MAX {
            stay(rt);
        }
        let mut offer: Offer<S, u64, Law, Nothing> = self.seen.plain::<Nothing, T, Add>(value);
        let mut pen = self.seen.no_pen();
        let found = head.compare_exchange::<Add, Nothing>(
            len,
            len + 1,
            &mut self.seen,
            &mut offer,
            &mut pen,
        );
        if found != len {
            stay(rt);
        }
        self.len = len + 1;
    }
}

/// All states that stood. It lies under the lock, beside the value. Contracts see it as these states.
#[derive(Drop)]
pub struct History<S: Chained, J: Naming> {
    head: Word<S, u64, Law>,
    front: Front<S, J>,
}

impl<S: Chained, J: Naming> Model for History<S, J> {
    ghost use Rattle.std.specs.Prelude.{◌≡◌, List};
    ghost use Rattle.sqlx_pool_history.specs.Rules.{head_of};

    ghost Value = { List S };

    ghost view = { λ h. h.front };

    ghost invariant = { λ h. h.head ≡ head_of J.book };
}

impl<S: Chained, J: Naming> History<S, J> {
    /// A step is over: the state in which the value then stands is the last one.
    pub fn add<T: Stands<S>, R: Wait>(&mut self, rt: &R, value: &T)
        requires { IfLast self.old (λ last. S.follows last (T.state value.now)) }
        ensures added { self.new ≡ self.old ++ T.state value.now ∷ [] }
        ensures last { IfLast self.new (λ last. last ≡ T.state value.now) }
    {
        let History { head, front } = self;
        front.add(rt, &*head, value)
    }

    // The state in which the value stands is the first, where there is none yet.
    #[tactic(auto, using(crate::proofs::Chaining::ends_last, crate::proofs::Chaining::last_here))]
    fn begin<T: Stands<S>, R: Wait>(&mut self, rt: &R, value: &T)
        requires { IfLast self.old (λ last. last ≡ T.state value.now) }
        ensures ends { EndsWith self.new (λ last. last ≡ T.state value.now) }
        ensures last { IfLast self.new (λ last. last ≡ T.state value.now) }
    {
        let History { head, front } = self;
        if front.len == 0 {
            front.add(rt, &*head, value);
        }
    }

    /// A front that has seen all of it.
    pub fn front(&self) -> Front<S, J>
        ensures { result ≡ self.now }
    {
        self.front.again()
    }

    /// The caller's front sees all of it, up to the state in which the value stands: what it had seen before is the
    /// beginning.
    pub fn show<T: Stands<S>, R: Wait>(&mut self, rt: &R, value: &T, me: &mut Front<S, J>)
        requires { IfLast self.old (λ last. last ≡ T.state value.now) }
        ensures all { me.new ≡ self.new }
        ensures later { IsPrefix me.old me.new }
        ensures ends { EndsWith self.new (λ last. last ≡ T.state value.now) }
        ensures last { IfLast self.new (λ last. last ≡ T.state value.now) }
    {
        self.begin(rt, value);
        self.front.holds(rt, &*me);
        *me = self.front.again();
    }
}

// A number is at most another: of a front's length and the whole history's it is.
fn no_more<R: Wait>(rt: &R, part: u64, whole: u64)
    ensures { part ≤ whole }
{
    if whole < part {
        stay(rt);
    }
}

// It never comes back.
fn stay<R: Wait>(rt: &R)
    ensures { ⊥ }
{
    for _ in rt.forever() {}
    unreachable!()
}
