//! The steps that keep a pool in shape: reaping, holding places for the minimum, and closing.

ghost use Rattle.std.specs.Prelude.{◌≡◌, ℕ, ◌+◌, ◌-◌, ◌<◌, ◌≤◌, ◌^◌, ◌&&◌, ◌||◌, not, nat_lt, max, min, List, [], ◌∷◌, Option, Some, None, is_some, true, false, find};
ghost use Rattle.sqlx_pool_marks.specs.declared.mark.Mark.{Mark};
ghost use Rattle.sqlx_pool_lists.specs.Core.{size, free};
ghost use Rattle.sqlx_pool_lists.specs.Sound.{IsSound};
ghost use Rattle.sqlx_pool_lists.specs.StandsFor.{StandsIn};
ghost use Rattle.sqlx_pool_lists.specs.Makes.{MakesIn};
ghost use Rattle.sqlx_pool_core.specs.Numbers.{Draws, Stays};
ghost use Rattle.sqlx_pool_lists.specs.Balance.{Balance, place_room};
ghost use Rattle.sqlx_pool_lists.specs.MaintenanceSteps.{reap_answer, reap_marks, reaped, has_place_if, placed, handed_back, done_marks, placed_back, done, close_marks, close_answer, closed_from};
ghost use Rattle.sqlx_pool_lists.specs.Edits.{at_moment, kept, opened};

use super::{Member, NUMBERS};
use sqlx_pool_lists::{Idle, Lent};
use sqlx_text::Moment;
use std::collections::VecDeque;

impl<C> Member<C> {
    /// Takes the first idle connection that is beyond a limit at a moment, where the line lets one pass.
    pub fn reap(&mut self, moment: Moment, passes: bool) -> Option<Idle<C>>
        requires open { passes ≡ true → self.old.closed ≡ false }
        ensures answer { result ≡ reap_answer passes self.old.options moment.0 self.old.idle }
        ensures makes { (marks : List Mark) → StandsIn self.old marks → MakesIn self.old.options.max_connections marks (reap_marks result) self.new }
        ensures stays { Stays self.old self.new }
        ensures draws { Draws self.old self.new (reap_marks result) }
        ensures balance { Balance self.old self.new (reap_marks result) 0 0 }
        ensures becomes { self.new ≡ reaped moment.0 result self.old }
    {
        self.sound();
        self.reap_at(moment, passes)
    }

    // Takes the first idle connection that is beyond a limit at a moment.
    fn reap_at(&mut self, moment: Moment, passes: bool) -> Option<Idle<C>>
        ensures answer { result ≡ reap_answer passes self.old.options moment.0 self.old.idle }
        ensures becomes { self.new ≡ reaped moment.0 result self.old }
    {
        if !passes {
            return None;
        }
        let idle = self.idle.take_reaped(&self.options, moment)?;
        self.last = moment;
        Some(idle)
    }

    /// Holds a place for one more connection up to this minimum, where the line lets one pass.
    pub fn hold_place(&mut self, minimum: u32, passes: bool) -> bool
        requires permit { passes ≡ true → 0 < free self.old }
        ensures answer { result ≡ has_place_if passes minimum self.old }
        ensures makes { (marks : List Mark) → StandsIn self.old marks → MakesIn self.old.options.max_connections marks [] self.new }
        ensures stays { Stays self.old self.new }
        ensures draws { Draws self.old self.new [] }
        ensures balance { Balance self.old self.new [] 0 (place_room result) }
        ensures becomes { self.new ≡ placed result self.old }
    {
        self.hold_if(minimum, passes)
    }

    // Holds a place where one more connection may be opened up to this minimum.
    fn hold_if(&mut self, minimum: u32, passes: bool) -> bool
        requires permit { passes ≡ true → 0 < free self.old }
        ensures answer { result ≡ has_place_if passes minimum self.old }
        ensures becomes { self.new ≡ placed result self.old }
        ensures sound { IsSound self.old }
    {
        let least = minimum.min(self.options.get_max_connections());
        let place = passes && self.size() < least && self.next_conn <= NUMBERS;
        if place {
            self.places += 1;
        }
        place
    }

    // Numbers a connection that was opened for a place, and puts it last among the idle.
    fn keep_new(&mut self, raw: C, moment: Moment)
        requires place { 1 ≤ self.old.places }
        requires numbers { self.old.next_conn < 2 ^ 64 - 1 }
        requires open { self.old.shut ≡ false }
        ensures { self.new ≡ at_moment moment.0 (placed_back (opened (kept (record { id = self.old.next_conn; created = moment; raw = raw }) moment.0 self.old))) }
    {
        let lent = Lent {
            id: self.next_conn,
            created: moment,
            raw,
        };
        self.idle.push(lent, moment);
        self.next_conn += 1;
        self.places -= 1;
        self.last = moment;
    }

    // Frees a place.
    fn free_place(&mut self, moment: Moment)
        requires { 1 ≤ self.old.places }
        ensures { self.new ≡ at_moment moment.0 (placed_back self.old) }
    {
        self.places -= 1;
        self.last = moment;
    }

    /// Tells at a moment what came of the connection for which a place was held.
    pub fn minimum_done(&mut self, moment: Moment, raw: Option<C>) -> Option<C>
        requires place { 1 ≤ self.old.places }
        requires numbers { self.old.next_conn < 2 ^ 64 - 1 }
        ensures answer { result ≡ handed_back self.old.closed raw }
        ensures makes { (marks : List Mark) → StandsIn self.old marks → MakesIn self.old.options.max_connections marks (done_marks self.old.closed self.old.next_conn moment.0 raw) self.new }
        ensures stays { Stays self.old self.new }
        ensures draws { Draws self.old self.new (done_marks self.old.closed self.old.next_conn moment.0 raw) }
        ensures balance { Balance self.old self.new (done_marks self.old.closed self.old.next_conn moment.0 raw) 0 0 }
        ensures becomes { self.new ≡ done self.old.closed moment.0 raw self.old }
    {
        self.done_at(moment, raw)
    }

    // Frees a place at a moment, and keeps the connection that was opened for it, where the pool is open.
    fn done_at(&mut self, moment: Moment, raw: Option<C>) -> Option<C>
        requires place { 1 ≤ self.old.places }
        requires numbers { self.old.next_conn < 2 ^ 64 - 1 }
        ensures answer { result ≡ handed_back self.old.closed raw }
        ensures becomes { self.new ≡ done self.old.closed moment.0 raw self.old }
        ensures sound { IsSound self.old }
    {
        if self.closed {
            self.free_place(moment);
            return raw;
        }
        match raw {
            Some(raw) => self.keep_new(raw, moment),
            None => self.free_place(moment),
        }
        None
    }

    /// Closes the pool, where no close came to it before. The idle connections come back.
    pub fn close(&mut self) -> VecDeque<Idle<C>>
        ensures answer { result.items ≡ close_answer self.old.shut self.old.idle }
        ensures makes { (marks : List Mark) → StandsIn self.old marks → MakesIn self.old.options.max_connections marks (close_marks self.old.shut result.items) self.new }
        ensures draws { Draws self.old self.new (close_marks self.old.shut result.items) }
        ensures balance { Balance self.old self.new (close_marks self.old.shut result.items) 0 0 }
        ensures becomes { self.new ≡ closed_from self.old.shut self.old }
        ensures shut { self.new.shut ≡ true }
    {
        self.shut_first()
    }

    // Closes the pool, where it is open.
    fn shut_first(&mut self) -> VecDeque<Idle<C>>
        ensures answer { result.items ≡ close_answer self.old.shut self.old.idle }
        ensures becomes { self.new ≡ closed_from self.old.shut self.old }
        ensures shut { self.new.shut ≡ true }
        ensures sound { IsSound self.old }
    {
        if self.shut {
            return self.idle.none();
        }
        self.shut = true;
        self.closed = true;
        self.idle.take_all()
    }
}
