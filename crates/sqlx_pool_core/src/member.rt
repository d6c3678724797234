//! One pool: its lists, its permits, and its steps. It is told whether a ticket is entitled and whether the line lets a
//! connection pass, so that a pool that is alone and one that isn't share each step.
//! Where a step is one call of an inner one, the inner one says what it does by the lists alone, and the step concludes
//! from that what it says of marks, numbers and counts.

ghost use Rattle.std.specs.Prelude.{◌≡◌, ℕ, ◌+◌, ◌*◌, ◌<◌, ◌≤◌, max, List, [], Option, Some, None, IfOk, IfSome, length, if◌then◌else◌, not, false, is_some};
ghost use Rattle.sqlx_pool_lists.specs.Core.{waiting, gone, free, size, loan_of};
ghost use Rattle.sqlx_pool_lists.specs.Balance.{marks_due};
ghost use Rattle.sqlx_pool_lists.specs.Sound.{IsSound};
ghost use Rattle.sqlx_pool_lists.specs.StandsFor.{StandsIn};
ghost use Rattle.sqlx_pool_lists.specs.PollSteps.{phase_for, is_in_line};
ghost use Rattle.sqlx_pool_lists.specs.MaintenanceSteps.{close_state};

mod ask;
mod finish;
mod give;
mod maintenance;
mod poll;
pub mod shared;

use sqlx_pool_lists::{
    CloseState, HeldList, IdleList, Numbers, Phase, PoolOptions, Ticket, Tickets,
};
use sqlx_text::{Moment, OutOfMemory};
use std::alloc::Global;
use std::marker::Model;

// How many tickets, and how many connections, a pool numbers.
const NUMBERS: u64 = 1 << 63;

/// A pool: who waits, who owns which connection, which connections are idle, and how many permits the pool owns.
pub struct Member<C> {
    leaked: u32,
    places: u32,
    permits: u32,
    // A close came to this pool.
    shut: bool,
    // It counts as closed: a close came to it, or to what it belongs to.
    closed: bool,
    next_ticket: u64,
    next_conn: u64,
    last: Moment,
    tickets: Tickets,
    idle: IdleList<C>,
    held: HeldList,
    options: PoolOptions,
}

impl<C: Drop> Drop for Member<C> {
    fn drop(self) {
        let Member {
            options: _,
            tickets,
            held,
            idle,
            leaked: _,
            shut: _,
            closed: _,
            places: _,
            permits: _,
            next_ticket: _,
            next_conn: _,
            last: _,
        } = self;
        drop(tickets);
        drop(held);
        drop(idle);
    }
}

impl<C> Model for Member<C> {
    ghost use Rattle.std.specs.Prelude.{◌≤◌};
    ghost use Rattle.sqlx_pool_lists.specs.Core.{Core, core_of};
    ghost use Rattle.sqlx_pool_lists.specs.Sound.{IsSound, HasRoom};

    ghost Value = { Core C };

    ghost view = { λ s. core_of s.options s.tickets s.held.items s.idle.items s.leaked s.shut s.closed s.places s.permits s.next_ticket s.next_conn s.last.0 };

    ghost invariant = { λ s. IsSound (core_of s.options s.tickets s.held.items s.idle.items s.leaked s.shut s.closed s.places s.permits s.next_ticket s.next_conn s.last.0)
        × HasRoom s.options.max_connections s.shut s.held.room s.idle.room };
}

impl<C> Member<C> {
    /// An empty pool that owns so many permits. Its places for connections are reserved here, so that no later step needs
    /// memory for one.
    pub fn new(alloc: Global, options: PoolOptions, permits: u32) -> Result<Self, OutOfMemory>
        requires some { 1 ≤ options.max_connections }
        requires tries { (1 ≤ options.idle_tries) × (options.idle_tries ≤ 16) }
        requires permits { permits ≤ options.max_connections }
        ensures stands { IfOk result (λ core. StandsIn core []) }
        ensures options { IfOk result (λ core. core.options ≡ options) }
        ensures permits { IfOk result (λ core. core.permits ≡ permits) }
        ensures closed { IfOk result (λ core. core.closed ≡ core.shut) }
        ensures shut { IfOk result (λ core. core.shut ≡ false) }
        ensures next_ticket { IfOk result (λ core. core.next_ticket ≡ 1) }
        ensures next_conn { IfOk result (λ core. core.next_conn ≡ 1) }
        ensures places { IfOk result (λ core. core.places ≡ 0) }
        ensures last { IfOk result (λ core. core.last ≡ 0) }
        ensures gone { IfOk result (λ core. gone core.tickets ≡ 0) }
    {
        let max = options.get_max_connections();
        let held = HeldList::with_capacity(alloc, max)?;
        let idle = IdleList::with_capacity(alloc, max as usize)?;
        Ok(Member {
            options,
            tickets: Tickets::new(alloc),
            held,
            idle,
            leaked: 0,
            shut: false,
            closed: false,
            places: 0,
            permits,
            next_ticket: 1,
            next_conn: 1,
            last: Moment(0),
        })
    }

    /// How the pool was set up.
    pub fn options(&self) -> &PoolOptions
        ensures { result.now ≡ self.now.options }
    {
        &self.options
    }

    /// What holds of every pool. It does nothing.
    pub fn sound(&self)
        ensures { IsSound self.now }
    {
        let _ = &self.options;
    }

    /// The moment that a step goes by: one below the last moment counts as the last one.
    pub fn moment(&self, now: Moment) -> Moment
        ensures { result.0 ≡ max self.now.last now.0 }
    {
        Moment(self.last.0.max(now.0))
    }

    /// How many permits are free.
    pub fn num_free(&self) -> u32
        ensures { result ≡ free self.now }
    {
        let taken = self.held.len() + self.tickets.gone();
        self.permits - (taken as u32 + self.leaked + self.places)
    }

    /// How many connections there are or may be.
    pub fn size(&self) -> u32
        ensures { result ≡ size self.now }
    {
        let size = self.idle.len() + self.held.len() + self.tickets.gone();
        size as u32 + self.leaked + self.places
    }

    /// How many connections are idle.
    pub fn num_idle(&self) -> usize
        ensures { result ≡ length self.now.idle }
    {
        self.idle.len()
    }

    /// How many marks are made at most before the pool is closed and empty, where nothing new begins.
    pub fn due(&self) -> usize
        ensures { result ≡ marks_due self.now }
    {
        let waiting = self.tickets.waiting();
        let testing = self.tickets.testing();
        let left = self.tickets.left_to_test(self.options.get_idle_tries());
        let shut = if self.shut { 0 } else { 1 };
        6 * self.tickets.len()
            + 2 * waiting
            + testing
            + 2 * left
            + 2 * self.held.len()
            + self.idle.len()
            + 3 * self.places as usize
            + shut
    }

    /// Whether the client owns the connection of this number.
    pub fn owns(&self, client: u32, id: u64) -> bool
        ensures { result ≡ is_some (loan_of client id self.now.held) }
    {
        self.held.loan_for(client, id).is_some()
    }

    /// How many connections have an owner.
    pub fn num_held(&self) -> usize
        ensures { result ≡ length self.now.held }
    {
        self.held.len()
    }

    /// How many connections were leaked.
    pub fn num_leaked(&self) -> u32
        ensures { result ≡ self.now.leaked }
    {
        self.leaked
    }

    /// How many tickets haven't ended.
    pub fn num_tickets(&self) -> usize
        ensures { result ≡ length self.now.tickets }
    {
        self.tickets.len()
    }

    /// How many places are held for the minimum.
    pub fn num_places(&self) -> u32
        ensures { result ≡ self.now.places }
    {
        self.places
    }

    /// The client has such a ticket, and it stands in the line.
    pub fn waits(&self, client: u32, ticket: u64) -> bool
        ensures { result ≡ is_in_line (phase_for client ticket self.now.tickets) }
    {
        match self.find(client, ticket) {
            Some(found) => matches!(found.phase, Phase::Waiting),
            None => false,
        }
    }

    /// The numbers that the next ticket and the next connection get.
    pub fn numbers(&self) -> Numbers
        ensures { result ≡ record { next_ticket = self.now.next_ticket; next_conn = self.now.next_conn } }
    {
        Numbers {
            next_ticket: self.next_ticket,
            next_conn: self.next_conn,
        }
    }

    /// How far the pool is closed.
    pub fn closing(&self) -> CloseState
        ensures { result ≡ close_state self.now.shut (length self.now.held) self.now.leaked (length self.now.tickets) }
    {
        if !self.shut {
            CloseState::NotShut
        } else if self.held.is_empty() && self.leaked == 0 && self.tickets.is_empty() {
            CloseState::Closed
        } else {
            CloseState::Closing
        }
    }

    /// Whether a close came to the pool.
    pub fn is_shut(&self) -> bool
        ensures { result ≡ self.now.shut }
    {
        self.shut
    }
}
