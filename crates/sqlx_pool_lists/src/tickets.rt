//! The tickets that haven't ended, in the order of asking: one is found, changed and ended without a look at the others.
ghost use Rattle.std.specs.Prelude.{◌≡◌, ◌==◌, ◌*◌, ◌^◌, ◌<◌, ◌≤◌, nat_lt, true, if◌then◌else◌, [], ◌∷◌, ◌++◌, Some, IfSome, length, All, OnOk, OnErr, count_by, sum_by, filter, not, ◌&&◌};
ghost use Rattle.sqlx_pool_lists.specs.Core.{waiting, gone, ticket_of, has_gone, is_out, waits};
ghost use Rattle.sqlx_pool_lists.specs.Balance.{testing, left_to_test, all_left_to_test};
ghost use Rattle.sqlx_pool_lists.specs.CoreTurn.{before, first_deadline};
ghost use Rattle.sqlx_pool_lists.specs.Shared.{waits_before};
ghost use Rattle.sqlx_pool_lists.specs.Edits.{without_ticket, with_ticket};

use crate::{Phase, Ticket};
use sqlx_pool_places::{Numbering, Place, drop_first_gaps, drop_last_gaps, find_place, make_room};
use sqlx_text::OutOfMemory;
use std::alloc::Global;
use std::collections::VecDeque;
use std::marker::Model;

// No memory holds more tickets.
const MOST: usize = 1 << 57;

/// The tickets that haven't ended, in the order of asking.
pub struct Tickets {
    // The gaps before the first ticket are taken away, the others closed where the places are used up.
    places: VecDeque<Place<Ticket>>,
    len: usize,
    // How many have left the line.
    gone: usize,
}

impl Drop for Tickets {
    fn drop(self) {
        let Tickets {
            places,
            len: _,
            gone: _,
        } = self;
        drop(places);
    }
}

impl Model for Tickets {
    ghost use Rattle.std.specs.Prelude.{List};
    ghost use Rattle.sqlx_pool_lists.specs.declared.ticket.Ticket.{Ticket};
    ghost use Rattle.sqlx_pool_places.specs.Rising.{things_at};
    ghost use Rattle.sqlx_pool_lists.specs.Tickets.{AreKept};

    ghost Value = { List Ticket };

    ghost view = { λ s. things_at s.places.items };

    ghost invariant = { λ s. AreKept s.places.items s.len s.gone };
}

impl Numbering<Ticket> for Tickets {
    ghost use Rattle.sqlx_pool_lists.specs.Sound.{number_of};

    ghost number = { number_of };

    fn number(thing: &Ticket) -> u64 {
        thing.number
    }
}

// How many idle connections more may be tested for a ticket.
fn tests_left(ticket: &Ticket, tries: u32) -> u32
    ensures left { result ≡ left_to_test tries ticket.now }
    ensures few { result ≤ tries }
{
    match ticket.phase {
        Phase::Waiting => tries.saturating_sub(1),
        Phase::Testing { before, .. } => tries.saturating_sub(before).saturating_sub(1),
        _ => 0,
    }
}

// One for a ticket that has left the line, none for one that waits.
fn one_if_gone(ticket: &Ticket) -> usize
    ensures { result ≡ (if has_gone ticket.now then 1 else 0) }
{
    if ticket.phase.is_out() { 1 } else { 0 }
}

impl Tickets {
    /// No tickets.
    pub fn new(alloc: Global) -> Tickets
        ensures { result ≡ [] }
    {
        Tickets {
            places: VecDeque::new(alloc),
            len: 0,
            gone: 0,
        }
    }

    /// How many there are.
    pub fn len(&self) -> usize
        ensures count { result ≡ length self.now }
        ensures few { result ≤ 2 ^ 57 }
    {
        self.len
    }

    /// There is none.
    pub fn is_empty(&self) -> bool
        ensures { result ≡ (length self.now == 0) }
    {
        self.len == 0
    }

    /// How many have left the line.
    pub fn gone(&self) -> usize
        ensures count { result ≡ gone self.now }
        ensures few { result ≤ length self.now }
    {
        self.gone
    }

    /// How many wait.
    pub fn waiting(&self) -> usize
        ensures { result ≡ waiting self.now }
    {
        self.len - self.gone
    }

    /// How many have a connection under test. It looks no further than the last ticket that has left the line.
    pub fn testing(&self) -> usize
        ensures { result ≡ testing self.now }
    {
        if self.gone == 0 {
            return 0;
        }
        self.places
            .iter()
            .filter_map(|p| p.thing())
            .filter(|x| x.phase.is_out())
            .take(self.gone)
            .filter(|x| matches!(x.phase, Phase::Testing { .. }))
            .count()
    }

    // How many idle connections more may be tested for those that have left the line.
    fn left_for_gone(&self, tries: u32) -> usize
        requires { tries ≤ 16 }
        ensures left { result ≡ sum_by (left_to_test tries) (filter has_gone self.now) }
        ensures few { length self.now ≤ 2 ^ 57 }
    {
        if self.gone == 0 {
            return 0;
        }
        self.places
            .iter()
            .filter_map(|p| p.thing())
            .filter(|x| x.phase.is_out())
            .take(self.gone)
            .map(|x| tests_left(&x, tries) as usize)
            .sum()
    }

    /// How many idle connections more may be tested for all tickets. It looks no further than the last ticket that has
    /// left the line.
    pub fn left_to_test(&self, tries: u32) -> usize
        requires { tries ≤ 16 }
        ensures left { result ≡ all_left_to_test tries self.now }
        ensures few { result ≤ length self.now * 16 }
    {
        self.left_for_gone(tries) + self.waiting() * tries.saturating_sub(1) as usize
    }

    /// How many waiting tickets were asked before this one.
    pub fn before(&self, number: u64) -> usize
        ensures { result ≡ before number self.now }
    {
        self.places
            .iter()
            .filter_map(|p| p.thing())
            .take_while(|x| number != x.number)
            .filter(|x| !x.phase.is_out())
            .count()
    }

    /// How many waiting tickets have a smaller number.
    pub fn waiting_before(&self, number: u64) -> usize
        ensures { result ≡ count_by (waits_before number) self.now }
    {
        self.places
            .iter()
            .filter_map(|p| p.thing())
            .filter(|x| !x.phase.is_out() && x.number < number)
            .count()
    }

    /// Fewer waiting tickets than the limit were asked before this one.
    pub fn are_fewer_before(&self, number: u64, limit: usize) -> bool
        ensures { result ≡ nat_lt (before number self.now) limit }
    {
        self.waiting() < limit || (0 < limit && self.before(number) < limit)
    }

    /// This client's ticket of this number.
    pub fn find(&self, client: u32, number: u64) -> Option<Ticket>
        ensures { result ≡ ticket_of client number self.now }
    {
        let (_, found) = find_place::<Ticket, Tickets>(&self.places, number)?;
        if found.client == client {
            Some(*found)
        } else {
            None
        }
    }

    /// The deadline of this client's ticket of this number, where it is the first of all and waits. It looks at the first
    /// place alone.
    #[inline(always)]
    pub fn first_deadline(&self, client: u32, number: u64) -> Option<u128>
        ensures { IfSome result (λ deadline. first_deadline client number self.now ≡ Some deadline) }
    {
        let Some(Place::Here(first)) = self.places.front() else {
            return None;
        };
        if first.number == number && first.client == client && !first.phase.is_out() {
            Some(first.deadline)
        } else {
            None
        }
    }

    /// Ends a ticket.
    pub fn end(&mut self, number: u64)
        ensures { self.new ≡ without_ticket number self.old }
    {
        if let Some((place, ended)) = find_place::<Ticket, Tickets>(&self.places, number) {
            self.gone -= one_if_gone(ended);
            self.len -= 1;
            self.places[place] = Place::Gap(number);
            drop_first_gaps::<Ticket, Tickets>(&mut self.places);
        }
    }

    /// Puts a ticket in the place of the one of its number.
    pub fn put(&mut self, ticket: Ticket)
        ensures { self.new ≡ with_ticket ticket.number (λ _. ticket) self.old }
    {
        if let Some((place, before)) = find_place::<Ticket, Tickets>(&self.places, ticket.number) {
            self.gone -= one_if_gone(before);
            self.gone += one_if_gone(&ticket);
            self.places[place] = Place::Here(ticket);
        }
    }

    /// A ticket is asked, and stands behind all others.
    pub fn push(&mut self, ticket: Ticket) -> Result<(), OutOfMemory>
        requires waits { waits ticket ≡ true }
        requires last { All (λ x. x.number < ticket.number) self.old }
        ensures ok { OnOk result (self.new ≡ self.old ++ ticket ∷ []) }
        ensures err { OnErr result (self.new ≡ self.old) }
    {
        if self.len == MOST {
            return Err(OutOfMemory);
        }
        make_room::<Ticket, Tickets>(&mut self.places, self.len);
        drop_last_gaps::<Ticket, Tickets>(&mut self.places, ticket.number);
        if self.places.push_back(Place::Here(ticket)).is_err() {
            return Err(OutOfMemory);
        }
        self.len += 1;
        Ok(())
    }
}
