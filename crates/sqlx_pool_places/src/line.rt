//! The line itself. Each call that looks at a ticket looks once.
ghost use Rattle.std.specs.Prelude.{◌≡◌, ◌+◌, ◌-◌, ◌<◌, ◌≤◌, ◌^◌, if◌then◌else◌, length, true, OnOk, OnErr};
ghost use Rattle.std.specs.List.Sorted.{IsStrictlyIncreasing};
ghost use Rattle.sqlx_pool_places.specs.Line.{ComesLast, no_line, is_waiting, is_below_edge, entitled, beyond, pushed, without, advanced, take_answer, after_take};

use crate::steps::Steps;
use crate::took::Took;
use crate::{Numbering, Place, drop_first_gaps, drop_last_gaps, find_place, first_from, make_room};
use sqlx_text::OutOfMemory;
use std::alloc::Global;
use std::collections::VecDeque;
use std::marker::Model;
use std::sync::ledger::Ledger;

/// Waiting tickets by their numbers, and an edge: a ticket below it is entitled.
pub struct Line {
    // The gaps before the first ticket are taken away, the others closed where the places are used up.
    places: VecDeque<Place<u64>>,
    waiting: usize,
    entitled: usize,
    edge: u64,
    moves: u64,
}

impl Drop for Line {
    fn drop(self) {
        let Line {
            places,
            waiting: _,
            entitled: _,
            edge: _,
            moves: _,
        } = self;
        drop(places);
    }
}

impl Model for Line {
    ghost use Rattle.sqlx_pool_places.specs.Rising.{things_at};
    ghost use Rattle.sqlx_pool_places.specs.Line.{TicketLine, IsKept, line_of};

    ghost Value = { TicketLine };

    ghost view = { λ s. line_of (things_at s.places.items) s.edge s.moves };

    ghost invariant = { λ s. IsKept s.places.items s.waiting s.entitled s.edge s.moves };
}

// A ticket is its number.
impl Numbering<u64> for Line {
    ghost number = { λ n. n };

    fn number(thing: &u64) -> u64 {
        *thing
    }
}

impl Line {
    /// A line in which nobody waits.
    pub fn new(alloc: Global) -> Line
        ensures { result ≡ no_line }
    {
        Line {
            places: VecDeque::new(alloc),
            waiting: 0,
            entitled: 0,
            edge: 0,
            moves: 0,
        }
    }

    /// How many tickets wait.
    pub fn waiting(&self) -> usize
        ensures count { result ≡ length self.now.waiting }
        ensures rising { IsStrictlyIncreasing self.now.waiting }
    {
        self.waiting
    }

    /// How many of them aren't entitled.
    pub fn beyond(&self) -> usize
        ensures { result ≡ beyond self.now }
    {
        self.waiting - self.entitled
    }

    /// How often the edge moved.
    pub fn moves(&self) -> u64
        ensures count { result ≡ self.now.moves }
        ensures few { result ≤ self.now.edge }
    {
        self.moves
    }

    /// Behind the last ticket that was entitled.
    pub fn edge(&self) -> u64
        ensures { result ≡ self.now.edge }
    {
        self.edge
    }

    /// Whether a ticket of this number is entitled, if it waits.
    pub fn is_entitled(&self, ticket: u64) -> bool
        ensures { result ≡ is_below_edge ticket self.now }
    {
        self.edge > ticket
    }

    // Whether the ticket waits.
    fn waits(&self, ticket: u64) -> bool
        ensures { result ≡ is_waiting ticket self.now }
    {
        find_place::<u64, Line>(&self.places, ticket).is_some()
    }

    /// A ticket joins behind all others.
    pub fn push<L: Ledger>(
        &mut self,
        _alloc: Global,
        ticket: u64,
        steps: &mut Steps<L>,
    ) -> Result<(), OutOfMemory>
        requires last { ComesLast ticket self.old }
        requires numbered { ticket < 2 ^ 64 - 1 }
        ensures ok { OnOk result (self.new ≡ pushed ticket self.old) }
        ensures err { OnErr result (self.new ≡ self.old) }
        ensures cost { steps.new ≡ steps.old + 1 }
    {
        steps.tick();
        make_room::<u64, Line>(&mut self.places, self.waiting);
        drop_last_gaps::<u64, Line>(&mut self.places, ticket);
        if self.places.push_back(Place::Here(ticket)).is_err() {
            return Err(OutOfMemory);
        }
        self.waiting += 1;
        Ok(())
    }

    /// Takes a ticket out of the line, where it is entitled.
    pub fn take<L: Ledger>(&mut self, ticket: u64, steps: &mut Steps<L>) -> Took
        ensures answer { result ≡ take_answer ticket self.old }
        ensures becomes { self.new ≡ after_take ticket result self.old }
        ensures cost { steps.new ≡ steps.old + 1 }
    {
        if ticket < self.edge {
            if self.remove(ticket, steps) {
                Took::Taken
            } else {
                Took::Absent
            }
        } else {
            steps.tick();
            if self.waits(ticket) {
                Took::Beyond
            } else {
                Took::Absent
            }
        }
    }

    /// Takes a ticket out of the line, entitled or not. Tells whether it waited.
    pub fn remove<L: Ledger>(&mut self, ticket: u64, steps: &mut Steps<L>) -> bool
        ensures answer { result ≡ is_waiting ticket self.old }
        ensures becomes { self.new ≡ without ticket self.old }
        ensures cost { steps.new ≡ steps.old + 1 }
    {
        steps.tick();
        self.leave(ticket)
    }

    /// The same without a count.
    pub fn leave(&mut self, ticket: u64) -> bool
        ensures answer { result ≡ is_waiting ticket self.old }
        ensures becomes { self.new ≡ without ticket self.old }
    {
        if let Some((place, number)) = find_place::<u64, Line>(&self.places, ticket) {
            self.entitled = less(self.entitled, *number < self.edge);
            self.waiting -= 1;
            self.places[place] = Place::Gap(ticket);
            drop_first_gaps::<u64, Line>(&mut self.places);
            true
        } else {
            false
        }
    }

    /// Moves the edge past the first ticket that isn't entitled. Answers true.
    pub fn advance<L: Ledger>(&mut self, steps: &mut Steps<L>) -> bool
        requires { 0 < beyond self.old }
        ensures answer { result ≡ true }
        ensures becomes { self.new ≡ advanced self.old }
        ensures forward { self.old.edge < self.new.edge }
        ensures one { entitled self.new ≡ entitled self.old + 1 }
        ensures cost { steps.new ≡ steps.old + 1 }
    {
        steps.tick();
        match first_from::<u64, Line>(&self.places, self.edge) {
            Some(next) => {
                self.edge = next + 1;
                self.moves += 1;
                self.entitled += 1;
                true
            }
            None => false,
        }
    }
}

/// One less, where one went.
fn less(count: usize, went: bool) -> usize
    requires { (if went then 1 else 0) ≤ count }
    ensures { result + (if went then 1 else 0) ≡ count }
{
    if went { count - 1 } else { count }
}
