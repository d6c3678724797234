//! The loans, in the order of lending: one is found and ended without a look at the others.
ghost use Rattle.std.specs.Prelude.{◌≡◌, ◌≤◌, ◌<◌, ◌==◌, ◌∷◌, ◌++◌, [], ℕ, Some, None, IfOk, IfSome, IfNone, length, count_by, slice_get, slice_set, Option, is_some, nat_eq, true, false, if◌then◌else◌, vec_capacity};
ghost use Rattle.std.specs.HashMap.{get};
ghost use Rattle.sqlx_pool_lists.specs.declared.ticket.OwnedConn.{OwnedConn};
ghost use Rattle.sqlx_pool_lists.specs.Core.{loan_of};
ghost use Rattle.sqlx_pool_lists.specs.Sound.{holds};
ghost use Rattle.sqlx_pool_lists.specs.Edits.{without_loan};
ghost use Rattle.sqlx_pool_lists.specs.HeldList.{loans_at, AreNoted, IsNotedToo};

use crate::OwnedConn;
use sqlx_text::OutOfMemory;
use std::alloc::Global;
use std::collections::HashMap;
use std::marker::Model;

// Where there is room for no more loans than these, a look at each place is sooner done than a note.
const FEW: usize = 16;

/// Loans, in the order of lending.
pub struct HeldList {
    // A loan that ended left a gap. They are closed where the places are used up.
    places: Vec<Option<OwnedConn>>,
    // Each loan is noted. Where there is room for few none is; without memory one may not be, until the gaps are closed.
    all_noted: bool,
    len: usize,
    room: usize,
    // Where each connection was lent last; nothing where there is room for few.
    noted: HashMap<u64, usize>,
}

impl Drop for HeldList {
    fn drop(self) {
        let HeldList {
            places,
            noted,
            all_noted: _,
            len: _,
            room: _,
        } = self;
        drop(places);
        drop(noted);
    }
}

impl Model for HeldList {
    ghost use Rattle.std.specs.Prelude.{nat_eq, vec_capacity};
    ghost use Rattle.std.specs.HashMap.{get};
    ghost use Rattle.sqlx_pool_lists.specs.HeldList.{HeldQueue, AreAtTheirPlaces, loans_at};

    ghost Value = { HeldQueue };

    ghost view = { λ s. record { items = loans_at s.places.items; room = s.room } };

    ghost invariant = { λ s. AreAtTheirPlaces s.places.items (get nat_eq s.noted) s.all_noted s.len s.room (vec_capacity s.places) };
}

// The loan at a place, where it is of this connection.
fn loan_at(places: &[Option<OwnedConn>], place: usize, conn: u64) -> Option<OwnedConn>
    ensures some { IfSome result (λ h. (slice_get places.now place ≡ Some (Some h)) × (h.conn ≡ conn)) }
    ensures none { IfNone result ((h : OwnedConn) → slice_get places.now place ≡ Some (Some h) → (conn == h.conn) ≡ false) }
{
    let Some(Some(held)) = places.get(place) else {
        return None;
    };
    if conn == held.conn { Some(*held) } else { None }
}

// A connection's loan and its place, by a look at each.
fn look_for(places: &[Option<OwnedConn>], conn: u64) -> Option<(usize, OwnedConn)>
    ensures some { IfSome result (λ p. (slice_get places.now p.0 ≡ Some (Some p.1)) × (p.1.conn ≡ conn)) }
    ensures none { IfNone result (count_by (holds conn) (loans_at places.now) ≡ 0) }
{
    for place in 0..places.len() {
        if let Some(held) = loan_at(places, place, conn) {
            return Some((place, held));
        }
    }
    None
}

// A connection's loan and its place.
fn find(
    places: &[Option<OwnedConn>],
    noted: &HashMap<u64, usize>,
    all_noted: bool,
    conn: u64,
) -> Option<(usize, OwnedConn)>
    requires { all_noted ≡ true → AreNoted places.now (get nat_eq noted.now) }
    ensures some { IfSome result (λ p. (slice_get places.now p.0 ≡ Some (Some p.1)) × (p.1.conn ≡ conn)) }
    ensures none { IfNone result (count_by (holds conn) (loans_at places.now) ≡ 0) }
{
    if !all_noted {
        return look_for(places, conn);
    }
    let place = noted.get(&conn).copied()?;
    let held = loan_at(places, place, conn)?;
    Some((place, held))
}

// Notes a connection's place, and tells whether there was memory.
fn note(noted: &mut HashMap<u64, usize>, conn: u64, place: usize) -> bool
    ensures { result ≡ true → (q : ℕ) → get nat_eq noted.new q ≡ (if conn == q then Some place else get nat_eq noted.old q) }
{
    noted.insert(conn, place).is_ok()
}

// Notes a place, where a loan stands there and its connection is noted at none, and tells whether it is noted.
fn note_new(noted: &mut HashMap<u64, usize>, held: Option<OwnedConn>, place: usize) -> bool
    ensures { result ≡ true → IsNotedToo (get nat_eq noted.old) (get nat_eq noted.new) held place }
{
    let Some(held) = held else {
        return true;
    };
    if noted.get(&held.conn).is_some() {
        return false;
    }
    note(noted, held.conn, place)
}

// Notes the place of each, and tells whether all are noted.
fn note_all(places: &[Option<OwnedConn>], noted: &mut HashMap<u64, usize>) -> bool
    ensures { result ≡ true → AreNoted places.now (get nat_eq noted.new) }
{
    for place in 0..places.len() {
        if !note_new(noted, places[place], place) {
            return false;
        }
    }
    true
}

// Notes the place behind these for a loan, and tells whether all are noted then.
fn note_last(
    places: &[Option<OwnedConn>],
    noted: &mut HashMap<u64, usize>,
    all_noted: bool,
    loan: OwnedConn,
) -> bool
    requires { all_noted ≡ true → AreNoted places.now (get nat_eq noted.old) }
    ensures { result ≡ true → AreNoted (places.now ++ Some loan ∷ []) (get nat_eq noted.new) }
{
    if !all_noted || find(places, noted, all_noted, loan.conn).is_some() {
        return false;
    }
    note(noted, loan.conn, places.len())
}

// Closes the gaps where the places are used up, and tells whether all are noted then, which is so only where it is wanted.
fn make_room(
    places: &mut Vec<Option<OwnedConn>>,
    noted: &mut HashMap<u64, usize>,
    all_noted: bool,
    notes: bool,
) -> bool
    requires noted { all_noted ≡ true → AreNoted places.old.items (get nat_eq noted.old) }
    requires room { length (loans_at places.old.items) < vec_capacity places.old }
    ensures loans { loans_at places.new.items ≡ loans_at places.old.items }
    ensures capacity { vec_capacity places.new ≡ vec_capacity places.old }
    ensures room { length places.new.items < vec_capacity places.new }
    ensures noted { result ≡ true → AreNoted places.new.items (get nat_eq noted.new) }
{
    if places.len() < places.capacity() {
        return all_noted;
    }
    close_gaps(places, noted, notes)
}

// Closes the gaps, and tells whether all are noted then, which is so only where it is wanted.
#[cold]
#[inline(never)]
fn close_gaps(
    places: &mut Vec<Option<OwnedConn>>,
    noted: &mut HashMap<u64, usize>,
    notes: bool,
) -> bool
    requires { length (loans_at places.old.items) < vec_capacity places.old }
    ensures loans { loans_at places.new.items ≡ loans_at places.old.items }
    ensures capacity { vec_capacity places.new ≡ vec_capacity places.old }
    ensures room { length places.new.items < vec_capacity places.new }
    ensures noted { result ≡ true → AreNoted places.new.items (get nat_eq noted.new) }
{
    places.retain(|p| p.is_some());
    if !notes {
        return false;
    }
    noted.clear();
    note_all(places, noted)
}

// Takes the loan at a place away: it leaves a gap, but none at the end.
#[tactic(auto, using(crate::proofs::HeldLists::last_gap, crate::proofs::HeldLists::last_gap_noted, crate::proofs::HeldLists::noted_gap))]
fn leave(places: &mut Vec<Option<OwnedConn>>, place: usize)
    requires { place < length places.old.items }
    ensures left { loans_at places.new.items ≡ loans_at (slice_set places.old.items place None) }
    ensures noted { (noted : ℕ → Option ℕ) → AreNoted places.old.items noted → AreNoted places.new.items noted }
    ensures capacity { vec_capacity places.new ≡ vec_capacity places.old }
{
    if place + 1 == places.len() {
        places.truncate(place);
    } else {
        places[place] = None;
    }
}

impl HeldList {
    /// No loans, with room for so many. There are twice as many places, so that gaps are seldom closed.
    pub fn with_capacity(alloc: Global, room: u32) -> Result<HeldList, OutOfMemory>
        ensures items { IfOk result (λ held. held.items ≡ []) }
        ensures capacity { IfOk result (λ held. room ≤ held.room) }
    {
        let room = room as usize;
        let Ok(places) = Vec::with_capacity(alloc, 2 * room) else {
            return Err(OutOfMemory);
        };
        let Ok(noted) = HashMap::with_capacity(alloc, 2 * room) else {
            return Err(OutOfMemory);
        };
        Ok(HeldList {
            places,
            noted,
            all_noted: room > FEW,
            len: 0,
            room,
        })
    }

    /// How many there are.
    pub fn len(&self) -> usize
        ensures { result ≡ length self.now.items }
    {
        self.len
    }

    /// There is none.
    pub fn is_empty(&self) -> bool
        ensures { result ≡ (length self.now.items == 0) }
    {
        self.len == 0
    }

    /// This client's loan of this connection.
    pub fn loan_for(&self, client: u32, conn: u64) -> Option<OwnedConn>
        requires { count_by (holds conn) self.now.items ≤ 1 }
        ensures { result ≡ loan_of client conn self.now.items }
    {
        let (_, held) = find(&self.places, &self.noted, self.all_noted, conn)?;
        if client == held.client {
            Some(held)
        } else {
            None
        }
    }

    /// Puts a loan last.
    #[inline(always)]
    pub fn push_reserved(&mut self, loan: OwnedConn)
        requires { length self.old.items < self.old.room }
        ensures items { self.new.items ≡ self.old.items ++ loan ∷ [] }
        ensures capacity { self.new.room ≡ self.old.room }
    {
        let notes = self.room > FEW;
        let all_noted = make_room(&mut self.places, &mut self.noted, self.all_noted, notes);
        self.all_noted = note_last(&self.places, &mut self.noted, all_noted, loan);
        self.places.push_reserved(Some(loan));
        self.len += 1;
    }

    /// Ends this client's loan of this connection, and answers it. Nothing changes where there is none.
    pub fn take(&mut self, client: u32, conn: u64) -> Option<OwnedConn>
        requires { count_by (holds conn) self.old.items ≤ 1 }
        ensures answer { result ≡ loan_of client conn self.old.items }
        ensures some { is_some result ≡ true → self.new.items ≡ without_loan conn self.old.items }
        ensures none { is_some result ≡ false → self.new.items ≡ self.old.items }
        ensures capacity { self.new.room ≡ self.old.room }
    {
        let (place, held) = find(&self.places, &self.noted, self.all_noted, conn)?;
        if client != held.client {
            return None;
        }
        leave(&mut self.places, place);
        self.len -= 1;
        Some(held)
    }
}
