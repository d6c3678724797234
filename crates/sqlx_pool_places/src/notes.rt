//! Notes of the place at which each number stands.
ghost use Rattle.std.specs.Prelude.{◌≡◌, ◌==◌, ℕ, ◌∷◌, ◌++◌, [], Some, None, IfSome, IfNone, length, slice_get, nat_eq, true, false, if◌then◌else◌, vec_capacity};
ghost use Rattle.std.specs.HashMap.{get};
ghost use Rattle.sqlx_pool_places.specs.Numbered.{items_at, AreNoted, IsFirstAt, HasNone, IsNotedToo};
ghost use Rattle.sqlx_pool_places.specs.Notes.{Tells};

use crate::numbering::Numbering;
use std::alloc::Global;
use std::collections::HashMap;

// Among no more places than these, a look at each is sooner done than a note is found.
const FEW: usize = 16;

/// Where numbered things stand among places, some of which are gaps.
pub struct Notes {
    // Where each number was put last.
    noted: HashMap<u64, usize>,
    // Each thing is noted. Without memory for that it may not be, until the gaps are closed.
    all: bool,
}

impl Drop for Notes {
    fn drop(self) {
        let Notes { noted, all: _ } = self;
        drop(noted);
    }
}

// A thing of this number stands at a place.
fn stands_at<T, N: Numbering<T>>(places: &[Option<T>], place: usize, number: u64) -> bool
    ensures yes { result ≡ true → HasNone N.number number places.now place → IsFirstAt N.number number places.now place }
    ensures no { result ≡ false → (x : T) → slice_get places.now place ≡ Some (Some x) → (number == N.number x) ≡ false }
{
    match places.get(place) {
        Some(Some(thing)) => number == N::number(thing),
        _ => false,
    }
}

// The place of the first thing of this number, by a look at each.
fn look_for<T, N: Numbering<T>>(places: &[Option<T>], number: u64) -> Option<usize>
    ensures some { IfSome result (IsFirstAt N.number number places.now) }
    ensures none { IfNone result (HasNone N.number number places.now (length places.now)) }
{
    for place in 0..places.len() {
        if stands_at::<T, N>(places, place, number) {
            return Some(place);
        }
    }
    None
}

// Notes a number's place, and tells whether there was memory.
fn note(noted: &mut HashMap<u64, usize>, number: u64, place: usize) -> bool
    ensures { result ≡ true → (q : ℕ) → get nat_eq noted.new q ≡ (if number == q then Some place else get nat_eq noted.old q) }
{
    noted.insert(number, place).is_ok()
}

// Notes a place, where a thing stands there and its number is noted at none, and tells whether it is noted.
fn note_new<T, N: Numbering<T>>(
    noted: &mut HashMap<u64, usize>,
    thing: &Option<T>,
    place: usize,
) -> bool
    ensures { result ≡ true → IsNotedToo N.number (get nat_eq noted.old) (get nat_eq noted.new) thing.now place }
{
    let Some(thing) = thing else {
        return true;
    };
    let number = N::number(thing);
    if noted.get(&number).is_some() {
        return false;
    }
    note(noted, number, place)
}

// Notes the place of each, and tells whether all are noted.
fn note_all<T, N: Numbering<T>>(places: &[Option<T>], noted: &mut HashMap<u64, usize>) -> bool
    ensures { result ≡ true → AreNoted N.number places.now (get nat_eq noted.new) }
{
    for place in 0..places.len() {
        if !note_new::<T, N>(noted, &places[place], place) {
            return false;
        }
    }
    true
}

impl Notes {
    /// No notes, which tell of no places.
    pub fn new(alloc: Global) -> Notes {
        Notes {
            noted: HashMap::new(alloc),
            all: true,
        }
    }

    /// The place of the first thing of this number.
    pub fn find<T, N: Numbering<T>>(&self, places: &[Option<T>], number: u64) -> Option<usize>
        requires { Tells N.number self.now places.now }
        ensures some { IfSome result (IsFirstAt N.number number places.now) }
        ensures none { IfNone result (HasNone N.number number places.now (length places.now)) }
    {
        if !self.all || places.len() <= FEW {
            return look_for::<T, N>(places, number);
        }
        let place = self.noted.get(&number).copied()?;
        if stands_at::<T, N>(places, place, number) {
            Some(place)
        } else {
            None
        }
    }

    /// Notes the place behind these for a thing of this number.
    pub fn note_last<T, N: Numbering<T>>(&mut self, places: &[Option<T>], number: u64)
        requires { Tells N.number self.old places.now }
        ensures { (x : T) → N.number x ≡ number → Tells N.number self.new (places.now ++ Some x ∷ []) }
    {
        if self.all {
            self.all = self.find::<T, N>(places, number).is_none()
                && note(&mut self.noted, number, places.len());
        }
    }

    /// Closes the gaps, and notes the places anew.
    pub fn close_gaps<T: Drop, N: Numbering<T>>(&mut self, places: &mut Vec<Option<T>>)
        ensures items { items_at places.new.items ≡ items_at places.old.items }
        ensures len { length places.new.items ≡ length (items_at places.old.items) }
        ensures capacity { vec_capacity places.new ≡ vec_capacity places.old }
        ensures tells { Tells N.number self.new places.new.items }
    {
        places.retain(|p| p.is_some());
        self.noted.clear();
        self.all = note_all::<T, N>(places, &mut self.noted);
    }
}
