//! Places for numbered things, in the order of their numbers. One that ends leaves a gap, which keeps its number: so where
//! no number was left out, a thing's number tells its place. Where some were, it is searched by halves.
ghost use Rattle.std.specs.Prelude.{◌≡◌, ◌<◌, ◌==◌, ℕ, Option, Some, None, IfSome, IfNone, true, false, slice_get, drop, option_map, is_some, All, find, not, nat_lt};
ghost use Rattle.sqlx_pool_places.specs.declared.rising_places.Place.TheVariants.{Here};
ghost use Rattle.sqlx_pool_places.specs.Rising.{number_at, thing_in, things_at, IsRising, AreBelow, IsNowhere, IsNowhereElse};

use crate::numbering::Numbering;
use std::collections::VecDeque;

/// A place in the order of numbers.
#[derive(Clone, Copy)]
pub enum Place<T> {
    /// A thing that hasn't ended.
    Here(T),
    /// One of this number has ended.
    Gap(u64),
}

impl<T: Copy> Place<T> {
    /// The number of the thing that is or was there.
    pub fn number<N: Numbering<T>>(&self) -> u64
        ensures { result ≡ number_at N.number self.now }
    {
        match self {
            Place::Here(thing) => N::number(thing),
            Place::Gap(number) => *number,
        }
    }

    /// The thing there.
    pub fn thing(&self) -> Option<T>
        ensures { result ≡ thing_in self.now }
    {
        match self {
            Place::Here(thing) => Some(*thing),
            Place::Gap(_) => None,
        }
    }

    // A thing is there.
    fn is_taken(&self) -> bool
        ensures { result ≡ is_some (thing_in self.now) }
    {
        matches!(self, Place::Here(_))
    }
}

// Where a number stands, if none was left out between it and the first.
fn place_from_first<T: Copy, N: Numbering<T>>(places: &VecDeque<Place<T>>, number: u64) -> usize {
    match places.front() {
        Some(first) => number.saturating_sub(first.number::<N>()) as usize,
        None => 0,
    }
}

// Where a number stands, if none was left out between it and the last.
fn place_from_last<T: Copy, N: Numbering<T>>(places: &VecDeque<Place<T>>, number: u64) -> usize {
    let last_place = places.len().saturating_sub(1);
    match places.back() {
        Some(last) => {
            last_place.saturating_sub(last.number::<N>().saturating_sub(number) as usize)
        }
        None => 0,
    }
}

// A place has this number.
fn has_number<T: Copy, N: Numbering<T>>(
    places: &VecDeque<Place<T>>,
    place: usize,
    number: u64,
) -> bool
    ensures { result ≡ true → option_map (number_at N.number) (slice_get places.now.items place) ≡ Some number }
{
    match places.get(place) {
        Some(there) => number == there.number::<N>(),
        None => false,
    }
}

// The one place at which a thing of this number may stand.
fn place_for<T: Copy, N: Numbering<T>>(places: &VecDeque<Place<T>>, number: u64) -> usize
    requires { IsRising N.number places.now.items }
    ensures { IsNowhereElse N.number number places.now.items result }
{
    let place = place_from_first::<T, N>(places, number);
    if has_number::<T, N>(places, place, number) {
        return place;
    }
    let place = place_from_last::<T, N>(places, number);
    if has_number::<T, N>(places, place, number) {
        return place;
    }
    places.partition_point(|p| p.number::<N>() < number)
}

// The thing at a place, where it has this number.
fn thing_at<T: Copy, N: Numbering<T>>(
    places: &VecDeque<Place<T>>,
    place: usize,
    number: u64,
) -> Option<&T>
    ensures some { IfSome result (λ x. (slice_get places.now.items place ≡ Some (Here x.now)) × (N.number x.now ≡ number)) }
    ensures none { IfNone result ((x : T) → slice_get places.now.items place ≡ Some (Here x) → (number == N.number x) ≡ false) }
{
    let Some(Place::Here(thing)) = places.get(place) else {
        return None;
    };
    if number == N::number(thing) {
        Some(thing)
    } else {
        None
    }
}

/// The thing of this number, and its place.
pub fn find_place<T: Copy, N: Numbering<T>>(
    places: &VecDeque<Place<T>>,
    number: u64,
) -> Option<(usize, &T)>
    requires { IsRising N.number places.now.items }
    ensures some { IfSome result (λ p. (slice_get places.now.items p.0 ≡ Some (Here p.1.now)) × (N.number p.1.now ≡ number)) }
    ensures none { IfNone result (IsNowhere N.number number places.now.items) }
{
    let place = place_for::<T, N>(places, number);
    let thing = thing_at::<T, N>(places, place, number)?;
    Some((place, thing))
}

// The first thing from a place on.
fn next_thing<T: Copy>(places: &VecDeque<Place<T>>, from: usize) -> Option<T>
    ensures { result ≡ slice_get (things_at (drop from places.now.items)) 0 }
{
    for place in from..places.len() {
        if let Some(Place::Here(thing)) = places.get(place) {
            return Some(*thing);
        }
    }
    None
}

/// The first thing whose number isn't below this one.
pub fn first_from<T: Copy, N: Numbering<T>>(places: &VecDeque<Place<T>>, number: u64) -> Option<T>
    requires { IsRising N.number places.now.items }
    ensures { result ≡ find (λ x. not (nat_lt (N.number x) number)) (things_at places.now.items) }
{
    let from = places.partition_point(|p| p.number::<N>() < number);
    next_thing(places, from)
}

/// Takes away the gaps before the first thing.
pub fn drop_first_gaps<T: Copy, N: Numbering<T>>(places: &mut VecDeque<Place<T>>)
    requires { IsRising N.number places.old.items }
    ensures rising { IsRising N.number places.new.items }
    ensures things { things_at places.new.items ≡ things_at places.old.items }
{
    while let Some(Place::Gap(_)) = places.front() {
        places.pop_front();
    }
}

/// Takes away the gaps at the end that don't have a smaller number.
pub fn drop_last_gaps<T: Copy, N: Numbering<T>>(places: &mut VecDeque<Place<T>>, number: u64)
    requires rising { IsRising N.number places.old.items }
    requires last { All (λ x. N.number x < number) (things_at places.old.items) }
    ensures rising { IsRising N.number places.new.items }
    ensures things { things_at places.new.items ≡ things_at places.old.items }
    ensures below { AreBelow N.number number places.new.items }
{
    while let Some(last) = places.back() {
        if last.number::<N>() < number {
            return;
        }
        places.pop_back();
    }
}

/// Closes the gaps, where the places are used up and at most three quarters of them hold one of so many things.
pub fn make_room<T: Copy, N: Numbering<T>>(places: &mut VecDeque<Place<T>>, things: usize)
    requires { IsRising N.number places.old.items }
    ensures rising { IsRising N.number places.new.items }
    ensures things { things_at places.new.items ≡ things_at places.old.items }
{
    let used = places.len();
    if used == places.capacity() && used / 4 <= used.saturating_sub(things) {
        places.retain(|p| p.is_taken());
    }
}
