//! Where those sleep that wait for their turn: at few places, each ticket at that of its number.

use sqlx_text::Moment;
use std::hint::spin_loop;
use std::sync::Wait;
use std::sync::atomic::{AtomicU64, Ordering};
use std::time::Duration;

// How many places there are.
const PLACES: usize = 16;

// How often one who waits looks for a call before it sleeps.
const LOOKS: u32 = 100;

// How long it is from one moment to another, in nanoseconds; 0 where that is past.
fn left(now: Moment, until: u128) -> u64 {
    match u64::try_from(until.saturating_sub(u128::from(now.0))) {
        Ok(left) => left,
        Err(_) => u64::MAX,
    }
}

/// A place at which tickets wait to be called.
#[derive(Drop)]
pub struct Place {
    // How often somebody was called here, wrapping.
    calls: AtomicU64,
    // How many sleep here, or are about to. One is counted before it sleeps, and a caller looks behind its call: so
    // either the caller sees the one, or that one sees the call.
    asleep: AtomicU64,
}

impl Place {
    fn new() -> Self {
        Place {
            calls: AtomicU64::new(0),
            asleep: AtomicU64::new(0),
        }
    }

    /// How often somebody was called here.
    pub fn calls(&self) -> u64 {
        self.calls.load(Ordering::SeqCst)
    }

    // Whether there was a call since so many, while it was looked for.
    fn is_called(&self, calls: u64) -> bool {
        for _look in 0..LOOKS {
            if self.calls() != calls {
                return true;
            }
            spin_loop();
        }
        false
    }

    /// Sleeps until there is a call, unless there was one since so many, and for no longer than it is from now to a
    /// moment; before that it looks for a call for a while, where that is wanted. It may also return without.
    pub fn sleep<R: Wait>(&self, rt: &R, calls: u64, looks: bool, now: Moment, until: u128) {
        if looks && self.is_called(calls) {
            return;
        }
        let at_most = Duration::from_nanos(left(now, until));
        self.asleep.fetch_add(1, Ordering::SeqCst);
        self.calls
            .park_timeout(rt, (calls & 0xffff_ffff) as u32, at_most);
        self.asleep.fetch_sub(1, Ordering::SeqCst);
    }

    // Calls all that wait here.
    fn call(&self) {
        self.calls.fetch_add(1, Ordering::SeqCst);
        if self.asleep.load(Ordering::SeqCst) != 0 {
            self.calls.wake_all();
        }
    }
}

/// The places of a pool.
pub struct Sleepers {
    places: [Place; PLACES],
}

impl Drop for Sleepers {
    fn drop(self) {
        let Sleepers { places } = self;
        drop(places);
    }
}

impl Sleepers {
    /// Places at which nobody sleeps.
    pub fn new() -> Self {
        Sleepers {
            places: [
                Place::new(),
                Place::new(),
                Place::new(),
                Place::new(),
                Place::new(),
                Place::new(),
                Place::new(),
                Place::new(),
                Place::new(),
                Place::new(),
                Place::new(),
                Place::new(),
                Place::new(),
                Place::new(),
                Place::new(),
                Place::new(),
            ],
        }
    }

    /// Where this ticket waits.
    pub fn place(&self, ticket: u64) -> &Place {
        &self.places[ticket as usize % PLACES]
    }

    /// Calls this ticket, and those that wait at its place.
    pub fn call(&self, ticket: u64) {
        self.place(ticket).call();
    }

    /// Calls all tickets.
    pub fn call_all(&self) {
        for at in 0..PLACES {
            self.places[at].call();
        }
    }
}
