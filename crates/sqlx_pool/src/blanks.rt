//! What a pool is made with: its ledgers and its history, before they have their names.

ghost use Rattle.std.specs.Prelude.{◌≡◌, ◌^◌};

use sqlx_pool_history::{Chained, Opened};
use std::sync::ledger::Blank;

/// The ledgers of the connections that are held and of the loans, of 2^32 parts each, and the history of the states `T` of
/// a pool or a family: each is new, and none has its name yet. The types of the pool that is made with them name them.
pub struct BlanksOf<T: Chained> {
    pub(crate) held: Blank,
    pub(crate) loans: Blank,
    pub(crate) opened: Opened<T>,
    pub ghost held_parts: { held.parts ≡ 2 ^ 32 },
    pub ghost loan_parts: { loans.parts ≡ 2 ^ 32 },
}

impl<T: Chained> Drop for BlanksOf<T> {
    fn drop(self) {
        let BlanksOf {
            held,
            loans,
            opened,
        } = self;
        drop(held);
        drop(loans);
        drop(opened);
    }
}

impl<T: Chained> BlanksOf<T> {
    /// New ones.
    pub fn new() -> Self {
        BlanksOf {
            held: Blank::new(1 << 32),
            loans: Blank::new(1 << 32),
            opened: Opened::new(),
        }
    }

    // The ledgers of the connections that are held and of the loans, and the history.
    pub(crate) fn into_parts(self) -> (Blank, Blank, Opened<T>)
        ensures held { (result.0 ≡ self.held) × (result.0.parts ≡ 2 ^ 32) }
        ensures loans { (result.1 ≡ self.loans) × (result.1.parts ≡ 2 ^ 32) }
        ensures opened { result.2 ≡ self.opened }
    {
        let BlanksOf {
            held,
            loans,
            opened,
        } = self;
        (held, loans, opened)
    }
}
