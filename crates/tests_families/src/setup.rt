//! New families for tests.

ghost use Rattle.std.specs.Prelude.{◌≡◌, ◌^◌, IfOk};
ghost use Rattle.sqlx_pool_parts.specs.Opened.{IsOpenable};

use crate::outside::Conn;
use sqlx_family_pool::{Family, FamilyStood};
use sqlx_pool::{BlanksOf, Loans, PoolConnect, PoolConnectionOf, PoolOf, Tally};
use sqlx_pool_core::PoolOptions;
use sqlx_text::OutOfMemory;
use std::alloc::Global;
use std::sync::Arc;
use std::sync::ledger::Ledger;

/// A pool of a family of these connections.
pub type Conns<H, L> = PoolOf<Conn, (), Family<Conn, (), H, L>>;

/// A connection that such a pool has lent.
pub type Lent<H, L> = PoolConnectionOf<Conn, (), Family<Conn, (), H, L>>;

/// What the root of such a family is made with.
pub type ConnBlanks = BlanksOf<FamilyStood<Conn, Arc<(), Global>>>;

/// A new root, and the tally of its family's loans.
pub fn root_of<H: Ledger, L: Loans>(
    alloc: Global,
    options: PoolOptions,
    blanks: ConnBlanks,
) -> Result<(Conns<H, L>, Tally<L>), OutOfMemory>
    requires options { IsOpenable options L.max }
    requires blanks { (blanks.held.name ≡ H.name) × (H.parts ≡ 2 ^ 32) × (blanks.loans.name ≡ L.name) × (L.parts ≡ 2 ^ 32) × (blanks.opened.seen.book ≡ L.book) }
    ensures root { IfOk result (λ made. made.0.shared.value.name ≡ 0) }
    ensures tally { IfOk result (λ made. made.1 ≡ record { parts = L.parts; loans = 0 }) }
{
    options.connect_lazy_with::<Conn, (), Family<Conn, (), H, L>>(alloc, (), blanks)
}
