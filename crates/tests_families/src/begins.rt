//! Transactions on the connections that a child of a root lends.

ghost use Rattle.std.specs.Prelude.{◌≡◌, ◌^◌, ◌<◌, ◌≤◌};

use sqlx_family_pool::{FamilyBlanks, FamilyConnection, FamilyOf, FamilyPool};
use sqlx_pool::{
    BeginRefusedOf, BlanksOf, FixedClock, Loans, NoHooks, OptionsConnector, Parts, PoolBegin,
    PoolConnect, Returned, Tally,
};
use sqlx_pool_core::PoolOptions;
use sqlx_text::{Moment, SqlStr};
use sqlx_traits::ConnectOptions;
use sqlx_tx::Transaction;
use std::alloc::Global;
use std::marker::Brand;
use std::process::Abort;
use std::sync::Wait;
use std::sync::ledger::Ledger;
use std::test::*;
use tests_database::{Toy, ToyConnectOptions, ToyConnection};

type Lent<H, L> = FamilyConnection<Toy, H, L>;

type Begun<H, L> = Result<Transaction<Toy, Lent<H, L>>, BeginRefusedOf<Lent<H, L>>>;

type Tried<H, L> = Result<Option<Transaction<Toy, Lent<H, L>>>, BeginRefusedOf<Lent<H, L>>>;

type Out<'o> = Parts<'o, Toy, OptionsConnector, NoHooks>;

// The moment of each call.
const NOW: Moment = Moment(0);

// A text that begins.
const TEXT: &str = "BEGIN IMMEDIATE";

// Returns a connection: whether it is kept.
fn give<H: Ledger, L: Loans, R: Wait>(
    rt: &R,
    alloc: Global,
    conn: Lent<H, L>,
    out: &mut Out<'_>,
) -> bool {
    matches!(
        conn.return_to_pool::<R, Out<'_>>(rt, alloc, NOW, out),
        Returned::Kept
    )
}

// Ends a level that was begun, and returns its connection: whether both went well.
fn ended<H: Ledger, L: Loans, R: Wait>(
    rt: &R,
    alloc: Global,
    begun: Begun<H, L>,
    out: &mut Out<'_>,
) -> bool {
    match begun {
        Ok(level) => {
            let (conn, answer) = level.end(alloc, true);
            let kept = give(rt, alloc, conn, out);
            kept && answer.is_ok()
        }
        Err(refused) => {
            let BeginRefusedOf { error, connection } = refused;
            drop(error);
            if let Some(conn) = connection {
                give(rt, alloc, conn, out);
            }
            false
        }
    }
}

// The same of a level that was tried to be begun, where one was.
fn ended_if<H: Ledger, L: Loans, R: Wait>(
    rt: &R,
    alloc: Global,
    tried: Tried<H, L>,
    out: &mut Out<'_>,
) -> Option<bool> {
    match tried {
        Ok(Some(level)) => Some(ended(rt, alloc, Ok(level), out)),
        Ok(None) => None,
        Err(refused) => Some(ended(rt, alloc, Err(refused), out)),
    }
}

// Begins on a connection that is waited for, by the text where one is given: whether that and the end went well.
fn waits<H: Ledger, L: Loans, R: Wait>(
    rt: &R,
    alloc: Global,
    pool: &FamilyPool<Toy, H, L>,
    text: Option<&'static str>,
    out: &mut Out<'_>,
    tally: &mut Tally<L>,
) -> bool {
    let mut clock = FixedClock(NOW);
    let begun = match text {
        Some(text) => PoolBegin::<Toy, FamilyOf<Toy, H, L>>::begin_with::<R, FixedClock, Out<'_>>(
            pool,
            rt,
            alloc,
            &mut clock,
            1,
            out,
            tally,
            SqlStr::from_static(text),
        ),
        None => PoolBegin::<Toy, FamilyOf<Toy, H, L>>::begin::<R, FixedClock, Out<'_>>(
            pool, rt, alloc, &mut clock, 1, out, tally,
        ),
    };
    ended(rt, alloc, begun, out)
}

// Begins on the first idle connection, by the text where one is given: None where none is idle.
fn tries<H: Ledger, L: Loans, R: Wait>(
    rt: &R,
    alloc: Global,
    pool: &FamilyPool<Toy, H, L>,
    text: Option<&'static str>,
    out: &mut Out<'_>,
    tally: &mut Tally<L>,
) -> Option<bool> {
    let tried = match text {
        Some(text) => PoolBegin::<Toy, FamilyOf<Toy, H, L>>::try_begin_with::<R>(
            pool,
            rt,
            alloc,
            NOW,
            1,
            tally,
            SqlStr::from_static(text),
        ),
        None => PoolBegin::<Toy, FamilyOf<Toy, H, L>>::try_begin::<R>(
            pool, rt, alloc, NOW, 1, tally,
        ),
    };
    ended_if(rt, alloc, tried, out)
}

// A child of one lends no idle connection at first; once one was opened, each begin is on that. The root has none idle.
fn on_both<H: Ledger, L: Loans, R: Wait + Abort>(
    rt: &R,
    alloc: Global,
    root: &FamilyPool<Toy, H, L>,
    child: &FamilyPool<Toy, H, L>,
    tally: &mut Tally<L>,
) {
    let mut connector = OptionsConnector::new();
    let mut hooks = NoHooks;
    let mut out = Parts::<'_, Toy, OptionsConnector, NoHooks>::new(&mut connector, &mut hooks);
    let first = tries(rt, alloc, child, None, &mut out, tally);
    let waited = [
        waits(rt, alloc, child, None, &mut out, tally),
        waits(rt, alloc, child, Some(TEXT), &mut out, tally),
    ];
    let tried = [
        tries(rt, alloc, child, None, &mut out, tally),
        tries(rt, alloc, child, Some(TEXT), &mut out, tally),
        tries(rt, alloc, root, None, &mut out, tally),
    ];
    assert_eq!(rt; (first, waited), (None, [true, true]));
    assert_eq!(rt; tried, [Some(true), Some(true), None]);
    assert_eq!(rt; [root.size(rt), child.size(rt)], [0, 1]);
    assert_eq!(rt; [root.owned(rt), child.owned(rt)], [1, 1]);
}

// A new root of two, and its child of one.
fn begins<H: Ledger, L: Loans, R: Wait + Abort>(
    rt: &R,
    alloc: Global,
    blanks: FamilyBlanks<Toy>,
) -> Result<(), Fail>
    requires max { L.max ≡ 2 }
    requires blanks { (blanks.held.name ≡ H.name) × (H.parts ≡ 2 ^ 32) × (blanks.loans.name ≡ L.name) × (L.parts ≡ 2 ^ 32) × (blanks.opened.seen.book ≡ L.book) }
{
    let options = PoolOptions::new().max_connections(2);
    let connect = ToyConnectOptions::parse(alloc, "toy:")?;
    let (root, mut tally) = options.connect_lazy_with::<
        ToyConnection,
        ToyConnectOptions,
        FamilyOf<Toy, H, L>,
    >(alloc, connect, blanks)?;
    let child = root.child(rt, alloc, options.max_connections(1))?;
    on_both(rt, alloc, &root, &child, &mut tally);
    assert_eq!(rt; tally.loans(), 4);
    Ok(())
}

#[test]
fn levels_on_a_child_of_a_root(rt: HostRuntime) -> Result<(), Fail> {
    begins::<Brand, Brand, HostRuntime>(&rt, rt.alloc(), BlanksOf::new())
}
