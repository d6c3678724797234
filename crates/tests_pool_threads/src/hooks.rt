//! A pool whose connections are opened by their options alone, and whose hooks count what they are asked.

ghost use Rattle.std.specs.Prelude.{◌≡◌, ◌^◌};

use crate::clients::*;
use crate::rows::{Script, performs};
use crate::same::same_three;
use crate::setup::LoneBlanks;
use sqlx_any::ConnectOptions;
use sqlx_pool::*;
use sqlx_text::Error;
use std::alloc::Global;
use std::marker::Brand;
use std::process::Abort;
use std::sync::Wait;
use std::sync::ledger::Ledger;
use std::test::*;
use tests_database::{Toy, ToyConnectOptions, ToyConnection};

// Hooks that let every connection pass, but for the second one that comes back.
#[derive(Drop)]
struct Counting {
    connected: u64,
    before: u64,
    released: u64,
    declined: u64,
}

impl Hooks<Toy> for Counting {
    ghost refusals = { λ hooks. hooks.declined };

    fn after_connect(
        &mut self,
        _conn: &mut ToyConnection,
        _meta: PoolConnectionMetadata,
    ) -> Result<(), Error> {
        self.connected = self.connected.saturating_add(1);
        Ok(())
    }

    fn before_acquire(
        &mut self,
        _conn: &mut ToyConnection,
        _meta: PoolConnectionMetadata,
    ) -> Result<bool, Error> {
        self.before = self.before.saturating_add(1);
        Ok(true)
    }

    fn after_release(
        &mut self,
        _conn: &mut ToyConnection,
        _meta: PoolConnectionMetadata,
    ) -> Result<bool, Error> {
        self.released = self.released.saturating_add(1);
        if self.released == 2 {
            self.declined = self.declined.saturating_add(1);
            return Ok(false);
        }
        Ok(true)
    }
}

// The first connection is opened, and rests; it is lent once more, and the hook closes it; a second one is opened.
const ASKED: Script<'static> = Script {
    rows: &[
        Row(1, Act::Ask, 0, 1, 1),
        Row(1, Act::Poll, 0, LENT, 5),
        Row(1, Act::Return, 1, KEPT, 6),
        Row(1, Act::Ask, 2, 2, 7),
        Row(1, Act::Poll, 2, LENT, 11),
        Row(1, Act::Return, 3, CLOSED, 12),
        Row(1, Act::Ask, 4, 3, 13),
        Row(1, Act::Poll, 4, LENT, 17),
        Row(1, Act::Return, 5, KEPT, 18),
    ],
    log: "asked 1 1 90
left 1
opened 1 0
lent 1 1
ended 1
kept 1 1
asked 2 1 92
left 2
taken 1
lent 1 1
ended 2
closed 1
asked 3 1 94
left 3
opened 2 4
lent 1 2
ended 3
kept 2 5
",
    loans: 3,
};

// Plays the script, and looks at how often each hook was asked.
fn asks_hooks<H: Ledger, L: Loans, R: Wait + Abort>(
    rt: &R,
    alloc: Global,
    blanks: LoneBlanks<ToyConnection, ToyConnectOptions>,
) -> Result<(), Fail>
    requires max { L.max ≡ 1 }
    requires blanks { (blanks.held.name ≡ H.name) × (H.parts ≡ 2 ^ 32) × (blanks.loans.name ≡ L.name) × (L.parts ≡ 2 ^ 32) × (blanks.opened.seen.book ≡ L.book) }
{
    let options = PoolOptions::new()
        .max_connections(1)
        .acquire_timeout(90)
        .after_connect(true)
        .before_acquire(true)
        .after_release(true);
    let connect = ToyConnectOptions::parse(alloc, "toy:")?;
    let (pool, mut tally) = options.connect_lazy_with::<
        ToyConnection,
        ToyConnectOptions,
        Lone<ToyConnection, ToyConnectOptions, H, L>,
    >(alloc, connect, blanks)?;
    let mut connector = OptionsConnector::new();
    let mut hooks = Counting {
        connected: 0,
        before: 0,
        released: 0,
        declined: 0,
    };
    let mut out = Parts::<'_, Toy, OptionsConnector, Counting>::new(&mut connector, &mut hooks);
    let played = performs::<
        ToyConnection,
        ToyConnectOptions,
        H,
        L,
        R,
        Parts<'_, Toy, OptionsConnector, Counting>,
    >(rt, alloc, &pool, &ASKED, &mut out, &mut tally);
    drop(pool);
    drop(tally);
    same_three(
        rt,
        [hooks.connected, hooks.before, hooks.released],
        [2, 1, 3],
    );
    played
}

#[test]
fn hooks_are_asked(rt: HostRuntime) -> Result<(), Fail> {
    asks_hooks::<Brand, Brand, HostRuntime>(&rt, rt.alloc(), BlanksOf::new())
}
