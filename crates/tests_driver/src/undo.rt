//! What a rollback undoes: begin, put, begin, put, put and a rollback undo two changes; put and a rollback undo two.
ghost use Rattle.std.specs.Prelude.{◌≡◌, ◌<◌};

use mem_driver::{Answer, Mem, MemLink, MemSession, MemStore, PUT};
use sqlx_any::{AnyArguments, AnyConnectionBackend, Arguments};
use sqlx_pool_places::Steps;
use sqlx_text::{Error, SqlStr};
use std::alloc::Global;
use std::marker::Brand;
use std::sync::ledger::{Blank, Ledger};
use std::test::Fail;

fn opened(alloc: Global) -> Result<MemSession, Error> {
    let mut store = MemStore::new(alloc);
    let link = MemLink::connect(alloc, &mut store)?;
    Ok(MemSession::new(store, link, Answer::Accept))
}

fn puts(alloc: Global, session: &mut MemSession, key: i64) -> Result<(), Error> {
    let mut arguments = <AnyArguments as Arguments<Mem>>::new(alloc);
    Arguments::<Mem>::add(&mut arguments, alloc, key)?;
    Arguments::<Mem>::add(&mut arguments, alloc, key)?;
    let text = SqlStr::from_static(PUT);
    let row = session.fetch_optional(alloc, text, true, Some(arguments))?;
    drop(row);
    Ok(())
}

// Rolls the innermost level back, and tells how many changes can be undone then.
fn left<L: Ledger>(session: &mut MemSession, steps: &mut Steps<L>) -> Result<usize, Error> {
    if session.depth() == 0 {
        return Err(Error::BeginFailed);
    }
    session.rollback_counted(steps)?;
    Ok(session.undo_len())
}

// How many changes can be undone after the writes of both levels, and after each rollback.
fn played<L: Ledger>(
    alloc: Global,
    session: &mut MemSession,
    blank: Blank,
) -> Result<[usize; 3], Error>
    requires named { blank.name ≡ L.name }
    requires whole { blank.parts ≡ L.parts }
    requires some { 0 < blank.parts }
{
    let mut steps = Steps::<L>::new(blank);
    session.begin(alloc, None)?;
    puts(alloc, session, 1)?;
    session.begin(alloc, None)?;
    puts(alloc, session, 1)?;
    puts(alloc, session, 2)?;
    let written = session.undo_len();
    let within = left(session, &mut steps)?;
    puts(alloc, session, 3)?;
    let outside = left(session, &mut steps)?;
    Ok([written, within, outside])
}

#[test]
fn what_a_rollback_undoes(rt: HostRuntime) -> Result<(), Fail> {
    let mut session = opened(rt.alloc())?;
    let lens = played::<Brand>(rt.alloc(), &mut session, Blank::new(1))?;
    assert_eq!(rt; lens, [3, 1, 0]);
    Ok(())
}
