//! A job queue as what answers the events of a script: a pool whose connection each event takes, and the database with its rows.
ghost use Rattle.std.specs.Prelude.{◌≡◌, ◌+◌, ◌<◌, ◌≤◌, ◌^◌, [], true, IfOk};
ghost use Rattle.sqlx_player.specs.Language.{Pairs};
ghost use Rattle.sqlx_jobs_rules.specs.declared.event.Event.{Event as AnEvent};
ghost use Rattle.sqlx_jobs_rules.specs.declared.reply.Reply.{Reply as AReply};
ghost use Rattle.sqlx_jobs.specs.Plan.{works};
ghost use Rattle.sqlx_jobs.specs.Stands.{Holds, HoldsMore, Stands};

use crate::event::{count, run_event, totals};
use sqlx_jobs_rules::{Act, Event, QueueLine, Reply, fill_closing, read_event, read_opening};
use sqlx_lines::{FirstLine, OutputLine};
use sqlx_play_acts::{ClientLink, MemStore, Route};
use sqlx_player::Responder;
use sqlx_pool_core::{Lent, PoolCore};
use sqlx_single::{lend, new_pool_of, opened, take_back};
use sqlx_text::OutOfMemory;
use std::alloc::Global;
use std::marker::PhantomData;

/// A job queue. Its statements take the way R to the database.
pub struct JobQueue<R: Route> {
    pub core: PoolCore<ClientLink>,
    pub store: MemStore,
    lease: u64,
    // The moment of the last event.
    last: u64,
    by: PhantomData<R>,
}

impl<R: Route> Drop for JobQueue<R> {
    fn drop(self) {
        let JobQueue {
            core,
            store,
            lease: _,
            last: _,
            by: _,
        } = self;
        drop(core);
        drop(store);
    }
}

impl<R: Route> JobQueue<R> {
    // A queue without jobs.
    fn new(alloc: Global, line: QueueLine) -> Result<JobQueue<R>, OutOfMemory>
        requires small { line.lease < 2 ^ 40 }
        requires some { 1 ≤ line.max }
        ensures { IfOk result (λ queue. Stands queue.core.pool queue.store queue.lease queue.last line []) }
    {
        let mut store = MemStore::new(alloc);
        let mut core = new_pool_of(alloc, line.max)?;
        let link = ClientLink::connect(alloc, &mut store)?;
        opened(&mut core, link);
        Ok(JobQueue {
            core,
            store,
            lease: line.lease,
            last: 0,
            by: PhantomData,
        })
    }

    /// The pool's core and the store.
    pub fn into_parts(self) -> (PoolCore<ClientLink>, MemStore)
        ensures { (result.0 ≡ self.core) × (result.1 ≡ self.store) }
    {
        let JobQueue {
            core,
            store,
            lease: _,
            last: _,
            by: _,
        } = self;
        (core, store)
    }

    // Answers an event other than a count, on the pool's connection.
    fn work(&mut self, alloc: Global, event: &Event) -> Result<Reply, OutOfMemory>
        requires short { event.now.moment + self.old.lease < 2 ^ 63 }
        requires works { works event.now.act ≡ true }
        requires holds { (pairs : Pairs AnEvent AReply) × Holds self.old.core.pool self.old.store pairs }
        ensures answers { IfOk result (HoldsMore self.old.lease event.now self.old.core.pool self.old.store self.new.core.pool self.new.store) }
        ensures lease { self.new.lease ≡ self.old.lease }
    {
        let Lent {
            id,
            created,
            raw: mut link,
        } = lend(&mut self.core);
        let reply = run_event::<R>(alloc, &mut self.store, &mut link, self.lease, event);
        take_back(
            &mut self.core,
            Lent {
                id,
                created,
                raw: link,
            },
        );
        reply
    }

    // Answers an event. A count takes no connection.
    fn reply_to(&mut self, alloc: Global, event: &Event) -> Result<Reply, OutOfMemory>
        requires short { event.now.moment + self.old.lease < 2 ^ 63 }
        requires holds { (pairs : Pairs AnEvent AReply) × Holds self.old.core.pool self.old.store pairs }
        ensures answers { IfOk result (HoldsMore self.old.lease event.now self.old.core.pool self.old.store self.new.core.pool self.new.store) }
        ensures lease { self.new.lease ≡ self.old.lease }
    {
        match event.act {
            Act::Count => Ok(count(&self.store, event.moment)),
            _ => self.work(alloc, event),
        }
    }
}

impl<R: Route> Responder for JobQueue<R> {
    ghost use Rattle.sqlx_jobs_rules.specs.Jobs.{jobs_language};
    ghost use Rattle.sqlx_jobs.specs.Stands.{Stands};

    type First = QueueLine;

    type Event = Event;

    type Reply = Reply;

    ghost language = { jobs_language };

    ghost stands = { λ queue. Stands queue.core.pool queue.store queue.lease queue.last };

    fn open(alloc: Global, text: &[u8]) -> Result<Option<FirstLine<'_, JobQueue<R>>>, OutOfMemory> {
        let Some(line) = read_opening(text) else {
            return Ok(None);
        };
        let says = JobQueue::new(alloc, line.says)?;
        Ok(Some(FirstLine {
            says,
            behind: line.behind,
        }))
    }

    fn read<'a>(&self, text: &'a [u8]) -> Option<FirstLine<'a, Event>> {
        read_event(text, self.last)
    }

    fn answer(
        &mut self,
        alloc: Global,
        event: &Event,
        line: &mut OutputLine,
    ) -> Result<(), OutOfMemory> {
        let reply = self.reply_to(alloc, event)?;
        self.last = event.moment;
        reply.fill_line(line);
        Ok(())
    }

    fn close(&mut self, _alloc: Global, line: &mut OutputLine) -> Result<(), OutOfMemory> {
        let (added, done) = totals(&self.store);
        fill_closing(line, added, done);
        Ok(())
    }
}
