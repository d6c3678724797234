//! The stage as what answers the events of a script.
ghost use Rattle.std.specs.Prelude.{◌≡◌};

use crate::{Stage, answer, new_stage, report};
use sqlx_lines::{FirstLine, OutputLine};
use sqlx_play_acts::{ClientLink, MemStore, Route};
use sqlx_player::Responder;
use sqlx_pool_core::PoolCore;
use sqlx_script::{Event, PoolLine, Reply, read_event, read_pool_line};
use sqlx_text::OutOfMemory;
use std::alloc::Global;
use std::marker::PhantomData;

/// What a script left: the pool's core and the database that it was played on.
#[derive(Drop)]
pub struct Played {
    pub core: PoolCore<ClientLink>,
    pub store: MemStore,
}

/// The stage of a script. The acts of clients take the way R to the database.
pub struct PoolStage<R: Route> {
    pub stage: Stage,
    // The moment of the last event.
    last: u64,
    by: PhantomData<R>,
}

impl<R: Route> Drop for PoolStage<R> {
    fn drop(self) {
        let PoolStage {
            stage,
            last: _,
            by: _,
        } = self;
        drop(stage);
    }
}

impl<R: Route> PoolStage<R> {
    // What the stage leaves.
    pub(crate) fn into_played(self) -> Played
        ensures core { result.core ≡ self.stage.core }
        ensures store { result.store ≡ self.stage.out.store }
    {
        let PoolStage {
            stage,
            last: _,
            by: _,
        } = self;
        let Stage { core, out, .. } = stage;
        Played {
            core,
            store: out.into_store(),
        }
    }
}

impl<R: Route> Responder for PoolStage<R> {
    ghost use Rattle.sqlx_script_rules.specs.Output.{pool_language};
    ghost use Rattle.sqlx_play.specs.StandsAt.{StandsAt};
    ghost use Rattle.sqlx_play.specs.stage.Scene.{scene_of};

    type First = PoolLine;

    type Event = Event;

    type Reply = Reply;

    ghost language = { pool_language };

    ghost stands = { λ s. StandsAt (scene_of s.stage) s.last };

    fn open(
        alloc: Global,
        text: &[u8],
    ) -> Result<Option<FirstLine<'_, PoolStage<R>>>, OutOfMemory> {
        let Some(line) = read_pool_line(text) else {
            return Ok(None);
        };
        let stage = new_stage(alloc, line.says)?;
        let says = PoolStage {
            stage,
            last: 0,
            by: PhantomData,
        };
        Ok(Some(FirstLine {
            says,
            behind: line.behind,
        }))
    }

    fn read<'a>(&self, text: &'a [u8]) -> Option<FirstLine<'a, Event>> {
        let line = read_event(text, self.stage.pool.counts_tests)?;
        if line.says.moment.0 < self.last {
            None
        } else {
            Some(line)
        }
    }

    fn answer(
        &mut self,
        alloc: Global,
        event: &Event,
        line: &mut OutputLine,
    ) -> Result<(), OutOfMemory> {
        let reply = answer::<R>(&mut self.stage, alloc, event)?;
        self.last = event.moment.0;
        reply.fill_line(line);
        Ok(())
    }

    fn close(&mut self, _alloc: Global, line: &mut OutputLine) -> Result<(), OutOfMemory> {
        report(&self.stage).fill_line(line);
        Ok(())
    }
}
