//! The pool and the database on which a script is played. The events stand in the modules below.
ghost use Rattle.std.specs.Prelude.{◌≡◌, ◌^◌, ◌≤◌, true, IfOk};
ghost use Rattle.sqlx_script.specs.Built.{has_few_opens};
ghost use Rattle.sqlx_script_rules.specs.Answer.{report_of};
ghost use Rattle.sqlx_play.specs.events.PlaysEvent.{PlaysEvent};
ghost use Rattle.sqlx_play.specs.stage.EventFrame.{EventFrame};
ghost use Rattle.sqlx_play.specs.stage.StageStands.{IsFresh, IsSetUp, StageStands, last_of, numbers_of};
ghost use Rattle.sqlx_script_rules.specs.Pairs.{Pairs};
ghost use Rattle.sqlx_play.specs.stage.Scene.{scene_of};

mod loans;
mod requests;
mod upkeep;

use crate::outside::ScriptOutside;
use crate::stage::loans::lent::LentList;
use sqlx_play_acts::{ClientLink, MemStore, Route};
use sqlx_pool_core::{PoolCore, PoolOptions};
use sqlx_script::{Event, PoolLine, Reply, Report, Step};
use sqlx_text::OutOfMemory;
use std::alloc::Global;

/// A pool over a database in memory, as a script's first line sets it up and its events left it.
#[derive(Drop)]
pub struct Stage {
    pub pool: PoolLine,
    pub core: PoolCore<ClientLink>,
    // The database in memory, and the answers of the present line.
    pub out: ScriptOutside,
    // The connections that clients own, in the order of lending.
    pub lent: LentList,
}

// The options that a first line sets up.
fn options_of(pool: &PoolLine) -> PoolOptions
    ensures { IsSetUp pool.now result }
{
    PoolOptions::new()
        .max_connections(pool.max)
        .min_connections(pool.min)
        .acquire_timeout(pool.timeout)
        .max_lifetime(pool.lifetime)
        .idle_timeout(pool.idle)
        .test_before_acquire(pool.test_before_acquire)
        .after_connect(pool.after_connect)
        .before_acquire(pool.before_acquire)
        .after_release(pool.after_release)
        .idle_tries(pool.tries)
}

/// The stage before the first event.
pub fn new_stage(alloc: Global, pool: PoolLine) -> Result<Stage, OutOfMemory>
    requires some { 1 ≤ pool.max }
    requires tries { (1 ≤ pool.tries) × (pool.tries ≤ 16) }
    ensures fresh { IfOk result (λ stage. IsFresh (scene_of stage)) }
    ensures pool { IfOk result (λ stage. stage.pool ≡ pool) }
{
    match PoolCore::new(alloc, options_of(&pool)) {
        Ok(core) => Ok(Stage {
            pool,
            core,
            out: ScriptOutside::new(MemStore::new(alloc)),
            lent: LentList::new(alloc),
        }),
        Err(_) => Err(OutOfMemory),
    }
}

/// One event on the stage.
pub fn answer<R: Route>(
    stage: &mut Stage,
    alloc: Global,
    event: &Event,
) -> Result<Reply, OutOfMemory>
    requires few { has_few_opens event.now.step ≡ true }
    requires numbers { numbers_of (scene_of stage.old) ≤ 2 ^ 62 }
    requires in_order { last_of (scene_of stage.old) ≤ event.now.moment.0 }
    ensures ok { IfOk result (PlaysEvent (scene_of stage.old) (scene_of stage.new) event.now) }
    ensures frame { EventFrame (scene_of stage.old) (scene_of stage.new) event.now result }
{
    match event.step {
        Step::Ask { client } => requests::ask::ask(stage, alloc, event.moment, client),
        Step::Poll {
            client,
            ticket,
            answers,
        } => requests::poll::poll(stage, alloc, event.moment, client, ticket, answers),
        Step::Cancel { client, ticket } => requests::cancel::cancel(
            stage,
            event.moment,
            client,
            ticket,
        ),
        Step::Try { client } => requests::try_acquire::try_acquire(stage, event.moment, client),
        Step::Give {
            client,
            connection,
            answers,
            opens,
        } => loans::give::give(
            stage,
            alloc,
            event.moment,
            client,
            connection,
            answers,
            opens,
        ),
        Step::End {
            client,
            connection,
            opens,
        } => loans::leave::end(stage, alloc, event.moment, client, connection, opens),
        Step::Detach {
            client,
            connection,
            opens,
        } => loans::leave::detach(stage, alloc, event.moment, client, connection, opens),
        Step::Leak {
            client,
            connection,
            opens,
        } => loans::leave::leak(stage, alloc, event.moment, client, connection, opens),
        Step::CloseState => Ok(upkeep::closed::closed(stage, event.moment)),
        Step::Close => Ok(upkeep::close::close(stage, event.moment)),
        Step::Min { opens } => upkeep::min::min(stage, alloc, event.moment, opens),
        Step::Reap { opens } => upkeep::reap::reap(stage, alloc, event.moment, opens),
        Step::Begin { .. }
        | Step::Custom { .. }
        | Step::Put { .. }
        | Step::Del { .. }
        | Step::Get { .. }
        | Step::Commit { .. }
        | Step::Rollback { .. }
        | Step::GiveUp { .. } => loans::statements::play::<R>(stage, alloc, event),
    }
}

/// What the stage holds.
#[tactic(auto, unfolding(sqlx_script_rules::specs::Answer::report_of))]
pub fn report(stage: &Stage) -> Report
    ensures { (pairs : Pairs) → StageStands (scene_of stage.now) pairs → result ≡ report_of stage.now.pool pairs }
{
    Report {
        held: stage.core.num_held() as u64,
        idle: stage.core.num_idle() as u64,
        leaked: u64::from(stage.core.num_leaked()),
        waiting: stage.core.num_tickets() as u64,
    }
}
