//! The events that are statements on a connection of the client's.
ghost use Rattle.std.specs.Prelude.{◌≡◌, ◌≤◌, true, false, Some, IfOk, IfSome, IfNone};
ghost use Rattle.sqlx_pool_lists.specs.Sound.{IsNumbered};
ghost use Rattle.sqlx_script_rules.specs.ScriptLevels as levels;
ghost use Rattle.sqlx_play.specs.events.StatementRuns.{IsMet, said, acts, done_by, Runs};
ghost use Rattle.sqlx_play.specs.events.PlaysEvent.{PlaysEvent};
ghost use Rattle.sqlx_play.specs.stage.EventFrame.{EventFrame};
ghost use Rattle.sqlx_play.specs.stage.StageStands.{last_of};
ghost use Rattle.sqlx_play.specs.stage.Scene.{scene_of};

use crate::stage::Stage;
use sqlx_play_acts::{Act, Route};
use sqlx_script::{Event, Reply, StatementAnswer, Step};
use sqlx_text::OutOfMemory;
use std::alloc::Global;

/// Who does what on which connection, and what the statement meets.
#[derive(Clone, Copy)]
pub struct Statement {
    pub client: u32,
    pub connection: u32,
    pub act: Act,
    pub answer: StatementAnswer,
}

/// The statement of a step, none where it is none.
fn statement_of(step: &Step) -> Option<Statement>
    ensures some { IfSome result (λ s. levels.statement_of step.now ≡ Some (said s)) }
    ensures act { IfSome result (λ s. done_by step.now ≡ Some s.act) }
    ensures met { IfSome result (λ s. IsMet s.act s.answer) }
    ensures none { IfNone result (acts step.now ≡ false) }
{
    let (client, connection, act, answer) = match *step {
        Step::Begin {
            client,
            connection,
            answer,
        } => (client, connection, Act::Begin, answer),
        Step::Custom {
            client,
            connection,
            begins,
            answer,
        } => (client, connection, Act::Custom(begins), answer),
        Step::Put {
            client,
            connection,
            key,
            value,
            answer,
        } => (client, connection, Act::Put(i64::from(key), value), answer),
        Step::Del {
            client,
            connection,
            key,
            answer,
        } => (client, connection, Act::Delete(i64::from(key)), answer),
        Step::Get {
            client,
            connection,
            key,
            answer,
        } => (client, connection, Act::Get(i64::from(key)), answer),
        Step::Commit {
            client,
            connection,
            answer,
        } => (client, connection, Act::Commit, answer),
        Step::Rollback {
            client,
            connection,
            answer,
        } => (client, connection, Act::Rollback, answer),
        Step::GiveUp { client, connection } => {
            (client, connection, Act::GiveUp, StatementAnswer::Runs)
        }
        _ => return None,
    };
    Some(Statement {
        client,
        connection,
        act,
        answer,
    })
}

/// Does the statement, and answers `NotHeld` where the client doesn't own the connection.
fn run<R: Route>(
    stage: &mut Stage,
    alloc: Global,
    statement: Statement,
) -> Result<Reply, OutOfMemory>
    ensures ok { IfOk result (Runs (scene_of stage.old) (scene_of stage.new) statement) }
    ensures core { stage.new.core.pool ≡ stage.old.core.pool }
    ensures pool { stage.new.pool ≡ stage.old.pool }
    ensures numbered { IsNumbered stage.old.core.pool }
{
    stage.core.bounds();
    if !stage
        .core
        .owns(statement.client, u64::from(statement.connection))
    {
        return Ok(Reply::NotHeld);
    }
    match stage.lent.run::<R>(&mut stage.out.store, alloc, statement) {
        Some(ran) => ran,
        None => Ok(Reply::NotHeld),
    }
}

/// One statement.
pub fn play<R: Route>(stage: &mut Stage, alloc: Global, event: &Event) -> Result<Reply, OutOfMemory>
    requires acts { acts event.now.step ≡ true }
    requires in_order { last_of (scene_of stage.old) ≤ event.now.moment.0 }
    ensures ok { IfOk result (PlaysEvent (scene_of stage.old) (scene_of stage.new) event.now) }
    ensures frame { EventFrame (scene_of stage.old) (scene_of stage.new) event.now result }
{
    let Some(statement) = statement_of(&event.step) else {
        return Ok(Reply::NotHeld);
    };
    run::<R>(stage, alloc, statement)
}
