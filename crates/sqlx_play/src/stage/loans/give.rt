//! The event `give`: a client gives its connection back.
ghost use Rattle.std.specs.Prelude.{◌≡◌, ◌^◌, ◌≤◌, IfOk};
ghost use Rattle.sqlx_script.specs.declared.step.Step.{Step};
ghost use Rattle.sqlx_play.specs.events.PlaysEvent.{PlaysEvent};
ghost use Rattle.sqlx_play.specs.events.GivesBack.{GivesBack};
ghost use Rattle.sqlx_play.specs.stage.EventFrame.{EventFrame, Frame};
ghost use Rattle.sqlx_play.specs.stage.StageStands.{last_of, numbers_of};
ghost use Rattle.sqlx_play.specs.stage.Scene.{scene_of};

use crate::outside::ScriptOutside;
use crate::stage::Stage;
use crate::stage::upkeep::fill::fill;
use sqlx_pool_core::Returned as Given;
use sqlx_script::{GiveAnswers, Reply};
use sqlx_text::{Moment, OutOfMemory};
use std::alloc::Global;

/// What became of a connection that was given back.
#[derive(Clone, Copy)]
pub enum Returned {
    Kept,
    Closed,
    NotHeld,
}

// Takes a connection back.
fn take_back(
    stage: &mut Stage,
    moment: Moment,
    client: u32,
    conn: u64,
    answers: GiveAnswers,
) -> Returned
    requires in_order { last_of (scene_of stage.old) ≤ moment.0 }
    ensures ok { GivesBack (scene_of stage.old) (scene_of stage.new) answers moment.0 client conn result }
    ensures frame { Frame (scene_of stage.old) (scene_of stage.new) moment.0 0 }
    ensures runs { stage.new.out.store.runs ≡ stage.old.out.store.runs }
{
    stage.core.bounds();
    if !stage.core.owns(client, conn) {
        return Returned::NotHeld;
    }
    let Some(lent) = stage.lent.take(conn) else {
        return Returned::NotHeld;
    };
    stage.out.begin_give(answers);
    match stage
        .core
        .give_with::<(), ScriptOutside>(client, lent, moment, &mut stage.out)
    {
        Given::Kept => Returned::Kept,
        Given::Closed => Returned::Closed,
        Given::NotHeld(_) => unreachable!(),
    }
}

/// A client gives its connection back. Where it was closed, the minimum is kept.
pub fn give(
    stage: &mut Stage,
    alloc: Global,
    moment: Moment,
    client: u32,
    connection: u32,
    answers: GiveAnswers,
    opens: u32,
) -> Result<Reply, OutOfMemory>
    requires numbers { numbers_of (scene_of stage.old) ≤ 2 ^ 62 }
    requires in_order { last_of (scene_of stage.old) ≤ moment.0 }
    requires few { opens ≤ 2 ^ 16 }
    ensures ok { IfOk result (PlaysEvent (scene_of stage.old) (scene_of stage.new) (record { moment = moment; step = Step.Give client connection answers opens })) }
    ensures frame { EventFrame (scene_of stage.old) (scene_of stage.new) (record { moment = moment; step = Step.Give client connection answers opens }) result }
{
    match take_back(stage, moment, client, u64::from(connection), answers) {
        Returned::Kept => Ok(Reply::Kept),
        Returned::NotHeld => Ok(Reply::NotHeld),
        Returned::Closed => {
            let opened = fill(stage, alloc, moment, opens)?;
            Ok(Reply::Closed(opened))
        }
    }
}
