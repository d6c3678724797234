//! The event `reap`: idle connections beyond a limit leave, and the pool is filled up to its minimum.
ghost use Rattle.std.specs.Prelude.{◌≡◌, ◌^◌, ◌≤◌, IfOk};
ghost use Rattle.sqlx_script.specs.declared.step.Step.{Step};
ghost use Rattle.sqlx_play.specs.events.PlaysEvent.{PlaysEvent};
ghost use Rattle.sqlx_play.specs.events.Reaps.{ReapsOne, ReapsAll};
ghost use Rattle.sqlx_play.specs.stage.EventFrame.{EventFrame, Frame};
ghost use Rattle.sqlx_play.specs.stage.StageStands.{last_of, numbers_of};
ghost use Rattle.sqlx_play.specs.stage.Scene.{scene_of};

use super::fill::fill;
use crate::stage::Stage;
use sqlx_script::Reply;
use sqlx_text::{Moment, OutOfMemory};
use std::alloc::Global;

// Closes the first idle connection that is beyond a limit.
fn reap_one(stage: &mut Stage, moment: Moment) -> bool
    requires in_order { last_of (scene_of stage.old) ≤ moment.0 }
    ensures reaps { ReapsOne (scene_of stage.old) (scene_of stage.new) moment.0 result }
    ensures frame { Frame (scene_of stage.old) (scene_of stage.new) moment.0 0 }
    ensures runs { stage.new.out.store.runs ≡ stage.old.out.store.runs }
{
    stage.core.bounds();
    match stage.core.reap(moment) {
        Some(idle) => {
            idle.lent.raw.close(&mut stage.out.store);
            true
        }
        None => false,
    }
}

// Closes all of them, and tells how many there were.
fn reap_all(stage: &mut Stage, moment: Moment) -> u64
    requires in_order { last_of (scene_of stage.old) ≤ moment.0 }
    ensures reaps { ReapsAll (scene_of stage.old) (scene_of stage.new) moment.0 result }
    ensures frame { Frame (scene_of stage.old) (scene_of stage.new) moment.0 0 }
    ensures runs { stage.new.out.store.runs ≡ stage.old.out.store.runs }
{
    let before = stage.core.num_idle();
    while reap_one(stage, moment) {}
    (before - stage.core.num_idle()) as u64
}

/// Idle connections beyond a limit leave, and the pool is filled up to its minimum.
pub fn reap(
    stage: &mut Stage,
    alloc: Global,
    moment: Moment,
    opens: u32,
) -> Result<Reply, OutOfMemory>
    requires numbers { numbers_of (scene_of stage.old) ≤ 2 ^ 62 }
    requires in_order { last_of (scene_of stage.old) ≤ moment.0 }
    requires few { opens ≤ 2 ^ 16 }
    ensures ok { IfOk result (PlaysEvent (scene_of stage.old) (scene_of stage.new) (record { moment = moment; step = Step.Reap opens })) }
    ensures frame { EventFrame (scene_of stage.old) (scene_of stage.new) (record { moment = moment; step = Step.Reap opens }) result }
{
    let reaped = reap_all(stage, moment);
    let opened = fill(stage, alloc, moment, opens)?;
    Ok(Reply::Reaped { reaped, opened })
}
