//! The event `min`: the pool is filled up to its minimum.
ghost use Rattle.std.specs.Prelude.{◌^◌, ◌≤◌, IfOk};
ghost use Rattle.sqlx_script.specs.declared.step.Step.{Step};
ghost use Rattle.sqlx_play.specs.events.PlaysEvent.{PlaysEvent};
ghost use Rattle.sqlx_play.specs.stage.EventFrame.{EventFrame};
ghost use Rattle.sqlx_play.specs.stage.StageStands.{last_of, numbers_of};
ghost use Rattle.sqlx_play.specs.stage.Scene.{scene_of};

use super::fill::fill;
use crate::stage::Stage;
use sqlx_script::Reply;
use sqlx_text::{Moment, OutOfMemory};
use std::alloc::Global;

/// The pool is filled up to its minimum, as far as connects succeed.
pub fn min(
    stage: &mut Stage,
    alloc: Global,
    moment: Moment,
    opens: u32,
) -> Result<Reply, OutOfMemory>
    requires numbers { numbers_of (scene_of stage.old) ≤ 2 ^ 62 }
    requires in_order { last_of (scene_of stage.old) ≤ moment.0 }
    requires few { opens ≤ 2 ^ 16 }
    ensures ok { IfOk result (PlaysEvent (scene_of stage.old) (scene_of stage.new) (record { moment = moment; step = Step.Min opens })) }
    ensures frame { EventFrame (scene_of stage.old) (scene_of stage.new) (record { moment = moment; step = Step.Min opens }) result }
{
    let opened = fill(stage, alloc, moment, opens)?;
    Ok(Reply::Opened(opened))
}
