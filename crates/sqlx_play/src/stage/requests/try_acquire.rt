//! The event `try`.
ghost use Rattle.std.specs.Prelude.{◌^◌, ◌≤◌, IfOk};
ghost use Rattle.sqlx_script.specs.declared.step.Step.{Step};
ghost use Rattle.sqlx_play.specs.events.PlaysEvent.{PlaysEvent};
ghost use Rattle.sqlx_play.specs.stage.EventFrame.{EventFrame};
ghost use Rattle.sqlx_play.specs.stage.StageStands.{last_of, numbers_of};
ghost use Rattle.sqlx_play.specs.stage.Scene.{scene_of};

use super::hand_over::hand_over;
use crate::stage::Stage;
use sqlx_script::Reply;
use sqlx_text::{Moment, OutOfMemory};

/// A client asks for an idle connection, and doesn't wait.
#[tactic(auto, unfolding(sqlx_script_rules::specs::Answer::answer))]
pub fn try_acquire(stage: &mut Stage, moment: Moment, client: u32) -> Result<Reply, OutOfMemory>
    requires numbers { numbers_of (scene_of stage.old) ≤ 2 ^ 62 }
    requires in_order { last_of (scene_of stage.old) ≤ moment.0 }
    ensures ok { IfOk result (PlaysEvent (scene_of stage.old) (scene_of stage.new) (record { moment = moment; step = Step.Try client })) }
    ensures frame { EventFrame (scene_of stage.old) (scene_of stage.new) (record { moment = moment; step = Step.Try client }) result }
{
    match stage.core.try_acquire(moment, client) {
        Some(lent) => hand_over(&mut stage.lent, lent),
        None => Ok(Reply::NothingToLend),
    }
}
