//! The event `cancel`.
ghost use Rattle.std.specs.Prelude.{◌^◌, ◌≤◌, IfOk};
ghost use Rattle.sqlx_script.specs.declared.step.Step.{Step};
ghost use Rattle.sqlx_play.specs.events.PlaysEvent.{PlaysEvent};
ghost use Rattle.sqlx_play.specs.stage.EventFrame.{EventFrame};
ghost use Rattle.sqlx_play.specs.stage.StageStands.{last_of, numbers_of};
ghost use Rattle.sqlx_play.specs.stage.Scene.{scene_of};

use crate::stage::Stage;
use sqlx_script::Reply;
use sqlx_text::{Moment, OutOfMemory};

/// A client gives its ticket up.
#[tactic(auto, unfolding(sqlx_script_rules::specs::Answer::answer))]
pub fn cancel(
    stage: &mut Stage,
    moment: Moment,
    client: u32,
    ticket: u32,
) -> Result<Reply, OutOfMemory>
    requires numbers { numbers_of (scene_of stage.old) ≤ 2 ^ 62 }
    requires in_order { last_of (scene_of stage.old) ≤ moment.0 }
    ensures ok { IfOk result (PlaysEvent (scene_of stage.old) (scene_of stage.new) (record { moment = moment; step = Step.Cancel client ticket })) }
    ensures frame { EventFrame (scene_of stage.old) (scene_of stage.new) (record { moment = moment; step = Step.Cancel client ticket }) result }
{
    match stage.core.cancel(client, ticket as u64) {
        true => Ok(Reply::Cancelled),
        false => Ok(Reply::NotHeld),
    }
}
