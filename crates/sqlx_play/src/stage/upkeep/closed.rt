//! The event `closed`: how far the pool's close has come.
ghost use Rattle.sqlx_script.specs.declared.step.Step.{Step};
ghost use Rattle.sqlx_play.specs.events.PlaysEvent.{PlaysEvent};
ghost use Rattle.sqlx_play.specs.stage.Scene.{scene_of};

use crate::stage::Stage;
use sqlx_pool_core::CloseState;
use sqlx_script::Reply;
use sqlx_text::Moment;

/// How far the close has come. Nothing changes.
#[tactic(auto, unfolding(sqlx_script_rules::specs::Answer::answer))]
pub fn closed(stage: &Stage, moment: Moment) -> Reply
    ensures { PlaysEvent (scene_of stage.now) (scene_of stage.now) (record { moment = moment; step = Step.CloseState }) result }
{
    match stage.core.closing() {
        CloseState::NotShut => Reply::StateOpen,
        CloseState::Closing => Reply::StateClosing,
        CloseState::Closed => Reply::StateClosed,
    }
}
