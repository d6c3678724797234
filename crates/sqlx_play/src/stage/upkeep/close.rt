//! The event `close`: the pool serves nobody any more, and its idle connections are closed.
ghost use Rattle.std.specs.Prelude.{◌≡◌};
ghost use Rattle.sqlx_script.specs.declared.step.Step.{Step};
ghost use Rattle.sqlx_play.specs.events.Closes.{closed_all};
ghost use Rattle.sqlx_play.specs.events.PlaysEvent.{PlaysEvent};
ghost use Rattle.sqlx_play.specs.stage.EventFrame.{Frame};
ghost use Rattle.sqlx_play.specs.stage.StageStands.{last_of};
ghost use Rattle.sqlx_play.specs.stage.Scene.{scene_of};

use crate::stage::Stage;
use sqlx_play_acts::{ClientLink, MemStore};
use sqlx_pool_core::Idle;
use sqlx_script::Reply;
use sqlx_text::Moment;
use std::collections::VecDeque;

// Closes these connections.
fn close_all(store: &mut MemStore, idle: &mut VecDeque<Idle<ClientLink>>)
    ensures store { store.new ≡ closed_all idle.old.items store.old }
    ensures runs { store.new.runs ≡ store.old.runs }
{
    while let Some(first) = idle.pop_front() {
        first.lent.raw.close(store);
    }
}

/// The pool serves nobody from now on, and its idle connections are closed. A second close changes nothing.
#[tactic(auto, unfolding(sqlx_script_rules::specs::Answer::answer))]
pub fn close(stage: &mut Stage, moment: Moment) -> Reply
    ensures ok { PlaysEvent (scene_of stage.old) (scene_of stage.new) (record { moment = moment; step = Step.Close }) result }
    ensures frame { Frame (scene_of stage.old) (scene_of stage.new) (last_of (scene_of stage.old)) 0 }
    ensures runs { stage.new.out.store.runs ≡ stage.old.out.store.runs }
{
    stage.core.bounds();
    let mut idle = stage.core.close();
    let count = idle.len() as u64;
    close_all(&mut stage.out.store, &mut idle);
    Reply::Closing(count)
}
