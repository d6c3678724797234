//! The event `ask`.
ghost use Rattle.std.specs.Prelude.{◌≡◌, ℕ, ◌^◌, ◌≤◌, Some, None, Ok, Err, IfOk};
ghost use Rattle.sqlx_script.specs.declared.step.Step.{Step};
ghost use Rattle.sqlx_play.specs.events.PlaysEvent.{PlaysEvent};
ghost use Rattle.sqlx_play.specs.stage.EventFrame.{EventFrame};
ghost use Rattle.sqlx_play.specs.stage.StageStands.{last_of, numbers_of};
ghost use Rattle.sqlx_play.specs.stage.Scene.{scene_of};

use crate::stage::Stage;
use sqlx_script::Reply;
use sqlx_text::{Error, Moment, OutOfMemory};
use std::alloc::Global;

// The reply to an ask, none where memory was wanting.
fn ask_reply(answer: &Result<u64, Error>) -> Option<Reply>
    ensures drawn { (number : ℕ) → answer.now ≡ Ok number → result ≡ Some (Reply.Ticket number) }
    ensures closed { answer.now ≡ Err Error.PoolClosed → result ≡ Some Reply.PoolClosed }
    ensures memory { answer.now ≡ Err Error.OutOfMemory → result ≡ None }
{
    match answer {
        Ok(number) => Some(Reply::Ticket(*number)),
        Err(Error::PoolClosed) => Some(Reply::PoolClosed),
        Err(_) => None,
    }
}

/// A client asks for a connection.
#[tactic(auto, unfolding(sqlx_script_rules::specs::Answer::answer))]
pub fn ask(
    stage: &mut Stage,
    alloc: Global,
    moment: Moment,
    client: u32,
) -> Result<Reply, OutOfMemory>
    requires numbers { numbers_of (scene_of stage.old) ≤ 2 ^ 62 }
    requires in_order { last_of (scene_of stage.old) ≤ moment.0 }
    ensures ok { IfOk result (PlaysEvent (scene_of stage.old) (scene_of stage.new) (record { moment = moment; step = Step.Ask client })) }
    ensures frame { EventFrame (scene_of stage.old) (scene_of stage.new) (record { moment = moment; step = Step.Ask client }) result }
{
    let answer = stage.core.ask(alloc, moment, client);
    let reply = ask_reply(&answer);
    drop(answer);
    match reply {
        Some(reply) => Ok(reply),
        None => Err(OutOfMemory),
    }
}
