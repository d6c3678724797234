//! The event `poll`.
ghost use Rattle.std.specs.Prelude.{◌≡◌, ◌^◌, ◌≤◌, Some, IfOk, OnOk};
ghost use Rattle.sqlx_script.specs.declared.step.Step.{Step};
ghost use Rattle.sqlx_play.specs.events.PlaysEvent.{PlaysEvent};
ghost use Rattle.sqlx_play.specs.outside.PolledReply.{owned_after, reply_of};
ghost use Rattle.sqlx_play.specs.stage.EventFrame.{EventFrame};
ghost use Rattle.sqlx_play.specs.stage.StageStands.{last_of, numbers_of};
ghost use Rattle.sqlx_play.specs.stage.Scene.{scene_of};

use super::hand_over::hand_over;
use crate::outside::{ScriptOutside, refused_by};
use crate::stage::Stage;
use crate::stage::loans::lent::LentList;
use sqlx_play_acts::ClientLink;
use sqlx_pool_core::Polled;
use sqlx_script::{ConnectAnswer, PollAnswers, Reply};
use sqlx_text::{Moment, OutOfMemory};
use std::alloc::Global;

// The reply to what a poll came to: a connection that was lent comes to its client.
fn reply(owned: &mut LentList, polled: Polled<ClientLink>) -> Result<Reply, OutOfMemory>
    requires { (polled ≡ Polled.Exhausted) → ⊥ }
    ensures answer { IfOk result (λ reply. reply_of polled ≡ Some reply) }
    ensures owned { OnOk result (owned.new.items ≡ owned_after polled owned.old.items) }
{
    match polled {
        Polled::NotHeld => Ok(Reply::NotHeld),
        Polled::Closed => Ok(Reply::PoolClosed),
        Polled::TimedOut => Ok(Reply::PoolTimedOut),
        Polled::Exhausted => unreachable!(),
        Polled::Waiting => Ok(Reply::Waiting),
        Polled::Backoff(until) => Ok(Reply::Backoff(until)),
        Polled::Ready(lent) => hand_over(owned, lent),
        Polled::Refused(error) => {
            let letter = refused_by(&error);
            drop(error);
            match letter {
                Some(ConnectAnswer::ConnectIo) => Ok(Reply::Io),
                Some(ConnectAnswer::ConnectDatabase) => Ok(Reply::DatabaseRefused),
                _ => Err(OutOfMemory),
            }
        }
    }
}

/// A client asks how its ticket stands.
pub fn poll(
    stage: &mut Stage,
    alloc: Global,
    moment: Moment,
    client: u32,
    ticket: u32,
    answers: PollAnswers,
) -> Result<Reply, OutOfMemory>
    requires numbers { numbers_of (scene_of stage.old) ≤ 2 ^ 62 }
    requires in_order { last_of (scene_of stage.old) ≤ moment.0 }
    ensures ok { IfOk result (PlaysEvent (scene_of stage.old) (scene_of stage.new) (record { moment = moment; step = Step.Poll client ticket answers })) }
    ensures frame { EventFrame (scene_of stage.old) (scene_of stage.new) (record { moment = moment; step = Step.Poll client ticket answers }) result }
{
    stage.core.bounds();
    stage.out.begin_poll(answers);
    let polled = stage
        .core
        .poll_with::<(), ScriptOutside>(alloc, client, ticket as u64, moment, &(), &mut stage.out);
    reply(&mut stage.lent, polled)
}
