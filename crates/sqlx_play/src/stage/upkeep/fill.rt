//! Keeping the minimum: connections that are opened before any client asks.
ghost use Rattle.std.specs.Prelude.{◌≡◌, ◌+◌, ◌^◌, ◌≤◌, IfOk, OnOk};
ghost use Rattle.sqlx_play.specs.events.KeepsMinimum.{KeepsMinimum};
ghost use Rattle.sqlx_play.specs.stage.EventFrame.{Frame};
ghost use Rattle.sqlx_play.specs.stage.StageStands.{last_of, numbers_of};
ghost use Rattle.sqlx_play.specs.stage.Scene.{scene_of};

use crate::outside::ScriptOutside;
use crate::stage::Stage;
use sqlx_text::{Moment, OutOfMemory};
use std::alloc::Global;

/// Opens connections up to the pool's minimum, as far as connects succeed: `opens` of them do.
pub fn fill(
    stage: &mut Stage,
    alloc: Global,
    moment: Moment,
    opens: u32,
) -> Result<u64, OutOfMemory>
    requires numbers { numbers_of (scene_of stage.old) + opens ≤ 2 ^ 63 }
    requires in_order { last_of (scene_of stage.old) ≤ moment.0 }
    ensures ok { IfOk result (KeepsMinimum (scene_of stage.old) (scene_of stage.new) moment.0 opens) }
    ensures frame { Frame (scene_of stage.old) (scene_of stage.new) moment.0 opens }
    ensures runs { OnOk result (stage.new.out.store.runs ≡ stage.old.out.store.runs) }
{
    stage.out.begin_minimum(opens);
    let kept = stage
        .core
        .keep_minimum::<(), ScriptOutside>(alloc, moment, &(), &mut stage.out);
    if kept.short {
        return Err(OutOfMemory);
    }
    Ok(u64::from(kept.opened))
}
