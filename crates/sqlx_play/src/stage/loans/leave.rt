//! The events `end`, `detach` and `leak`: a client's connection leaves the pool.
ghost use Rattle.std.specs.Prelude.{◌≡◌, ◌^◌, ◌≤◌, find, Some, IfOk};
ghost use Rattle.sqlx_pool_marks.specs.declared.mark.Mark.{Mark};
ghost use Rattle.sqlx_pool_lists.specs.declared.steps.Lent.{Lent};
ghost use Rattle.sqlx_pool_lists.specs.MaintenanceSteps.{without_first};
ghost use Rattle.mem_store.specs.Store.{Link, closed_at};
ghost use Rattle.sqlx_script.specs.declared.step.Step.{Step};
ghost use Rattle.sqlx_play.specs.events.PlaysEvent.{PlaysEvent};
ghost use Rattle.sqlx_play.specs.stage.LentLinks.{is_lent};
ghost use Rattle.sqlx_play.specs.events.LoanEnds.{LoanEnds};
ghost use Rattle.sqlx_play.specs.stage.EventFrame.{EventFrame, Frame};
ghost use Rattle.sqlx_play.specs.stage.StageStands.{last_of, numbers_of};
ghost use Rattle.sqlx_play.specs.stage.Scene.{scene_of};

use crate::stage::Stage;
use crate::stage::upkeep::fill::fill;
use sqlx_script::Reply;
use sqlx_text::{Moment, OutOfMemory};
use std::alloc::Global;

// Takes a connection's link out, and closes it in the store.
fn close_lent(stage: &mut Stage, conn: u64)
    ensures core { stage.new.core ≡ stage.old.core }
    ensures pool { stage.new.pool ≡ stage.old.pool }
    ensures store { (l : Lent Link) → find (is_lent conn) stage.old.lent.items ≡ Some l → stage.new.out.store ≡ closed_at l.raw.depth stage.old.out.store }
    ensures runs { stage.new.out.store.runs ≡ stage.old.out.store.runs }
    ensures lent { stage.new.lent.items ≡ without_first (is_lent conn) stage.old.lent.items }
{
    if let Some(lent) = stage.lent.take(conn) {
        lent.raw.close(&mut stage.out.store);
    }
}

// Ends a client's connection.
fn end_loan(stage: &mut Stage, client: u32, conn: u64) -> bool
    ensures ok { LoanEnds (scene_of stage.old) (scene_of stage.new) (Mark.Closed conn) client conn result }
    ensures frame { Frame (scene_of stage.old) (scene_of stage.new) (last_of (scene_of stage.old)) 0 }
    ensures runs { stage.new.out.store.runs ≡ stage.old.out.store.runs }
{
    stage.core.bounds();
    if !stage.core.end(client, conn) {
        return false;
    }
    close_lent(stage, conn);
    true
}

// Takes a client's connection out of the pool.
fn detach_loan(stage: &mut Stage, client: u32, conn: u64) -> bool
    ensures ok { LoanEnds (scene_of stage.old) (scene_of stage.new) (Mark.Detached conn) client conn result }
    ensures frame { Frame (scene_of stage.old) (scene_of stage.new) (last_of (scene_of stage.old)) 0 }
    ensures runs { stage.new.out.store.runs ≡ stage.old.out.store.runs }
{
    stage.core.bounds();
    if !stage.core.detach(client, conn) {
        return false;
    }
    close_lent(stage, conn);
    true
}

// Takes a client's connection out of the pool, which keeps its place.
fn leak_loan(stage: &mut Stage, client: u32, conn: u64) -> bool
    ensures ok { LoanEnds (scene_of stage.old) (scene_of stage.new) (Mark.Leaked conn) client conn result }
    ensures frame { Frame (scene_of stage.old) (scene_of stage.new) (last_of (scene_of stage.old)) 0 }
    ensures runs { stage.new.out.store.runs ≡ stage.old.out.store.runs }
{
    stage.core.bounds();
    if !stage.core.leak(client, conn) {
        return false;
    }
    close_lent(stage, conn);
    true
}

/// A client closes its connection. The minimum is kept.
pub fn end(
    stage: &mut Stage,
    alloc: Global,
    moment: Moment,
    client: u32,
    connection: u32,
    opens: u32,
) -> Result<Reply, OutOfMemory>
    requires numbers { numbers_of (scene_of stage.old) ≤ 2 ^ 62 }
    requires in_order { last_of (scene_of stage.old) ≤ moment.0 }
    requires few { opens ≤ 2 ^ 16 }
    ensures ok { IfOk result (PlaysEvent (scene_of stage.old) (scene_of stage.new) (record { moment = moment; step = Step.End client connection opens })) }
    ensures frame { EventFrame (scene_of stage.old) (scene_of stage.new) (record { moment = moment; step = Step.End client connection opens }) result }
{
    if !end_loan(stage, client, u64::from(connection)) {
        return Ok(Reply::NotHeld);
    }
    let opened = fill(stage, alloc, moment, opens)?;
    Ok(Reply::Closed(opened))
}

/// A client takes its connection out of the pool. The minimum is kept.
pub fn detach(
    stage: &mut Stage,
    alloc: Global,
    moment: Moment,
    client: u32,
    connection: u32,
    opens: u32,
) -> Result<Reply, OutOfMemory>
    requires numbers { numbers_of (scene_of stage.old) ≤ 2 ^ 62 }
    requires in_order { last_of (scene_of stage.old) ≤ moment.0 }
    requires few { opens ≤ 2 ^ 16 }
    ensures ok { IfOk result (PlaysEvent (scene_of stage.old) (scene_of stage.new) (record { moment = moment; step = Step.Detach client connection opens })) }
    ensures frame { EventFrame (scene_of stage.old) (scene_of stage.new) (record { moment = moment; step = Step.Detach client connection opens }) result }
{
    if !detach_loan(stage, client, u64::from(connection)) {
        return Ok(Reply::NotHeld);
    }
    let opened = fill(stage, alloc, moment, opens)?;
    Ok(Reply::Detached(opened))
}

/// A client takes its connection out of the pool, which keeps its place. The minimum is kept.
pub fn leak(
    stage: &mut Stage,
    alloc: Global,
    moment: Moment,
    client: u32,
    connection: u32,
    opens: u32,
) -> Result<Reply, OutOfMemory>
    requires numbers { numbers_of (scene_of stage.old) ≤ 2 ^ 62 }
    requires in_order { last_of (scene_of stage.old) ≤ moment.0 }
    requires few { opens ≤ 2 ^ 16 }
    ensures ok { IfOk result (PlaysEvent (scene_of stage.old) (scene_of stage.new) (record { moment = moment; step = Step.Leak client connection opens })) }
    ensures frame { EventFrame (scene_of stage.old) (scene_of stage.new) (record { moment = moment; step = Step.Leak client connection opens }) result }
{
    if !leak_loan(stage, client, u64::from(connection)) {
        return Ok(Reply::NotHeld);
    }
    let opened = fill(stage, alloc, moment, opens)?;
    Ok(Reply::Leaked(opened))
}
