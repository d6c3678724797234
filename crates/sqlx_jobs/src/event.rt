//! Answers an event.
ghost use Rattle.std.specs.Prelude.{◌≡◌, ◌<◌, ◌+◌, ◌^◌, ℕ, IfOk, true};
ghost use Rattle.sqlx_player.specs.Language.{Pairs};
ghost use Rattle.sqlx_jobs_rules.specs.declared.event.Event.{Event as AnEvent};
ghost use Rattle.sqlx_jobs_rules.specs.declared.event.Act.TheVariants as AnAct;
ghost use Rattle.sqlx_jobs_rules.specs.declared.reply.Reply.{Reply as AReply};
ghost use Rattle.mem_store.specs.Store.{Link};
ghost use Rattle.sqlx_savepoints.specs.Rows.{Rows};
ghost use Rattle.sqlx_jobs_rules.specs.Jobs.{jobs_of, num_done};
ghost use Rattle.sqlx_jobs.specs.Keeps.{Keeps, Answers};
ghost use Rattle.sqlx_jobs.specs.Level.{IsWithin, Ends};
ghost use Rattle.sqlx_jobs.specs.Plan as spec;

use crate::level;
use crate::plan::{Plan, has_small_job, met_of, plan_at};
use crate::rows::{self, Counts};
use crate::view::AtWork;
use sqlx_jobs_rules::{Event, Met, Reply};
use sqlx_play_acts::{ClientLink, MemStore, Route};
use sqlx_text::OutOfMemory;
use std::alloc::Global;

// Carries a plan out in the level that was begun, and answers the reply.
fn carry_out<R: Route>(
    alloc: Global,
    store: &mut MemStore,
    link: &mut ClientLink,
    plan: &Plan,
    met: Met,
) -> Result<Reply, OutOfMemory>
    ensures { IfOk result (λ reply. (n : ℕ) (rows : Rows) (begun writes : ℕ) → IsWithin store.old link.old n rows rows begun writes → writes < 2 ^ 31
        → Ends plan.now.change plan.now.reply met n rows begun writes reply store.new link.new) }
{
    match &plan.change {
        Some(change) => {
            if level::make::<R>(alloc, store, link, change, met)? {
                Ok(plan.reply)
            } else {
                Ok(Reply::Fault)
            }
        }
        None => {
            level::rollback::<R>(alloc, store, link)?;
            Ok(plan.reply)
        }
    }
}

/// Answers an event other than a count, in a level of its own on the connection.
pub fn run_event<R: Route>(
    alloc: Global,
    store: &mut MemStore,
    link: &mut ClientLink,
    lease: u64,
    event: &Event,
) -> Result<Reply, OutOfMemory>
    requires short { event.now.moment + lease < 2 ^ 63 }
    requires works { spec.works event.now.act ≡ true }
    ensures { IfOk result (λ reply. Answers lease event.now reply store.old link.old store.new link.new) }
{
    has_small_job(event.act);
    level::begin::<R>(alloc, store, link)?;
    let plan = plan_at(&AtWork { store, link }, lease, event);
    let reply = carry_out::<R>(alloc, store, link, &plan, met_of(event.act))?;
    Ok(reply)
}

/// Counts the jobs at a moment.
pub fn count(store: &MemStore, now: u64) -> Reply
    ensures { (link : Link) (lease : ℕ) → Answers lease (record { moment = now; act = AnAct.Count }) result store.now link store.now link }
{
    let Counts { ready, held, done } = rows::count(store, now);
    Reply::Counted { ready, held, done }
}

/// How many jobs were added, and how many are done.
pub fn totals(store: &MemStore) -> (u64, u64)
    ensures { (n : ℕ) (pairs : Pairs AnEvent AReply) (link : Link) → Keeps n pairs store.now link
        → (result.0 ≡ (jobs_of pairs).added) × (result.1 ≡ num_done (jobs_of pairs)) }
{
    (rows::added(store), rows::count(store, 0).done)
}
