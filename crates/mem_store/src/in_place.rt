//! Acts on a store and one of its links where both lie. A session does them on the two that it holds.
ghost use Rattle.std.specs.Prelude.{◌≡◌, ◌≤◌, ◌<◌, Some, None, IfOk, OnOk, OnErr, MatchResult};
ghost use Rattle.mem_store.specs.Acts.{refusal_of, refusal_here, level_refusal, after_act, after_start_rollback, IsFree};
ghost use Rattle.mem_store.specs.Store.{at_work, named_by};
ghost use Rattle.mem_store.specs.declared.act.Act.{Act as Doing};
ghost use Rattle.mem_store.specs.declared.answer.Answer.{Answer as Met};

use crate::act::Act;
use crate::answer::Answer;
use crate::link::StoreLink;
use crate::refusal::Refusal;
use crate::store::MemStore;
use sqlx_pool_places::Steps;
use sqlx_savepoints::LevelText;
use sqlx_text::OutOfMemory;
use std::marker::Brand;
use std::sync::ledger::{Blank, Ledger};

impl MemStore {
    /// The act, where it isn't refused on this link. The answer meets it.
    pub fn admitted(
        &self,
        link: &StoreLink,
        answer: Answer,
        act: Option<Act>,
    ) -> Result<Act, Refusal>
        ensures refusal { MatchResult result (λ a. (act ≡ Some a) × (refusal_of act (at_work self.now link.now answer) ≡ None)) (λ r. refusal_of act (at_work self.now link.now answer) ≡ Some r) }
        ensures free { IfOk result (λ a. IsFree a self.now link.now) }
    {
        if let Some(fault) = answer.fault() {
            return Err(fault);
        }
        let Some(act) = act else {
            return Err(Refusal::Unread);
        };
        match self.refusal(link, act) {
            Some(refusal) => Err(refusal),
            None => Ok(act),
        }
    }

    /// The refusal by state and other connections.
    fn refusal(&self, link: &StoreLink, act: Act) -> Option<Refusal>
        ensures { (met : Met) → result ≡ refusal_here (Some act) (at_work self.now link.now met) }
    {
        match act {
            Act::Put(_, _) | Act::Delete(_) => {
                if self.others_in_level(link) {
                    Some(Refusal::Busy)
                } else {
                    None
                }
            }
            Act::Get(_) | Act::SelectAll | Act::SelectOne => None,
            Act::Level(level) => self.level_refusal(link, level),
        }
    }

    fn level_refusal(&self, link: &StoreLink, level: LevelText) -> Option<Refusal>
        ensures { result ≡ level_refusal level (named_by self.now.rows link.now) }
    {
        if link.allows(level) {
            return None;
        }
        match level {
            LevelText::Savepoint(_) if link.depth() >= 100 => Some(Refusal::Deep),
            _ => Some(Refusal::Unread),
        }
    }

    /// Does an act that isn't refused. What was handed in for a statement stays as it is.
    pub fn do_act(&mut self, link: &mut StoreLink, act: Act) -> Result<(), OutOfMemory>
        requires { IsFree act self.old link.old }
        ensures ok { (met : Met) → OnOk result (at_work self.new link.new met ≡ after_act act (at_work self.old link.old met)) }
        ensures err { OnErr result ((self.new ≡ self.old) × (link.new ≡ link.old)) }
    {
        match act {
            Act::Put(key, value) => self.write(link, key, Some(value)),
            Act::Delete(key) => self.write(link, key, None),
            Act::Get(_) | Act::SelectAll | Act::SelectOne => {
                self.count_read();
                Ok(())
            }
            Act::Level(level) => uncounted_level::<Brand>(self, link, level, Blank::new(1)),
        }
    }

    /// Rolls the link's innermost level back, as the ANSI text at the depth does. It can't be refused
    /// and takes no memory.
    pub fn roll_back(&mut self, link: &mut StoreLink)
        requires { 1 ≤ link.old.depth }
        ensures { (met : Met) → at_work self.new link.new met ≡ after_start_rollback (at_work self.old link.old met) }
    {
        uncounted_rollback::<Brand>(self, link, Blank::new(1));
    }
}

// The same without a count.
fn uncounted_level<L: Ledger>(
    store: &mut MemStore,
    link: &mut StoreLink,
    level: LevelText,
    blank: Blank,
) -> Result<(), OutOfMemory>
    requires free { level_refusal level (named_by store.old.rows link.old) ≡ None }
    requires named { blank.name ≡ L.name }
    requires whole { blank.parts ≡ L.parts }
    requires some { 0 < blank.parts }
    ensures ok { (met : Met) → OnOk result (at_work store.new link.new met ≡ after_act (Doing.Level level) (at_work store.old link.old met)) }
    ensures err { OnErr result ((store.new ≡ store.old) × (link.new ≡ link.old)) }
{
    let mut steps = Steps::<L>::new(blank);
    store.run(link, level, &mut steps)
}

fn uncounted_rollback<L: Ledger>(store: &mut MemStore, link: &mut StoreLink, blank: Blank)
    requires level { 1 ≤ link.old.depth }
    requires named { blank.name ≡ L.name }
    requires whole { blank.parts ≡ L.parts }
    requires some { 0 < blank.parts }
    ensures { (met : Met) → at_work store.new link.new met ≡ after_start_rollback (at_work store.old link.old met) }
{
    let mut steps = Steps::<L>::new(blank);
    store.start_rollback(link, &mut steps);
}
