//! One link of a store at work: the session holds both, and does each act where they lie.
ghost use Rattle.std.specs.Prelude.{◌≡◌, ◌≤◌, Some, None, IfOk, OnOk, OnErr, MatchResult};
ghost use Rattle.std.specs.FinMap.{entries};
ghost use Rattle.mem_store.specs.Acts.{refusal_of, refusal_here, fault_of, level_refusal, after_act, refused, rows_seen, seen_by, after_start_rollback};
ghost use Rattle.mem_store.specs.Undo.{Counts, CountsFall};
ghost use Rattle.mem_store.specs.Store.{state_of};
ghost use Rattle.mem_store.specs.declared.act.Act.{Act as Doing};

use crate::act::Act;
use crate::answer::Answer;
use crate::link::StoreLink;
use crate::refusal::Refusal;
use crate::store::MemStore;
use sqlx_pool_places::Steps;
use sqlx_savepoints::LevelText;
use sqlx_text::OutOfMemory;
use std::alloc::Global;
use std::marker::Model;
use std::sync::ledger::Ledger;

/// A connection at work: it runs statements on its store.
#[derive(Drop)]
pub struct StoreSession {
    store: MemStore,
    link: StoreLink,
    answer: Answer,
}

impl Model for StoreSession {
    ghost use Rattle.mem_store.specs.Store.{Session, session_code};

    ghost Value = { Session };

    ghost coded = { session_code };

    ghost view = { λ a. record { store = a.store; link = a.link; answer = a.answer } };
}

impl StoreSession {
    pub(crate) fn new(store: MemStore, link: StoreLink, answer: Answer) -> StoreSession
        ensures { result ≡ record { store = store; link = link; answer = answer } }
    {
        StoreSession {
            store,
            link,
            answer,
        }
    }

    /// The store and the link, as the statements left them.
    pub fn into_parts(self) -> (MemStore, StoreLink)
        ensures { (result.0 ≡ self.store) × (result.1 ≡ self.link) }
    {
        let StoreSession { store, link, .. } = self;
        (store, link)
    }

    /// Puts another store in the place of the session's, which is handed out.
    pub fn swap_store(&mut self, store: &mut MemStore)
        ensures session { self.new ≡ record self.old { store = store.old } }
        ensures store { store.new ≡ self.old.store }
    {
        std::mem::swap(&mut self.store, store);
    }

    /// How many levels are open.
    pub fn depth(&self) -> usize
        ensures { result ≡ self.now.link.depth }
    {
        self.link.depth()
    }

    /// Rolls the innermost level back, as the ANSI text at the depth does. It can't be refused and
    /// takes no memory.
    pub fn start_rollback(&mut self)
        requires { 1 ≤ self.old.link.depth }
        ensures { self.new ≡ after_start_rollback self.old }
    {
        self.store.roll_back(&mut self.link);
    }

    /// The same; each change of the own writes that it undoes is a step.
    pub fn start_rollback_counted<L: Ledger>(&mut self, steps: &mut Steps<L>)
        requires { 1 ≤ self.old.link.depth }
        ensures becomes { self.new ≡ after_start_rollback self.old }
        ensures count { CountsFall steps.old self.old.link.undo steps.new self.new.link.undo }
    {
        self.store.start_rollback(&mut self.link, steps);
    }

    /// How many changes of the own writes can be undone: none outside a level, and in one as many as
    /// were written since it began, less those that were undone.
    pub fn undo_len(&self) -> usize
        ensures { result ≡ self.now.link.undo.len }
    {
        self.link.undo_len()
    }

    /// Notes a refusal, which spends what was handed in.
    pub fn refuse(&mut self)
        ensures { self.new ≡ refused self.old }
    {
        self.answer = Answer::Accept;
    }

    /// The act, where it isn't refused.
    pub fn admitted(&self, act: Option<Act>) -> Result<Act, Refusal>
        ensures { MatchResult result (λ a. (act ≡ Some a) × (refusal_of act self.now ≡ None)) (λ r. refusal_of act self.now ≡ Some r) }
    {
        self.store.admitted(&self.link, self.answer, act)
    }

    /// What was handed in, as a refusal.
    pub fn fault(&self) -> Option<Refusal>
        ensures { result ≡ fault_of self.now.answer }
    {
        self.answer.fault()
    }

    /// The value of a key, as the connection sees it.
    pub fn seen(&self, key: i64) -> Option<i64>
        ensures { result ≡ seen_by key self.now }
    {
        self.store.seen_by(&self.link, key)
    }

    /// The keys that the connection sees and their values, in the order of the keys.
    pub fn rows(&self, alloc: Global) -> Result<Vec<(i64, i64)>, OutOfMemory>
        ensures { IfOk result (λ pairs. pairs.items ≡ entries (rows_seen self.now)) }
    {
        let rows = self.store.rows_under(&self.link)?;
        rows.pairs(alloc)
    }

    /// Does an act that isn't refused.
    #[tactic(auto, using(crate::proofs::FreeActs::free_here))]
    pub fn run(&mut self, act: Act) -> Result<(), OutOfMemory>
        requires { refusal_here (Some act) self.old ≡ None }
        ensures ok { OnOk result (self.new ≡ after_act act self.old) }
        ensures err { OnErr result (self.new ≡ self.old) }
    {
        self.store.do_act(&mut self.link, act)
    }

    /// Runs a level text that isn't refused. A text that rolls back has a step for each change that
    /// it undoes, and no other text has one.
    pub fn run_level<L: Ledger>(
        &mut self,
        level: LevelText,
        steps: &mut Steps<L>,
    ) -> Result<(), OutOfMemory>
        requires { level_refusal level (state_of self.old) ≡ None }
        ensures ok { OnOk result (self.new ≡ after_act (Doing.Level level) self.old) }
        ensures count { OnOk result (Counts level steps.old self.old.link.undo steps.new self.new.link.undo) }
        ensures err { OnErr result ((self.new ≡ self.old) × (steps.new ≡ steps.old)) }
    {
        self.store.run(&mut self.link, level, steps)
    }
}
