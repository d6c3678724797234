//! A connection at work, and the queries that it runs.
ghost use Rattle.std.specs.Prelude.{◌≡◌, ◌≤◌, ◌-◌, ◌⊎◌, Ok, Option, Some, None, IfOk, OnOk, OnErr, length};
ghost use Rattle.sqlx_traits.specs.Faults.{HasRisen};
ghost use Rattle.sqlx_traits.specs.StepList.{StepCauses};
ghost use Rattle.sqlx_any.specs.declared.arguments.AnyArguments.{AnyArguments as Given};
ghost use Rattle.mem_store.specs.Acts.{refusal_here};
ghost use Rattle.mem_driver.specs.Answers.{RowsFit, steps_of};
ghost use Rattle.mem_driver.specs.Backend.{Acts, Lacks};
ghost use Rattle.mem_driver.specs.Session.{acted, depth, fault_counted, forgotten, noted_if, refused, rolled_back};

use crate::answers::{Steps, all, found, one, written};
use crate::link::MemLink;
use mem_store::{Act, Answer, MemStore, StoreSession};
use sqlx_any::StepList;
use sqlx_text::{Error, OutOfMemory, StatementCache};
use std::alloc::Global;
use std::marker::Model;

/// A connection at work: queries and transactions run on it, through `AnyConnection`.
pub struct MemSession {
    pub(crate) work: StoreSession,
    cache: StatementCache<()>,
    faults: u64,
}

impl Drop for MemSession {
    fn drop(self) {
        let MemSession {
            work,
            cache,
            faults: _,
        } = self;
        drop(work);
        drop(cache);
    }
}

impl Model for MemSession {
    ghost use Rattle.mem_driver.specs.Session.{Session, session_code};

    ghost Value = { Session };

    ghost coded = { session_code };

    ghost view = { λ a. record { work = a.work; cache = a.cache; faults = a.faults } };
}

impl MemSession {
    /// A connection at work on its store. The answer meets the first statement or ping.
    pub fn new(store: MemStore, link: MemLink, answer: Answer) -> MemSession
        ensures { result ≡ record { work = record { store = store; link = link.side; answer = answer }; cache = link.cache; faults = 0 } }
    {
        let (side, cache) = link.into_parts();
        MemSession {
            work: store.session(side, answer),
            cache,
            faults: 0,
        }
    }

    /// The store and the connection, as what ran left them.
    pub fn into_parts(self) -> (MemStore, MemLink)
        ensures { (result.0 ≡ self.work.store) × (result.1 ≡ record { side = self.work.link; cache = self.cache }) }
    {
        let MemSession {
            work,
            cache,
            faults: _,
        } = self;
        let (store, side) = work.into_parts();
        (store, MemLink::of(side, cache))
    }

    /// Puts another store in the place of the session's, which is handed out. The link has to be one of that store.
    pub fn swap_store(&mut self, store: &mut MemStore)
        ensures session { self.new ≡ record self.old { work = record self.old.work { store = store.old } } }
        ensures store { store.new ≡ self.old.work.store }
    {
        self.work.swap_store(store);
    }

    /// How many levels are open.
    pub fn depth(&self) -> usize
        ensures { result ≡ depth self.now }
    {
        self.work.depth()
    }

    /// Rolls the innermost level back without a text.
    pub(crate) fn roll_back(&mut self)
        requires { 1 ≤ depth self.old }
        ensures new { self.new ≡ rolled_back self.old }
        ensures depth { depth self.new ≡ depth self.old - 1 }
    {
        self.work.start_rollback();
    }

    /// Counts a refusal.
    pub(crate) fn count_fault(&mut self)
        ensures new { self.new ≡ fault_counted self.old }
        ensures risen { HasRisen self.old.faults self.new.faults }
        ensures rises { self.old.faults ≤ self.new.faults }
    {
        self.faults = self.faults.saturating_add(1);
    }

    /// Notes a refusal, which is counted and spends what was handed in.
    pub(crate) fn refuse(&mut self)
        ensures new { self.new ≡ refused self.old }
        ensures risen { HasRisen self.old.faults self.new.faults }
        ensures rises { self.old.faults ≤ self.new.faults }
    {
        self.work.refuse();
        self.count_fault();
    }

    /// Keeps the text in the cache, where it is to be noted.
    pub(crate) fn note(&mut self, text: &str, notes: bool) -> Result<(), OutOfMemory>
        ensures faults { self.new.faults ≡ self.old.faults }
        ensures levels { depth self.new ≡ depth self.old }
        ensures ok { OnOk result (self.new ≡ noted_if notes text.now self.old) }
        ensures err { OnErr result (self.new ≡ self.old) }
    {
        if !notes {
            return Ok(());
        }
        match self.cache.insert(text, ()) {
            Ok(_) => Ok(()),
            Err(_) => Err(OutOfMemory),
        }
    }

    /// How many texts are cached.
    pub(crate) fn cached(&self) -> usize
        ensures { result ≡ length self.now.cache.entries }
    {
        self.cache.len()
    }

    /// Forgets the texts.
    pub(crate) fn forget(&mut self)
        ensures { self.new ≡ forgotten self.old }
    {
        self.cache.clear();
    }

    /// Does what is asked for, unless it is refused or memory is wanting.
    pub(crate) fn answer(&mut self, alloc: Global, act: Option<Act>) -> Steps
        ensures acts { Acts act self.old result self.new }
        ensures fits { RowsFit result }
        ensures rises { self.old.faults ≤ self.new.faults }
        ensures causes { (arguments : Option Given) → StepCauses self.old.faults self.new.faults (Ok arguments) result }
    {
        match self.work.admitted(act) {
            Ok(act) => self.act(alloc, act),
            Err(refusal) => {
                self.refuse();
                StepList::refused(alloc, refusal.error())
            }
        }
    }

    fn act(&mut self, alloc: Global, act: Act) -> Steps
        requires { refusal_here (Some act) self.old.work ≡ None }
        ensures acts { ((result ≡ steps_of act self.old.work) × (self.new ≡ acted act self.old)) ⊎ Lacks self.old result self.new }
        ensures fits { RowsFit result }
        ensures faults { self.new.faults ≡ self.old.faults }
        ensures causes { (arguments : Option Given) → StepCauses self.old.faults self.new.faults (Ok arguments) result }
    {
        match self.steps(alloc, act) {
            Ok(steps) => match self.run(act) {
                Ok(()) => steps,
                Err(OutOfMemory) => {
                    drop(steps);
                    StepList::refused(alloc, Error::OutOfMemory)
                }
            },
            Err(OutOfMemory) => StepList::refused(alloc, Error::OutOfMemory),
        }
    }

    /// Does an act that isn't refused.
    #[tactic(auto, using(crate::proofs::LevelDepths::outside_leaves))]
    pub(crate) fn run(&mut self, act: Act) -> Result<(), OutOfMemory>
        requires { refusal_here (Some act) self.old.work ≡ None }
        ensures faults { self.new.faults ≡ self.old.faults }
        ensures ok { OnOk result (self.new ≡ acted act self.old) }
        ensures err { OnErr result (self.new ≡ self.old) }
        ensures outside { depth self.old ≡ 0 → OnOk result (depth self.new ≤ 1) }
    {
        self.work.run(act)
    }

    /// What an act is to give. Nothing is done yet.
    fn steps(&self, alloc: Global, act: Act) -> Result<Steps, OutOfMemory>
        ensures steps { IfOk result (λ steps. steps ≡ steps_of act self.now.work) }
        ensures fits { IfOk result RowsFit }
    {
        match act {
            Act::Put(_, _) => written(alloc, 1),
            Act::Delete(key) => {
                let found = self.work.seen(key).is_some();
                written(alloc, if found { 1 } else { 0 })
            }
            Act::Get(key) => found(alloc, self.work.seen(key)),
            Act::SelectAll => {
                let pairs = self.work.rows(alloc)?;
                all(alloc, pairs)
            }
            Act::SelectOne => one(alloc),
            Act::Level(_) => written(alloc, 0),
        }
    }
}
