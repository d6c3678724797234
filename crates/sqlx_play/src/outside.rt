//! The outside of the pool on which a script is played: the database in memory, and the letters of the present line,
//! which are the answers of connects, pings and hooks.
ghost use Rattle.std.specs.Prelude.{◌≡◌, ℕ, ◌≤◌, ◌-◌, ◌==◌, true, false, Some, None};
ghost use Rattle.sqlx_pool_core.specs.Calls as call;
ghost use Rattle.sqlx_pool_core.specs.Calls.{IsCounted};
ghost use Rattle.sqlx_pool_core.specs.Outside.{HasRisen, declines, is_transient, says_yes};
ghost use Rattle.sqlx_script.specs.Built.{accepts, sets_up};
ghost use Rattle.mem_store.specs.Store.{Link};
ghost use Rattle.sqlx_play.specs.outside.ScriptCalls.{Does, does-facts};
ghost use Rattle.sqlx_play.specs.outside.ScriptOutside.{beside, depth_of, give_letters, is_left_open, next_connect, poll_letters, refused_by};

use sqlx_play_acts::{ClientLink, MemStore};
use sqlx_pool_core::{Outside, PoolConnectionMetadata};
use sqlx_script::{AfterConnectAnswer, ConnectAnswer, GiveAnswers, HookAnswer, PollAnswers};
use sqlx_text::{DatabaseFault, Error, ErrorKind, IoFault, UStr};
use std::alloc::Global;

/// The outside of the pool on which a script is played. It answers by the present line, and tells these answers. The
/// first tests of a poll, as many as its line tells, are answered by its letters, and each later one is accepted. Any
/// other second call of a kind within a line is answered as the first was. It is part of a [`Stage`](crate::Stage).
#[derive(Drop)]
pub struct ScriptOutside {
    /// The database in memory.
    pub store: MemStore,
    // So many connects are accepted before `connect` is answered.
    pub(crate) opens: u32,
    pub(crate) connect: ConnectAnswer,
    pub(crate) ping: bool,
    pub(crate) after_connect: AfterConnectAnswer,
    pub(crate) before_acquire: HookAnswer,
    pub(crate) after_release: HookAnswer,
    // So many tests are answered by `ping` and `before_acquire`, and each later one accepts. A close ends a test.
    pub(crate) tests: u32,
    // The link on which a hook of this line left a level open.
    pub(crate) left_open: Option<u64>,
    pub(crate) faults: u64,
    pub(crate) refusals: u64,
}

// The error of a hook.
fn hook_fault() -> Error {
    Error::InvalidArgument(UStr::from_static("the hook refuses"))
}

// What the database says of a connect that it refuses for good.
fn refused_for_good() -> Error
    ensures refused { refused_by result ≡ Some ConnectAnswer.ConnectDatabase }
    ensures passing { is_transient result ≡ false }
{
    Error::Database(DatabaseFault {
        message: UStr::from_static("refused"),
        code: None,
        kind: ErrorKind::Other,
        transient: false,
        constraint: None,
        table: None,
    })
}

/// The letter that a refused connect had; None is want of memory.
pub fn refused_by(error: &Error) -> Option<ConnectAnswer>
    ensures { result ≡ refused_by error.now }
{
    match error {
        Error::Io(IoFault::ConnectionRefused) => Some(ConnectAnswer::Transient),
        Error::Io(IoFault::Other) => Some(ConnectAnswer::ConnectIo),
        Error::Database(_) => Some(ConnectAnswer::ConnectDatabase),
        _ => None,
    }
}

impl ScriptOutside {
    /// The outside of a database before the first line.
    pub fn new(store: MemStore) -> ScriptOutside
        ensures store { result.store ≡ store }
        ensures counts { (result.faults ≡ 0) × (result.refusals ≡ 0) }
    {
        ScriptOutside {
            store,
            opens: 0,
            connect: ConnectAnswer::ConnectIo,
            ping: true,
            after_connect: AfterConnectAnswer::SetUp,
            before_acquire: HookAnswer::Accepts,
            after_release: HookAnswer::Accepts,
            tests: 1,
            left_open: None,
            faults: 0,
            refusals: 0,
        }
    }

    /// The database, when the last line was played.
    pub fn into_store(self) -> MemStore
        ensures { result ≡ self.store }
    {
        self.store
    }

    /// A poll's line begins.
    pub fn begin_poll(&mut self, answers: PollAnswers)
        ensures store { self.new.store ≡ self.old.store }
        ensures letters { poll_letters self.new ≡ answers }
        ensures opens { self.new.opens ≡ 0 }
        ensures left { self.new.left_open ≡ None }
        ensures counts { (self.new.faults ≡ self.old.faults) × (self.new.refusals ≡ self.old.refusals) }
    {
        self.opens = 0;
        self.connect = answers.connect;
        self.ping = answers.ping;
        self.after_connect = answers.after_connect;
        self.before_acquire = answers.before_acquire;
        self.after_release = HookAnswer::Accepts;
        self.tests = answers.tests;
        self.left_open = None;
    }

    /// A give's line begins.
    pub fn begin_give(&mut self, answers: GiveAnswers)
        ensures store { self.new.store ≡ self.old.store }
        ensures letters { give_letters self.new ≡ answers }
        ensures left { self.new.left_open ≡ None }
        ensures counts { (self.new.faults ≡ self.old.faults) × (self.new.refusals ≡ self.old.refusals) }
    {
        self.opens = 0;
        self.connect = ConnectAnswer::ConnectIo;
        self.ping = answers.ping;
        self.after_connect = AfterConnectAnswer::SetUp;
        self.before_acquire = HookAnswer::Accepts;
        self.after_release = answers.after_release;
        self.tests = 1;
        self.left_open = None;
    }

    /// The minimum is kept: so many connects are accepted, and the next one is refused.
    pub fn begin_minimum(&mut self, opens: u32)
        ensures store { self.new.store ≡ self.old.store }
        ensures opens { self.new.opens ≡ opens }
        ensures sets_up { sets_up self.new.after_connect ≡ true }
        ensures refuses { self.new.connect ≡ ConnectAnswer.ConnectIo }
        ensures left { self.new.left_open ≡ None }
        ensures counts { (self.new.faults ≡ self.old.faults) × (self.new.refusals ≡ self.old.refusals) }
    {
        self.opens = opens;
        self.connect = ConnectAnswer::ConnectIo;
        self.ping = true;
        self.after_connect = AfterConnectAnswer::SetUp;
        self.before_acquire = HookAnswer::Accepts;
        self.after_release = HookAnswer::Accepts;
        self.tests = 1;
        self.left_open = None;
    }

    // A connect or a ping is refused.
    fn count_fault(&mut self)
        ensures becomes { self.new ≡ record self.old { faults = self.new.faults } }
        ensures risen { HasRisen self.old.faults self.new.faults }
        ensures more { self.old.faults ≤ self.new.faults }
    {
        self.faults = self.faults.saturating_add(1);
    }

    // A hook refuses, fails, or leaves a level open.
    fn count_refusal(&mut self)
        ensures becomes { self.new ≡ record self.old { refusals = self.new.refusals } }
        ensures risen { HasRisen self.old.refusals self.new.refusals }
        ensures more { self.old.refusals ≤ self.new.refusals }
    {
        self.refusals = self.refusals.saturating_add(1);
    }

    // The answer of the next connect.
    fn take_connect(&mut self) -> ConnectAnswer
        ensures answer { result ≡ next_connect self.old }
        ensures becomes { self.new ≡ record self.old { opens = self.new.opens } }
        ensures opens { self.new.opens ≡ self.old.opens - 1 }
        ensures letter { self.new.connect ≡ self.old.connect }
    {
        if self.opens > 0 {
            self.opens -= 1;
            return ConnectAnswer::Connected;
        }
        self.connect
    }

    // No hook left a level open on the link of this number, which is new or closed.
    fn forget(&mut self, number: u64)
        ensures becomes { self.new ≡ record self.old { left_open = beside number self.old.left_open } }
        ensures own { is_left_open self.new.left_open number ≡ false }
    {
        if self.left_open == Some(number) {
            self.left_open = None;
        }
    }

    // The link of this number is closed, and so its test is over, if it was tested.
    fn end_test(&mut self, number: u64)
        ensures becomes { self.new ≡ record self.old { left_open = beside number self.old.left_open; tests = self.old.tests - 1 } }
        ensures none { (any : Link) → depth_of self.old any ≡ 0 → depth_of self.new any ≡ 0 }
    {
        self.forget(number);
        self.tests = self.tests.saturating_sub(1);
    }

    // Notes that a hook left a level open on this link, unless one is noted of another.
    fn leave_open(&mut self, number: u64) -> bool
        ensures becomes { self.new ≡ record self.old { left_open = self.new.left_open } }
        ensures own { result ≡ true → is_left_open self.new.left_open number ≡ true }
        ensures not_left { result ≡ false → is_left_open self.new.left_open number ≡ is_left_open self.old.left_open number }
        ensures others { beside number self.new.left_open ≡ beside number self.old.left_open }
    {
        match self.left_open {
            None => {
                self.left_open = Some(number);
                true
            }
            Some(left) => left == number,
        }
    }

    // The answer of a hook that can say no.
    fn ask_hook(&mut self, answer: HookAnswer, conn: &ClientLink) -> Result<bool, Error>
        ensures becomes { self.new ≡ record self.old { left_open = self.new.left_open; refusals = self.new.refusals } }
        ensures answered { depth_of self.old conn.now ≡ 0 → says_yes result (depth_of self.new conn.now) ≡ accepts answer }
        ensures deeper { depth_of self.old conn.now ≤ depth_of self.new conn.now }
        ensures counted { IsCounted (declines result) (depth_of self.old conn.now) (depth_of self.new conn.now) self.old.refusals self.new.refusals }
        ensures refusals { self.old.refusals ≤ self.new.refusals }
        ensures others { beside conn.now.number self.new.left_open ≡ beside conn.now.number self.old.left_open }
    {
        match answer {
            HookAnswer::Accepts => Ok(true),
            HookAnswer::Refuses => {
                self.count_refusal();
                Ok(false)
            }
            HookAnswer::Fails => {
                self.count_refusal();
                Err(hook_fault())
            }
            HookAnswer::LeavesOpen => {
                self.count_refusal();
                if self.leave_open(conn.number()) {
                    Ok(true)
                } else {
                    Err(hook_fault())
                }
            }
        }
    }
}

impl Outside<ClientLink, ()> for ScriptOutside {
    ghost faults = { λ out. out.faults };

    ghost refusals = { λ out. out.refusals };

    ghost depth = { depth_of };

    ghost does = { Does };

    fn connect(&mut self, alloc: Global, _options: &()) -> Result<ClientLink, Error>
        ensures { Does (call.connect _options.now result) self.old self.new }
    {
        match self.take_connect() {
            ConnectAnswer::Connected => match ClientLink::connect(alloc, &mut self.store) {
                Ok(link) => {
                    self.forget(link.number());
                    Ok(link)
                }
                Err(_) => Err(Error::OutOfMemory),
            },
            ConnectAnswer::Transient => {
                self.count_fault();
                Err(Error::Io(IoFault::ConnectionRefused))
            }
            ConnectAnswer::ConnectIo => {
                self.count_fault();
                Err(Error::Io(IoFault::Other))
            }
            ConnectAnswer::ConnectDatabase => {
                self.count_fault();
                Err(refused_for_good())
            }
        }
    }

    fn ping(&mut self, conn: &mut ClientLink) -> Result<(), Error>
        ensures { Does (call.ping conn.old result conn.new) self.old self.new }
    {
        if self.tests == 0 || self.ping {
            return Ok(());
        }
        self.count_fault();
        Err(Error::Io(IoFault::Other))
    }

    fn after_connect(
        &mut self,
        conn: &mut ClientLink,
        _meta: PoolConnectionMetadata,
    ) -> Result<(), Error>
        ensures { Does (call.after_connect conn.old _meta result conn.new) self.old self.new }
    {
        match self.after_connect {
            AfterConnectAnswer::SetUp => Ok(()),
            AfterConnectAnswer::SetUpFails => {
                self.count_refusal();
                Err(hook_fault())
            }
            AfterConnectAnswer::SetUpLeavesOpen => {
                self.count_refusal();
                if self.leave_open(conn.number()) {
                    Ok(())
                } else {
                    Err(hook_fault())
                }
            }
        }
    }

    fn before_acquire(
        &mut self,
        conn: &mut ClientLink,
        _meta: PoolConnectionMetadata,
    ) -> Result<bool, Error>
        ensures { Does (call.before_acquire conn.old _meta result conn.new) self.old self.new }
    {
        if self.tests == 0 {
            return Ok(true);
        }
        self.ask_hook(self.before_acquire, conn)
    }

    fn after_release(
        &mut self,
        conn: &mut ClientLink,
        _meta: PoolConnectionMetadata,
    ) -> Result<bool, Error>
        ensures { Does (call.after_release conn.old _meta result conn.new) self.old self.new }
    {
        self.ask_hook(self.after_release, conn)
    }

    fn depth(&self, conn: &ClientLink) -> usize
        ensures { result ≡ depth_of self.now conn.now }
    {
        if self.left_open == Some(conn.number()) {
            conn.depth().max(1)
        } else {
            conn.depth()
        }
    }

    fn close(&mut self, conn: ClientLink)
        ensures { Does (call.close conn) self.old self.new }
    {
        self.end_test(conn.number());
        conn.close(&mut self.store);
    }

    fn close_hard(&mut self, conn: ClientLink)
        ensures { Does (call.close_hard conn) self.old self.new }
    {
        self.end_test(conn.number());
        conn.close(&mut self.store);
    }

    ghost facts = { does-facts };
}
