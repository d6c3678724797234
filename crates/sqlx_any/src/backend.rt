//! A backend: what a driver has to do so that its connections can stand behind `Any`.
ghost use Rattle.std.specs.Prelude.{◌≡◌, ◌+◌, ◌-◌, ◌<◌, ◌≤◌, ⊤, ℕ, Bool, Err, IfErr, IfOk, IsSome, List, Ok, OnErr, OnOk, Option, Result, nat_lt};
ghost use Rattle.sqlx_text.specs.declared.error.Error.{Error};
ghost use Rattle.sqlx_traits.specs.Faults.{BeginCause, CloseCause, FaultCause, OpenCause};
ghost use Rattle.sqlx_traits.specs.StepList.{StepCauses, Steps, first_of, rows_of};
ghost use Rattle.sqlx_traits.specs.Calls as call;
ghost use Rattle.sqlx_any.specs.Rows.{RowParts, StatementParts};

use crate::{Any, AnyArguments, AnyConnectOptions, AnyRow, AnyStatement, AnyTypeInfo};
use sqlx_text::{Error, SqlStr};
use sqlx_traits::{Faults, FetchMany};
use std::alloc::Global;

/// A backend of connections. What its calls mean is what `Connection`, `TransactionManager` and
/// `Executor` say of an [`crate::AnyConnection`] over it.
pub trait AnyConnectionBackend: Faults + Sized {
    ghost use Rattle.sqlx_any.specs.declared.arguments.AnyArguments.{AnyArguments};
    ghost use Rattle.sqlx_any_values.specs.declared.query_result.AnyQueryResult.{AnyQueryResult};
    ghost use Rattle.sqlx_any_values.specs.declared.type_info.AnyTypeInfo.{AnyTypeInfo};

    /// The name of the driver.
    ghost called: { Self → List ℕ };

    /// The open levels.
    ghost levels: { Self → ℕ };

    /// Whether it closes without a refusal, whatever comes.
    ghost closes: { Self → Bool };

    /// How many statements are cached.
    ghost cached: { Self → ℕ } = { λ _. 0 };

    /// Whether something waits to be flushed.
    ghost unflushed: { Self → Bool } = { λ _. Bool.false };

    /// What a text may give that is or isn't to be kept and has these arguments, and what the backend is after it.
    ghost runs: { Self → List ℕ → Bool → Option AnyArguments → Steps AnyQueryResult RowParts Error → Self → Type 0 };

    /// What a call besides queries may answer, and what the backend is after it; nothing is said where it is left out.
    ghost does: { call.Call → Self → call.Outcome → Self → Type 0 } = { λ _ _ _ _. ⊤ };

    /// What closing may answer; nothing is said where it is left out.
    ghost ends: { call.Closing → Self → call.Outcome → Type 0 } = { λ _ _ _. ⊤ };

    /// What preparing a text for parameters of these types may give, and what the backend is after it.
    ghost prepares: { Self → List ℕ → List AnyTypeInfo → Result StatementParts Error → Self → Type 0 };

    /// The name of the driver.
    fn name(&self) -> &str
        ensures { result.now ≡ called self.now };

    /// Closes the connection, and tells its peer. It is refused by the database or on the way to it, or for want of
    /// memory.
    fn close(self) -> Result<(), Error>
        ensures closes { IfErr result (λ _. closes self ≡ Bool.false) }
        ensures cause { IfErr result CloseCause }
        ensures ends { ends call.told self result };

    /// Closes the connection at once. It is refused as `close` is.
    fn close_hard(self) -> Result<(), Error>
        ensures closes { IfErr result (λ _. closes self ≡ Bool.false) }
        ensures cause { IfErr result CloseCause }
        ensures ends { ends call.at_once self result };

    /// Asks for a sign of life. It leaves the depth.
    fn ping(&mut self) -> Result<(), Error>
        ensures levels { levels self.new ≡ levels self.old }
        ensures rises { Self.faults self.old ≤ Self.faults self.new }
        ensures cause { IfErr result (FaultCause (Self.faults self.old) (Self.faults self.new)) }
        ensures does { does call.ping self.old result self.new };

    /// Opens a level: by the statement where one is given, which is refused inside of a transaction,
    /// and else by the driver's own. A refused one leaves the depth.
    fn begin(&mut self, alloc: Global, statement: Option<SqlStr>) -> Result<(), Error>
        ensures ok { OnOk result (levels self.new ≡ levels self.old + 1) }
        ensures err { OnErr result (levels self.new ≡ levels self.old) }
        ensures custom_inside { IsSome statement → 0 < levels self.old → (result ≡ Err Error.InvalidSavePointStatement) × (self.new ≡ self.old) }
        ensures only_inside { result ≡ Err Error.InvalidSavePointStatement → IsSome statement × (0 < levels self.old) }
        ensures rises { Self.faults self.old ≤ Self.faults self.new }
        ensures only_custom { result ≡ Err Error.BeginFailed → IsSome statement × (levels self.new ≡ 0) }
        ensures cause { IfErr result (BeginCause (Self.faults self.old) (Self.faults self.new)) }
        ensures does { does (call.begin statement) self.old result self.new };

    /// Ends the newest level and keeps what it wrote. A refused one ends it as rolled back.
    fn commit(&mut self, alloc: Global) -> Result<(), Error>
        requires { 0 < levels self.old }
        ensures levels { levels self.new ≡ levels self.old - 1 }
        ensures rises { Self.faults self.old ≤ Self.faults self.new }
        ensures cause { IfErr result (FaultCause (Self.faults self.old) (Self.faults self.new)) }
        ensures does { does call.commit self.old result self.new };

    /// Ends the newest level and undoes what it wrote, also where it is refused.
    fn rollback(&mut self, alloc: Global) -> Result<(), Error>
        requires { 0 < levels self.old }
        ensures levels { levels self.new ≡ levels self.old - 1 }
        ensures rises { Self.faults self.old ≤ Self.faults self.new }
        ensures cause { IfErr result (FaultCause (Self.faults self.old) (Self.faults self.new)) }
        ensures does { does call.rollback self.old result self.new };

    /// Begins to roll back the newest level, which can't be refused: the level is ended.
    fn start_rollback(&mut self)
        requires { 0 < levels self.old }
        ensures levels { levels self.new ≡ levels self.old - 1 }
        ensures rises { Self.faults self.old ≤ Self.faults self.new }
        ensures does { does call.start_rollback self.old (Ok tt) self.new };

    /// How many levels are open.
    fn get_transaction_depth(&self) -> usize
        ensures { result ≡ levels self.now };

    /// Whether a level is open.
    final fn is_in_transaction(&self) -> bool
        ensures { result ≡ nat_lt 0 (levels self.now) }
    {
        self.get_transaction_depth() > 0
    }

    /// How many statements are cached; 0 where the driver has no cache.
    fn cached_statements_size(&self) -> usize
        ensures { result ≡ cached self.now };

    /// Forgets the cached statements. It leaves the depth.
    fn clear_cached_statements(&mut self) -> Result<(), Error>
        ensures ok { OnOk result (cached self.new ≡ 0) }
        ensures levels { levels self.new ≡ levels self.old }
        ensures rises { Self.faults self.old ≤ Self.faults self.new }
        ensures cause { IfErr result (FaultCause (Self.faults self.old) (Self.faults self.new)) }
        ensures does { does call.clear_cached_statements self.old result self.new };

    /// Gives back memory that isn't needed. It leaves the depth.
    fn shrink_buffers(&mut self)
        ensures levels { levels self.new ≡ levels self.old }
        ensures rises { Self.faults self.old ≤ Self.faults self.new }
        ensures does { does call.shrink_buffers self.old (Ok tt) self.new };

    /// Sends what waits. It leaves the depth.
    fn flush(&mut self) -> Result<(), Error>
        ensures ok { OnOk result (unflushed self.new ≡ Bool.false) }
        ensures levels { levels self.new ≡ levels self.old }
        ensures rises { Self.faults self.old ≤ Self.faults self.new }
        ensures cause { IfErr result (FaultCause (Self.faults self.old) (Self.faults self.new)) }
        ensures does { does call.flush self.old result self.new };

    /// Whether something waits to be flushed.
    fn should_flush(&self) -> bool
        ensures { result ≡ unflushed self.now };

    /// Runs a text, with arguments or without, and gives its step list, item by item.
    fn fetch_many(
        &mut self,
        alloc: Global,
        query: SqlStr,
        persistent: bool,
        arguments: Option<AnyArguments>,
    ) -> FetchMany<Any<Self>>
        ensures steps { runs self.old query persistent arguments result self.new }
        ensures rises { Self.faults self.old ≤ Self.faults self.new }
        ensures causes { StepCauses (Self.faults self.old) (Self.faults self.new) (Ok arguments) result };

    /// Runs a text, with arguments or without, and gives its first row or error, or `None` where it has neither.
    fn fetch_optional(
        &mut self,
        alloc: Global,
        query: SqlStr,
        persistent: bool,
        arguments: Option<AnyArguments>,
    ) -> Result<Option<AnyRow>, Error>
        ensures row { (list : Steps AnyQueryResult RowParts Error) × runs self.old query persistent arguments list self.new × (result ≡ first_of (rows_of list)) }
        ensures rises { Self.faults self.old ≤ Self.faults self.new }
        ensures cause { IfErr result (FaultCause (Self.faults self.old) (Self.faults self.new)) };

    /// Prepares a statement for parameters of these types.
    fn prepare_with(
        &mut self,
        alloc: Global,
        sql: SqlStr,
        parameters: &[AnyTypeInfo],
    ) -> Result<AnyStatement, Error>
        ensures prepared { prepares self.old sql parameters.now result self.new }
        ensures text { IfOk result (λ statement. statement.sql ≡ sql) }
        ensures rises { Self.faults self.old ≤ Self.faults self.new }
        ensures cause { IfErr result (FaultCause (Self.faults self.old) (Self.faults self.new)) };
}

/// A backend that can be opened by options.
pub trait AnyOpen: AnyConnectionBackend {
    ghost use Rattle.sqlx_any.specs.declared.options.AnyConnectOptions.{AnyConnectOptions};

    /// What may come of opening a connection by options.
    ghost opens: { AnyConnectOptions → Result Self Error → Type 0 };

    /// Opens a connection, which has no level open. It is refused for the options, by the database or on the way to
    /// it, or for want of memory.
    fn from_options(alloc: Global, options: &AnyConnectOptions) -> Result<Self, Error>
        ensures opened { opens options.now result }
        ensures cause { IfErr result OpenCause }
        ensures depth { IfOk result (λ backend. Self.levels backend ≡ 0) };
}
