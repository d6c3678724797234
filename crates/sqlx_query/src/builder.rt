//! Statements that are built piece by piece: texts, and values that are bound to placeholders.
ghost use Rattle.std.specs.Prelude.{◌≡◌, ◌≤◌, ◌∷◌, [], Bool, IfErr, IfOk, IfSome, OnErr, OnOk, length, string_bytes, take, None, Ok};
ghost use Rattle.std.specs.Borrow.{sem};
ghost use Rattle.std.specs.Str.{IsUtf8};
ghost use Rattle.sqlx_query.specs.Lending.{rests};
ghost use Rattle.sqlx_text.specs.declared.fault.Fault.{Fault};
ghost use Rattle.sqlx_traits.specs.Arguments.{AddsOne};
ghost use Rattle.sqlx_query_drafts.specs.Query as asked;
ghost use Rattle.sqlx_query_drafts.specs.Binding.{OrWantOfMemory};
ghost use Rattle.sqlx_query_drafts.specs.Builder.{Gains, GainsBound, Piece, alone, cut_to, fresh_draft, with_piece};

use crate::lent::{Lent, hand_back, hand_back_or_fault};
use crate::{Query, QueryAs, QueryScalar, ReadQuery, Separated};
use either::Either;
use sqlx_query_drafts::{Mark, StatementDraft};
use sqlx_text::{AssertSqlSafe, Fault, OutOfMemory, SqlSafeStr, SqlStr};
use sqlx_traits::{ArgumentList, Arguments, Database, Encode, IntoArguments, SqlType};
use std::alloc::Global;
use std::fmt::Display;
use std::marker::Model;

/// A statement that is built piece by piece.
///
/// Once a query was made of it, only `reset`, `sql`, `into_string` and `into_sql` may be called.
#[derive(Drop)]
pub struct QueryBuilder<DB: Database> {
    pub(crate) draft: StatementDraft<DB>,
}

impl<DB: Database> Model for QueryBuilder<DB> {
    ghost use Rattle.sqlx_query_drafts.specs.Builder.{Draft};

    ghost Value = { Draft DB.ArgumentBuffer };

    ghost view = { λ b. b.draft };
}

impl<DB: Database> QueryBuilder<DB> {
    /// A builder whose text begins with `init`.
    pub fn new(alloc: Global, init: String) -> Self
        ensures none { DB.ArgumentBuffer.count result.arguments ≡ 0 }
        ensures begun { result ≡ fresh_draft (string_bytes init) result.arguments }
    {
        QueryBuilder {
            draft: StatementDraft::new(init, DB::Arguments::new(alloc)),
        }
    }

    /// A builder whose text begins with `init`, and holds the placeholders of `arguments` already.
    pub fn with_arguments<A: IntoArguments<DB>>(_alloc: Global, init: String, arguments: A) -> Self
        ensures { result ≡ fresh_draft (string_bytes init) (DB.Arguments.buffered (A.becomes arguments)) }
    {
        QueryBuilder {
            draft: StatementDraft::new(init, arguments.into_arguments()),
        }
    }

    /// Appends a text, and gives the builder back. Want of memory leaves it as it was.
    pub fn push(&mut self, alloc: Global, sql: &str) -> Result<&mut Self, OutOfMemory>
        requires { self.old.built ≡ Bool.false }
        ensures* err { sem 𝓛 (rests DB.ArgumentBuffer.row self.entry (λ b. b.ghost_name) result) }
        ensures same { IfOk result (λ b. b.ghost_name ≡ self.entry.ghost_name) }
        ensures ok { IfOk result (λ b. Gains DB.ArgumentBuffer.count DB.ArgumentBuffer.first self.old (Piece.Text sql.now ∷ []) b.now) }
        ensures unbuilt { IfOk result (λ b. b.now.built ≡ Bool.false) }
    {
        hand_back(self.lend_push(alloc, sql))
    }

    fn lend_push(&mut self, alloc: Global, sql: &str) -> Result<Lent<'_, DB>, OutOfMemory>
        requires { self.old.built ≡ Bool.false }
        ensures* err { sem 𝓛 (rests DB.ArgumentBuffer.row self.entry (λ b. b.0.ghost_name) result) }
        ensures same { IfOk result (λ b. b.0.ghost_name ≡ self.entry.ghost_name) }
        ensures ok { IfOk result (λ b. Gains DB.ArgumentBuffer.count DB.ArgumentBuffer.first self.old (Piece.Text sql.now ∷ []) b.0.now) }
        ensures unbuilt { IfOk result (λ b. b.0.now.built ≡ Bool.false) }
    {
        match self.try_push(alloc, sql) {
            Ok(()) => Ok(Lent(self)),
            Err(want) => Err(want),
        }
    }

    /// Appends a text, as [`QueryBuilder::push`] does. Want of memory leaves the builder as it was.
    pub fn try_push(&mut self, _alloc: Global, sql: &str) -> Result<(), OutOfMemory>
        requires { self.old.built ≡ Bool.false }
        ensures ok { OnOk result (Gains DB.ArgumentBuffer.count DB.ArgumentBuffer.first self.old (Piece.Text sql.now ∷ []) self.new) }
        ensures err { OnErr result (self.new ≡ self.old) }
    {
        self.append(sql)
    }

    /// Appends what `{}` writes of a value, and gives the builder back. Want of memory leaves it as it was.
    pub fn push_display<T: Display>(
        &mut self,
        alloc: Global,
        value: &T,
    ) -> Result<&mut Self, OutOfMemory>
        requires { self.old.built ≡ Bool.false }
        ensures* err { sem 𝓛 (rests DB.ArgumentBuffer.row self.entry (λ b. b.ghost_name) result) }
        ensures same { IfOk result (λ b. b.ghost_name ≡ self.entry.ghost_name) }
        ensures ok { IfOk result (λ b. (text : _) × IfSome (T.output value.now) (λ written. written ≡ text)
            × Gains DB.ArgumentBuffer.count DB.ArgumentBuffer.first self.old (Piece.Text text ∷ []) b.now) }
        ensures unbuilt { IfOk result (λ b. b.now.built ≡ Bool.false) }
    {
        hand_back(self.lend_display(alloc, value))
    }

    fn lend_display<T: Display>(
        &mut self,
        alloc: Global,
        value: &T,
    ) -> Result<Lent<'_, DB>, OutOfMemory>
        requires { self.old.built ≡ Bool.false }
        ensures* err { sem 𝓛 (rests DB.ArgumentBuffer.row self.entry (λ b. b.0.ghost_name) result) }
        ensures same { IfOk result (λ b. b.0.ghost_name ≡ self.entry.ghost_name) }
        ensures ok { IfOk result (λ b. (text : _) × IfSome (T.output value.now) (λ written. written ≡ text)
            × Gains DB.ArgumentBuffer.count DB.ArgumentBuffer.first self.old (Piece.Text text ∷ []) b.0.now) }
        ensures unbuilt { IfOk result (λ b. b.0.now.built ≡ Bool.false) }
    {
        match self.try_push_display(alloc, value) {
            Ok(()) => Ok(Lent(self)),
            Err(want) => Err(want),
        }
    }

    /// Appends what `{}` writes of a value. Want of memory leaves the builder as it was.
    pub fn try_push_display<T: Display>(
        &mut self,
        alloc: Global,
        value: &T,
    ) -> Result<(), OutOfMemory>
        requires { self.old.built ≡ Bool.false }
        ensures ok { OnOk result ((text : _) × IfSome (T.output value.now) (λ written. written ≡ text)
            × Gains DB.ArgumentBuffer.count DB.ArgumentBuffer.first self.old (Piece.Text text ∷ []) self.new) }
        ensures err { OnErr result (self.new ≡ self.old) }
    {
        match value.to_string(alloc) {
            Ok(text) => {
                let appended = self.append(text.as_str());
                drop(text);
                appended
            }
            Err(failed) => {
                drop(failed);
                Err(OutOfMemory)
            }
        }
    }

    /// Binds a value, appends its placeholder, and gives the builder back. A refusal leaves it as it was.
    pub fn push_bind<'t, T: Encode<'t, DB> + SqlType<DB>>(
        &mut self,
        alloc: Global,
        value: T,
    ) -> Result<&mut Self, Fault>
        requires { self.old.built ≡ Bool.false }
        ensures* err { sem 𝓛 (rests DB.ArgumentBuffer.row self.entry (λ b. b.ghost_name) result) }
        ensures same { IfOk result (λ b. b.ghost_name ≡ self.entry.ghost_name) }
        ensures ok { IfOk result (λ b. GainsBound DB.Arguments.placeholder DB.ArgumentBuffer.count DB.ArgumentBuffer.first
            alone (T.encoded value) self.old b.now) }
        ensures unbuilt { IfOk result (λ b. b.now.built ≡ Bool.false) }
        ensures refused { IfErr result (OrWantOfMemory (T.refuses value)) }
    {
        hand_back_or_fault(self.lend_bind(alloc, value))
    }

    fn lend_bind<'t, T: Encode<'t, DB> + SqlType<DB>>(
        &mut self,
        alloc: Global,
        value: T,
    ) -> Result<Lent<'_, DB>, Fault>
        requires { self.old.built ≡ Bool.false }
        ensures* err { sem 𝓛 (rests DB.ArgumentBuffer.row self.entry (λ b. b.0.ghost_name) result) }
        ensures same { IfOk result (λ b. b.0.ghost_name ≡ self.entry.ghost_name) }
        ensures ok { IfOk result (λ b. GainsBound DB.Arguments.placeholder DB.ArgumentBuffer.count DB.ArgumentBuffer.first
            alone (T.encoded value) self.old b.0.now) }
        ensures unbuilt { IfOk result (λ b. b.0.now.built ≡ Bool.false) }
        ensures refused { IfErr result (OrWantOfMemory (T.refuses value)) }
    {
        match self.try_push_bind(alloc, value) {
            Ok(()) => Ok(Lent(self)),
            Err(fault) => Err(fault),
        }
    }

    /// Binds a value, and appends its placeholder. A refusal leaves the builder as it was.
    pub fn try_push_bind<'t, T: Encode<'t, DB> + SqlType<DB>>(
        &mut self,
        alloc: Global,
        value: T,
    ) -> Result<(), Fault>
        requires { self.old.built ≡ Bool.false }
        ensures ok { OnOk result (GainsBound DB.Arguments.placeholder DB.ArgumentBuffer.count DB.ArgumentBuffer.first
            alone (T.encoded value) self.old self.new) }
        ensures err { OnErr result (self.new ≡ self.old) }
        ensures refused { IfErr result (OrWantOfMemory (T.refuses value)) }
    {
        self.bind(alloc, value)
    }

    /// A list whose entries are appended with a separator between them.
    pub fn separated<'s>(&'s mut self, separator: &'s str) -> Separated<'s, DB>
        requires { self.old.built ≡ Bool.false }
        ensures same { result.builder.ghost_name ≡ self.entry.ghost_name }
        ensures builder { result.builder.now ≡ self.old }
        ensures separator { result.separator.now ≡ separator.entry.now }
        ensures none { result.has_piece ≡ Bool.false }
    {
        Separated {
            builder: self,
            separator,
            has_piece: false,
        }
    }

    /// A query of the text with the arguments, which the builder doesn't have any more. Want of memory leaves it as it was.
    pub fn build<'q>(&mut self, alloc: Global) -> Result<Query<'q, DB, DB::Arguments>, OutOfMemory>
        requires { self.old.built ≡ Bool.false }
        ensures query { IfOk result (λ query. (arguments : DB.Arguments)
            × (DB.Arguments.buffered arguments ≡ self.old.arguments)
            × (query ≡ asked.fresh_query self.old.text None (Ok arguments))) }
        ensures none { OnOk result (DB.ArgumentBuffer.count self.new.arguments ≡ 0) }
        ensures ok { OnOk result (self.new ≡ record self.old { arguments = self.new.arguments; built = Bool.true }) }
        ensures err { OnErr result (self.new ≡ self.old) }
    {
        match self.sql(alloc) {
            Ok(sql) => Ok(Query::new(Either::Left(sql), Ok(self.draft.finish(alloc)))),
            Err(want) => Err(want),
        }
    }

    /// A query of what was built, whose rows become values, as [`QueryBuilder::build`] gives it.
    pub fn build_query_as<'q, O>(
        &mut self,
        alloc: Global,
    ) -> Result<QueryAs<'q, DB, O, DB::Arguments>, OutOfMemory>
        requires { self.old.built ≡ Bool.false }
        ensures query { IfOk result (λ made. (arguments : DB.Arguments)
            × (DB.Arguments.buffered arguments ≡ self.old.arguments)
            × (made.query ≡ asked.fresh_query self.old.text None (Ok arguments))) }
        ensures none { OnOk result (DB.ArgumentBuffer.count self.new.arguments ≡ 0) }
        ensures ok { OnOk result (self.new ≡ record self.old { arguments = self.new.arguments; built = Bool.true }) }
        ensures err { OnErr result (self.new ≡ self.old) }
    {
        match self.build(alloc) {
            Ok(query) => Ok(ReadQuery::new(query)),
            Err(want) => Err(want),
        }
    }

    /// A query of what was built, of one value a row, as [`QueryBuilder::build`] gives it.
    pub fn build_query_scalar<'q, O>(
        &mut self,
        alloc: Global,
    ) -> Result<QueryScalar<'q, DB, O, DB::Arguments>, OutOfMemory>
        requires { self.old.built ≡ Bool.false }
        ensures query { IfOk result (λ made. (arguments : DB.Arguments)
            × (DB.Arguments.buffered arguments ≡ self.old.arguments)
            × (made.query ≡ asked.fresh_query self.old.text None (Ok arguments))) }
        ensures none { OnOk result (DB.ArgumentBuffer.count self.new.arguments ≡ 0) }
        ensures ok { OnOk result (self.new ≡ record self.old { arguments = self.new.arguments; built = Bool.true }) }
        ensures err { OnErr result (self.new ≡ self.old) }
    {
        match self.build(alloc) {
            Ok(query) => Ok(ReadQuery::new(query)),
            Err(want) => Err(want),
        }
    }

    /// Cuts the statement back to what it began with, with no arguments; queries can be made of it again.
    pub fn reset(&mut self, alloc: Global) -> &mut Self
        ensures same { result.ghost_name ≡ self.entry.ghost_name }
        ensures none { DB.ArgumentBuffer.count result.now.arguments ≡ 0 }
        ensures begun { result.now ≡ fresh_draft self.old.initial result.now.arguments }
    {
        self.draft.reset(alloc);
        self
    }

    /// The text so far.
    pub fn sql(&self, alloc: Global) -> Result<SqlStr, OutOfMemory>
        ensures { IfOk result (λ sql. sql ≡ self.now.text) }
    {
        AssertSqlSafe(self.draft.as_str()).into_sql_str(alloc)
    }

    /// The text, without its arguments.
    pub fn into_string(self) -> String
        ensures { string_bytes result ≡ self.text }
    {
        let QueryBuilder { draft } = self;
        draft.into_string()
    }

    /// The text as a statement, without its arguments.
    pub fn into_sql(self) -> SqlStr
        ensures { result ≡ self.text }
    {
        let text = self.into_string();
        let alloc = *text.allocator();
        AssertSqlSafe(text).into_sql_str(alloc).unwrap()
    }

    /// Whether a query was made of the builder since the last `reset`.
    pub fn is_built(&self) -> bool
        ensures { result ≡ self.now.built }
    {
        self.draft.is_built()
    }

    pub(crate) fn append(&mut self, sql: &str) -> Result<(), OutOfMemory>
        ensures ok { OnOk result (self.new ≡ with_piece self.old (Piece.Text sql.now)) }
        ensures err { OnErr result (self.new ≡ self.old) }
    {
        self.draft.append(sql)
    }

    pub(crate) fn bind<'t, T: Encode<'t, DB> + SqlType<DB>>(
        &mut self,
        alloc: Global,
        value: T,
    ) -> Result<(), Fault>
        ensures ok { OnOk result (self.new ≡ with_piece self.old
            (Piece.Bound (DB.Arguments.placeholder (DB.ArgumentBuffer.count self.new.arguments)) (T.encoded value))) }
        ensures one { OnOk result (AddsOne DB.ArgumentBuffer.count DB.ArgumentBuffer.first self.old.arguments self.new.arguments) }
        ensures err { OnErr result (self.new ≡ self.old) }
        ensures refused { IfErr result (OrWantOfMemory (T.refuses value)) }
    {
        self.draft.bind(alloc, value)
    }

    pub(crate) fn mark(&self) -> Mark
        ensures text { result.text ≡ length self.now.text }
        ensures arguments { result.arguments ≡ DB.ArgumentBuffer.count self.now.arguments }
        ensures initial { length self.now.initial ≤ length self.now.text }
        ensures valid { IsUtf8 self.now.text }
    {
        self.draft.mark()
    }

    pub(crate) fn cut_back(&mut self, mark: Mark)
        requires initial { length self.old.initial ≤ mark.text }
        requires within { mark.text ≤ length self.old.text }
        requires valid { IsUtf8 (take mark.text self.old.text) }
        ensures { self.new ≡ cut_to DB.ArgumentBuffer.first self.old mark.text mark.arguments }
    {
        self.draft.cut_back(mark)
    }
}
