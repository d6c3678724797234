//! Lists whose entries are appended to a statement with a separator between them.
ghost use Rattle.std.specs.Prelude.{◌≡◌, ◌∷◌, [], Bool, IfErr, OnErr, OnOk};
ghost use Rattle.sqlx_text.specs.declared.fault.Fault.{Fault};
ghost use Rattle.sqlx_query_drafts.specs.Binding.{OrWantOfMemory};
ghost use Rattle.sqlx_query_drafts.specs.Builder.{Gains, GainsBound, GainsEntry, Piece, alone, entry};

use crate::QueryBuilder;
use sqlx_text::{Fault, OutOfMemory};
use sqlx_traits::{ArgumentList, Arguments, Database, Encode, SqlType};
use std::alloc::Global;

/// A list whose entries are appended to a builder with a separator between them.
#[derive(Drop)]
pub struct Separated<'qb, DB: Database> {
    pub(crate) builder: &'qb mut QueryBuilder<DB>,
    pub(crate) separator: &'qb str,
    pub(crate) has_piece: bool,
}

impl<'qb, DB: Database> Separated<'qb, DB> {
    /// Appends a text as the next entry. Want of memory leaves the builder as it was.
    pub fn push(&mut self, _alloc: Global, sql: &str) -> Result<(), OutOfMemory>
        ensures same { (self.new.builder.ghost_name ≡ self.old.builder.ghost_name) × (self.new.separator ≡ self.old.separator) }
        ensures begun { OnOk result (self.new.has_piece ≡ Bool.true) }
        ensures ok { OnOk result (Gains DB.ArgumentBuffer.count DB.ArgumentBuffer.first self.old.builder.now
            (entry self.old.has_piece self.old.separator.now (Piece.Text sql.now)) self.new.builder.now) }
        ensures err { OnErr result ((self.new.has_piece ≡ self.old.has_piece) × (self.new.builder.now ≡ self.old.builder.now)) }
    {
        match self.builder.push_entry(self.has_piece, self.separator, sql) {
            Ok(()) => {
                self.has_piece = true;
                Ok(())
            }
            Err(want) => Err(want),
        }
    }

    /// Appends a text that is no entry of the list. Want of memory leaves the builder as it was.
    pub fn push_unseparated(&mut self, _alloc: Global, sql: &str) -> Result<(), OutOfMemory>
        ensures same { (self.new.builder.ghost_name ≡ self.old.builder.ghost_name) × (self.new.separator ≡ self.old.separator) }
        ensures list { self.new.has_piece ≡ self.old.has_piece }
        ensures ok { OnOk result (Gains DB.ArgumentBuffer.count DB.ArgumentBuffer.first self.old.builder.now (Piece.Text sql.now ∷ []) self.new.builder.now) }
        ensures err { OnErr result (self.new.builder.now ≡ self.old.builder.now) }
    {
        self.builder.append(sql)
    }

    /// Binds a value, and appends its placeholder as the next entry. A refusal leaves the builder as it was.
    pub fn push_bind<'t, T: Encode<'t, DB> + SqlType<DB> + Drop>(
        &mut self,
        alloc: Global,
        value: T,
    ) -> Result<(), Fault>
        ensures same { (self.new.builder.ghost_name ≡ self.old.builder.ghost_name) × (self.new.separator ≡ self.old.separator) }
        ensures begun { OnOk result (self.new.has_piece ≡ Bool.true) }
        ensures ok { OnOk result (GainsEntry DB.Arguments.placeholder DB.ArgumentBuffer.count DB.ArgumentBuffer.first
            self.old.has_piece self.old.separator.now (T.encoded value) self.old.builder.now self.new.builder.now) }
        ensures err { OnErr result ((self.new.has_piece ≡ self.old.has_piece) × (self.new.builder.now ≡ self.old.builder.now)) }
        ensures refused { IfErr result (OrWantOfMemory (T.refuses value)) }
    {
        match self
            .builder
            .bind_entry(alloc, self.has_piece, self.separator, value)
        {
            Ok(()) => {
                self.has_piece = true;
                Ok(())
            }
            Err(fault) => Err(fault),
        }
    }

    /// Binds a value, and appends its placeholder, which is no entry of the list. A refusal leaves the builder as it was.
    pub fn push_bind_unseparated<'t, T: Encode<'t, DB> + SqlType<DB>>(
        &mut self,
        alloc: Global,
        value: T,
    ) -> Result<(), Fault>
        ensures same { (self.new.builder.ghost_name ≡ self.old.builder.ghost_name) × (self.new.separator ≡ self.old.separator) }
        ensures list { self.new.has_piece ≡ self.old.has_piece }
        ensures ok { OnOk result (GainsBound DB.Arguments.placeholder DB.ArgumentBuffer.count DB.ArgumentBuffer.first
            alone (T.encoded value) self.old.builder.now self.new.builder.now) }
        ensures err { OnErr result (self.new.builder.now ≡ self.old.builder.now) }
        ensures refused { IfErr result (OrWantOfMemory (T.refuses value)) }
    {
        self.builder.bind(alloc, value)
    }
}
