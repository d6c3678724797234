//! Entries of a list, which are appended to a builder with a separator between them.
ghost use Rattle.std.specs.Prelude.{◌≡◌, Bool, IfErr, OnErr, OnOk};
ghost use Rattle.sqlx_text.specs.declared.fault.Fault.{Fault};
ghost use Rattle.sqlx_query_drafts.specs.Binding.{OrWantOfMemory};
ghost use Rattle.sqlx_query_drafts.specs.Builder.{Gains, GainsEntry, Piece, entry, with_piece};

use crate::QueryBuilder;
use sqlx_text::{Fault, OutOfMemory};
use sqlx_traits::{ArgumentList, Arguments, Database, Encode, SqlType};
use std::alloc::Global;

impl<DB: Database> QueryBuilder<DB> {
    // A text as an entry of a list, which has entries already or none.
    pub(crate) fn push_entry(
        &mut self,
        has_piece: bool,
        separator: &str,
        sql: &str,
    ) -> Result<(), OutOfMemory>
        ensures ok { OnOk result (Gains DB.ArgumentBuffer.count DB.ArgumentBuffer.first self.old (entry has_piece separator.now (Piece.Text sql.now)) self.new) }
        ensures err { OnErr result (self.new ≡ self.old) }
    {
        let mark = self.mark();
        match self.append_separator(has_piece, separator) {
            Ok(()) => match self.append(sql) {
                Ok(()) => Ok(()),
                Err(want) => {
                    self.cut_back(mark);
                    Err(want)
                }
            },
            Err(want) => Err(want),
        }
    }

    // A bound value as an entry of a list.
    pub(crate) fn bind_entry<'t, T: Encode<'t, DB> + SqlType<DB> + Drop>(
        &mut self,
        alloc: Global,
        has_piece: bool,
        separator: &str,
        value: T,
    ) -> Result<(), Fault>
        ensures ok { OnOk result (GainsEntry DB.Arguments.placeholder DB.ArgumentBuffer.count DB.ArgumentBuffer.first
            has_piece separator.now (T.encoded value) self.old self.new) }
        ensures err { OnErr result (self.new ≡ self.old) }
        ensures refused { IfErr result (OrWantOfMemory (T.refuses value)) }
    {
        let mark = self.mark();
        match self.append_separator(has_piece, separator) {
            Ok(()) => match self.bind(alloc, value) {
                Ok(()) => Ok(()),
                Err(fault) => {
                    self.cut_back(mark);
                    Err(fault)
                }
            },
            Err(_want) => {
                drop(value);
                Err(Fault::OutOfMemory)
            }
        }
    }

    fn append_separator(&mut self, has_piece: bool, separator: &str) -> Result<(), OutOfMemory>
        ensures none { OnOk result (has_piece ≡ Bool.false → self.new ≡ self.old) }
        ensures some { OnOk result (has_piece ≡ Bool.true → self.new ≡ with_piece self.old (Piece.Text separator.now)) }
        ensures err { OnErr result (self.new ≡ self.old) }
    {
        if has_piece {
            self.append(separator)
        } else {
            Ok(())
        }
    }
}
