//! The row that a closure writes a tuple of values into.
ghost use Rattle.std.specs.Prelude.{◌≡◌, ◌∷◌, [], Bool, IfErr, OnErr, OnOk};
ghost use Rattle.sqlx_text.specs.declared.fault.Fault.{Fault};
ghost use Rattle.sqlx_query_drafts.specs.Binding.{OrWantOfMemory};
ghost use Rattle.sqlx_query_drafts.specs.Builder.{Appends, Piece, alone};
ghost use Rattle.sqlx_query_drafts.specs.Tuples.{RowGains, RowGainsBound, behind, comma};

use crate::QueryBuilder;
use sqlx_query_drafts::{RowParts, StatementDraft};
use sqlx_text::{Fault, OutOfMemory};
use sqlx_traits::{ArgumentList, Arguments, Database, Encode, SqlType};
use std::alloc::Global;

/// The row of a tuple, whose entries are appended with `, ` between them. In sqlx: the `Separated` that the closure of
/// `push_values` is handed.
#[derive(Drop)]
pub struct TupleRow<DB: Database> {
    pub(crate) parts: RowParts<DB::Arguments>,
}

impl<DB: Database> TupleRow<DB> {
    /// Appends a text as the next entry. Want of memory leaves the row as it was.
    pub fn push(&mut self, alloc: Global, sql: &str) -> Result<(), OutOfMemory>
        ensures appends { Appends DB.ArgumentBuffer.count DB.ArgumentBuffer.first (behind DB.Arguments.buffered self.old.parts) (behind DB.Arguments.buffered self.new.parts) }
        ensures begun { OnOk result (self.new.parts.has_piece ≡ Bool.true) }
        ensures ok { OnOk result (RowGains DB.ArgumentBuffer.count DB.ArgumentBuffer.first DB.Arguments.buffered
            (comma self.old.parts (Piece.Text sql.now)) self.old.parts self.new.parts) }
        ensures err { OnErr result (behind DB.Arguments.buffered self.new.parts ≡ behind DB.Arguments.buffered self.old.parts) }
        ensures list { OnErr result (self.new.parts.has_piece ≡ self.old.parts.has_piece) }
    {
        let mut builder = self.take(alloc);
        let answer = builder.push_entry(self.parts.has_piece, ", ", sql);
        self.put(builder);
        match answer {
            Ok(()) => {
                self.parts.has_piece = true;
                Ok(())
            }
            Err(want) => Err(want),
        }
    }

    /// Appends a text that is no entry. Want of memory leaves the row as it was.
    #[tactic(auto, using(crate::proofs::RowLemmas::appends_none, crate::proofs::RowLemmas::appends_some))]
    pub fn push_unseparated(&mut self, alloc: Global, sql: &str) -> Result<(), OutOfMemory>
        ensures appends { Appends DB.ArgumentBuffer.count DB.ArgumentBuffer.first (behind DB.Arguments.buffered self.old.parts) (behind DB.Arguments.buffered self.new.parts) }
        ensures list { self.new.parts.has_piece ≡ self.old.parts.has_piece }
        ensures ok { OnOk result (RowGains DB.ArgumentBuffer.count DB.ArgumentBuffer.first DB.Arguments.buffered (Piece.Text sql.now ∷ []) self.old.parts self.new.parts) }
        ensures err { OnErr result (behind DB.Arguments.buffered self.new.parts ≡ behind DB.Arguments.buffered self.old.parts) }
    {
        let mut builder = self.take(alloc);
        let answer = builder.append(sql);
        self.put(builder);
        match answer {
            Ok(()) => Ok(()),
            Err(want) => Err(want),
        }
    }

    /// Binds a value, and appends its placeholder as the next entry. A refusal leaves the row as it was.
    #[tactic(auto, using(crate::proofs::RowLemmas::appends_none, crate::proofs::RowLemmas::appends_some))]
    pub fn push_bind<'t, T: Encode<'t, DB> + SqlType<DB> + Drop>(
        &mut self,
        alloc: Global,
        value: T,
    ) -> Result<(), Fault>
        ensures appends { Appends DB.ArgumentBuffer.count DB.ArgumentBuffer.first (behind DB.Arguments.buffered self.old.parts) (behind DB.Arguments.buffered self.new.parts) }
        ensures begun { OnOk result (self.new.parts.has_piece ≡ Bool.true) }
        ensures ok { OnOk result (RowGainsBound DB.Arguments.placeholder DB.ArgumentBuffer.count DB.ArgumentBuffer.first DB.Arguments.buffered
            (comma self.old.parts) (T.encoded value) self.old.parts self.new.parts) }
        ensures err { OnErr result (behind DB.Arguments.buffered self.new.parts ≡ behind DB.Arguments.buffered self.old.parts) }
        ensures list { OnErr result (self.new.parts.has_piece ≡ self.old.parts.has_piece) }
        ensures refused { IfErr result (OrWantOfMemory (T.refuses value)) }
    {
        let mut builder = self.take(alloc);
        let answer = builder.bind_entry(alloc, self.parts.has_piece, ", ", value);
        self.put(builder);
        match answer {
            Ok(()) => {
                self.parts.has_piece = true;
                Ok(())
            }
            Err(fault) => Err(fault),
        }
    }

    /// Binds a value, and appends its placeholder, which is no entry. A refusal leaves the row as it was.
    #[tactic(auto, using(crate::proofs::RowLemmas::appends_none, crate::proofs::RowLemmas::appends_some))]
    pub fn push_bind_unseparated<'t, T: Encode<'t, DB> + SqlType<DB>>(
        &mut self,
        alloc: Global,
        value: T,
    ) -> Result<(), Fault>
        ensures appends { Appends DB.ArgumentBuffer.count DB.ArgumentBuffer.first (behind DB.Arguments.buffered self.old.parts) (behind DB.Arguments.buffered self.new.parts) }
        ensures list { self.new.parts.has_piece ≡ self.old.parts.has_piece }
        ensures ok { OnOk result (RowGainsBound DB.Arguments.placeholder DB.ArgumentBuffer.count DB.ArgumentBuffer.first DB.Arguments.buffered
            alone (T.encoded value) self.old.parts self.new.parts) }
        ensures err { OnErr result (behind DB.Arguments.buffered self.new.parts ≡ behind DB.Arguments.buffered self.old.parts) }
        ensures refused { IfErr result (OrWantOfMemory (T.refuses value)) }
    {
        let mut builder = self.take(alloc);
        let answer = builder.bind(alloc, value);
        self.put(builder);
        match answer {
            Ok(()) => Ok(()),
            Err(fault) => Err(fault),
        }
    }

    // The builder that the row continues; until it is put back, the row continues nothing.
    fn take(&mut self, alloc: Global) -> QueryBuilder<DB>
        ensures taken { result ≡ behind DB.Arguments.buffered self.old.parts }
        ensures list { self.new.parts.has_piece ≡ self.old.parts.has_piece }
    {
        QueryBuilder {
            draft: StatementDraft::take_of(alloc, &mut self.parts),
        }
    }

    fn put(&mut self, builder: QueryBuilder<DB>)
        ensures put { behind DB.Arguments.buffered self.new.parts ≡ builder }
        ensures list { self.new.parts.has_piece ≡ self.old.parts.has_piece }
    {
        builder.draft.put_into(&mut self.parts)
    }
}
