//! Lists of tuples in parentheses, for `VALUES` and `IN`, each written by a closure.
ghost use Rattle.std.specs.Prelude.{◌≡◌, [], Bool, IfErr, IfOk, OnErr, OnOk, codes};
ghost use Rattle.std.specs.Borrow.{sem};
ghost use Rattle.std.specs.Iterator.{Drains, IsFinite};
ghost use Rattle.sqlx_query.specs.Lending.{rests};
ghost use Rattle.sqlx_query_drafts.specs.Binding.{OrWantOfMemory};
ghost use Rattle.sqlx_query_drafts.specs.Builder.{Appends, Extends, opening, with_pieces};
ghost use Rattle.sqlx_query_drafts.specs.Tuples.{GainsRows, OnlyAppends, RefusesTuple, WritesRow, WritesTuple, WritesTuples, behind};

use crate::lent::{Lent, hand_back_or_fault};
use crate::{QueryBuilder, TupleRow};
use sqlx_text::{Fault, OutOfMemory};
use sqlx_traits::{ArgumentList, Arguments, Database};
use std::alloc::Global;

impl<DB: Database> QueryBuilder<DB> {
    /// Appends `VALUES ` and the tuples in parentheses, with `, ` between them, and gives the builder back.
    /// A refusal leaves it as it was.
    ///
    /// Over no tuples it appends `VALUES ` alone.
    pub fn push_values<
        T: Drop,
        I: Iterator<Item = T> + Drop,
        F: FnMut(&mut TupleRow<DB>, T) -> Result<(), Fault> + Drop,
    >(&mut self, alloc: Global, tuples: I, push_tuple: F) -> Result<&mut Self, Fault>
        requires unbuilt { self.old.built ≡ Bool.false }
        requires callable { F.IsAlwaysCallable push_tuple }
        requires works { OnlyAppends DB.ArgumentBuffer.count DB.ArgumentBuffer.first DB.Arguments.buffered (λ r. r.now.parts) F.step }
        requires can { I.can_next tuples }
        requires ends { IsFinite (I.remaining tuples) }
        ensures* err { sem 𝓛 (rests DB.ArgumentBuffer.row self.entry (λ b. b.ghost_name) result) }
        ensures same { IfOk result (λ b. b.ghost_name ≡ self.entry.ghost_name) }
        ensures ok { IfOk result (λ b. GainsRows DB.ArgumentBuffer.count DB.ArgumentBuffer.first DB.Arguments.buffered (λ r. r.now.parts) F.step
            (Drains I.next_gives tuples) push_tuple (codes "VALUES ") [] self.old b.now) }
        ensures unbuilt { IfOk result (λ b. b.now.built ≡ Bool.false) }
        ensures refused { IfErr result (OrWantOfMemory (RefusesTuple F.step)) }
    {
        hand_back_or_fault(self.lend_values(alloc, tuples, push_tuple))
    }

    fn lend_values<
        T: Drop,
        I: Iterator<Item = T> + Drop,
        F: FnMut(&mut TupleRow<DB>, T) -> Result<(), Fault> + Drop,
    >(&mut self, alloc: Global, tuples: I, push_tuple: F) -> Result<Lent<'_, DB>, Fault>
        requires unbuilt { self.old.built ≡ Bool.false }
        requires callable { F.IsAlwaysCallable push_tuple }
        requires works { OnlyAppends DB.ArgumentBuffer.count DB.ArgumentBuffer.first DB.Arguments.buffered (λ r. r.now.parts) F.step }
        requires can { I.can_next tuples }
        requires ends { IsFinite (I.remaining tuples) }
        ensures* err { sem 𝓛 (rests DB.ArgumentBuffer.row self.entry (λ b. b.0.ghost_name) result) }
        ensures same { IfOk result (λ b. b.0.ghost_name ≡ self.entry.ghost_name) }
        ensures ok { IfOk result (λ b. GainsRows DB.ArgumentBuffer.count DB.ArgumentBuffer.first DB.Arguments.buffered (λ r. r.now.parts) F.step
            (Drains I.next_gives tuples) push_tuple (codes "VALUES ") [] self.old b.0.now) }
        ensures unbuilt { IfOk result (λ b. b.0.now.built ≡ Bool.false) }
        ensures refused { IfErr result (OrWantOfMemory (RefusesTuple F.step)) }
    {
        match self.try_push_values(alloc, tuples, push_tuple) {
            Ok(()) => Ok(Lent(self)),
            Err(fault) => Err(fault),
        }
    }

    /// Appends `VALUES ` and the tuples in parentheses, with `, ` between them. A refusal leaves the builder as it was.
    ///
    /// Over no tuples it appends `VALUES ` alone.
    pub fn try_push_values<
        T: Drop,
        I: Iterator<Item = T> + Drop,
        F: FnMut(&mut TupleRow<DB>, T) -> Result<(), Fault> + Drop,
    >(&mut self, alloc: Global, tuples: I, push_tuple: F) -> Result<(), Fault>
        requires unbuilt { self.old.built ≡ Bool.false }
        requires callable { F.IsAlwaysCallable push_tuple }
        requires works { OnlyAppends DB.ArgumentBuffer.count DB.ArgumentBuffer.first DB.Arguments.buffered (λ r. r.now.parts) F.step }
        requires can { I.can_next tuples }
        requires ends { IsFinite (I.remaining tuples) }
        ensures ok { OnOk result (GainsRows DB.ArgumentBuffer.count DB.ArgumentBuffer.first DB.Arguments.buffered (λ r. r.now.parts) F.step
            (Drains I.next_gives tuples) push_tuple (codes "VALUES ") [] self.old self.new) }
        ensures err { OnErr result (self.new ≡ self.old) }
        ensures refused { IfErr result (OrWantOfMemory (RefusesTuple F.step)) }
    {
        self.push_framed(alloc, tuples, push_tuple, "VALUES ", "")
    }

    /// Appends the tuples in parentheses, with `, ` between them, and ` (` and `) ` around all, and gives the builder back.
    /// A refusal leaves it as it was.
    pub fn push_tuples<
        T: Drop,
        I: Iterator<Item = T> + Drop,
        F: FnMut(&mut TupleRow<DB>, T) -> Result<(), Fault> + Drop,
    >(&mut self, alloc: Global, tuples: I, push_tuple: F) -> Result<&mut Self, Fault>
        requires unbuilt { self.old.built ≡ Bool.false }
        requires callable { F.IsAlwaysCallable push_tuple }
        requires works { OnlyAppends DB.ArgumentBuffer.count DB.ArgumentBuffer.first DB.Arguments.buffered (λ r. r.now.parts) F.step }
        requires can { I.can_next tuples }
        requires ends { IsFinite (I.remaining tuples) }
        ensures* err { sem 𝓛 (rests DB.ArgumentBuffer.row self.entry (λ b. b.ghost_name) result) }
        ensures same { IfOk result (λ b. b.ghost_name ≡ self.entry.ghost_name) }
        ensures ok { IfOk result (λ b. GainsRows DB.ArgumentBuffer.count DB.ArgumentBuffer.first DB.Arguments.buffered (λ r. r.now.parts) F.step
            (Drains I.next_gives tuples) push_tuple (codes " (") (codes ") ") self.old b.now) }
        ensures unbuilt { IfOk result (λ b. b.now.built ≡ Bool.false) }
        ensures refused { IfErr result (OrWantOfMemory (RefusesTuple F.step)) }
    {
        hand_back_or_fault(self.lend_tuples(alloc, tuples, push_tuple))
    }

    fn lend_tuples<
        T: Drop,
        I: Iterator<Item = T> + Drop,
        F: FnMut(&mut TupleRow<DB>, T) -> Result<(), Fault> + Drop,
    >(&mut self, alloc: Global, tuples: I, push_tuple: F) -> Result<Lent<'_, DB>, Fault>
        requires unbuilt { self.old.built ≡ Bool.false }
        requires callable { F.IsAlwaysCallable push_tuple }
        requires works { OnlyAppends DB.ArgumentBuffer.count DB.ArgumentBuffer.first DB.Arguments.buffered (λ r. r.now.parts) F.step }
        requires can { I.can_next tuples }
        requires ends { IsFinite (I.remaining tuples) }
        ensures* err { sem 𝓛 (rests DB.ArgumentBuffer.row self.entry (λ b. b.0.ghost_name) result) }
        ensures same { IfOk result (λ b. b.0.ghost_name ≡ self.entry.ghost_name) }
        ensures ok { IfOk result (λ b. GainsRows DB.ArgumentBuffer.count DB.ArgumentBuffer.first DB.Arguments.buffered (λ r. r.now.parts) F.step
            (Drains I.next_gives tuples) push_tuple (codes " (") (codes ") ") self.old b.0.now) }
        ensures unbuilt { IfOk result (λ b. b.0.now.built ≡ Bool.false) }
        ensures refused { IfErr result (OrWantOfMemory (RefusesTuple F.step)) }
    {
        match self.try_push_tuples(alloc, tuples, push_tuple) {
            Ok(()) => Ok(Lent(self)),
            Err(fault) => Err(fault),
        }
    }

    /// Appends the tuples in parentheses, with `, ` between them, and ` (` and `) ` around all. A refusal leaves the builder as it was.
    pub fn try_push_tuples<
        T: Drop,
        I: Iterator<Item = T> + Drop,
        F: FnMut(&mut TupleRow<DB>, T) -> Result<(), Fault> + Drop,
    >(&mut self, alloc: Global, tuples: I, push_tuple: F) -> Result<(), Fault>
        requires unbuilt { self.old.built ≡ Bool.false }
        requires callable { F.IsAlwaysCallable push_tuple }
        requires works { OnlyAppends DB.ArgumentBuffer.count DB.ArgumentBuffer.first DB.Arguments.buffered (λ r. r.now.parts) F.step }
        requires can { I.can_next tuples }
        requires ends { IsFinite (I.remaining tuples) }
        ensures ok { OnOk result (GainsRows DB.ArgumentBuffer.count DB.ArgumentBuffer.first DB.Arguments.buffered (λ r. r.now.parts) F.step
            (Drains I.next_gives tuples) push_tuple (codes " (") (codes ") ") self.old self.new) }
        ensures err { OnErr result (self.new ≡ self.old) }
        ensures refused { IfErr result (OrWantOfMemory (RefusesTuple F.step)) }
    {
        self.push_framed(alloc, tuples, push_tuple, " (", ") ")
    }

    // Appends a text, the tuples, and another text.
    fn push_framed<
        T: Drop,
        I: Iterator<Item = T> + Drop,
        F: FnMut(&mut TupleRow<DB>, T) -> Result<(), Fault> + Drop,
    >(
        &mut self,
        alloc: Global,
        tuples: I,
        push_tuple: F,
        head: &str,
        tail: &str,
    ) -> Result<(), Fault>
        requires callable { F.IsAlwaysCallable push_tuple }
        requires works { OnlyAppends DB.ArgumentBuffer.count DB.ArgumentBuffer.first DB.Arguments.buffered (λ r. r.now.parts) F.step }
        requires can { I.can_next tuples }
        requires ends { IsFinite (I.remaining tuples) }
        ensures ok { OnOk result (GainsRows DB.ArgumentBuffer.count DB.ArgumentBuffer.first DB.Arguments.buffered (λ r. r.now.parts) F.step
            (Drains I.next_gives tuples) push_tuple head.now tail.now self.old self.new) }
        ensures err { OnErr result (self.new ≡ self.old) }
        ensures refused { IfErr result (OrWantOfMemory (RefusesTuple F.step)) }
    {
        let mark = self.mark();
        match self.write_framed(alloc, tuples, push_tuple, head, tail) {
            Ok(()) => Ok(()),
            Err(fault) => {
                self.cut_back(mark);
                Err(fault)
            }
        }
    }

    // Refused, it may have written a part, as those below.
    fn write_framed<
        T: Drop,
        I: Iterator<Item = T> + Drop,
        F: FnMut(&mut TupleRow<DB>, T) -> Result<(), Fault> + Drop,
    >(
        &mut self,
        alloc: Global,
        tuples: I,
        push_tuple: F,
        head: &str,
        tail: &str,
    ) -> Result<(), Fault>
        requires callable { F.IsAlwaysCallable push_tuple }
        requires works { OnlyAppends DB.ArgumentBuffer.count DB.ArgumentBuffer.first DB.Arguments.buffered (λ r. r.now.parts) F.step }
        requires can { I.can_next tuples }
        requires ends { IsFinite (I.remaining tuples) }
        ensures appends { Extends DB.ArgumentBuffer.count DB.ArgumentBuffer.first self.old self.new }
        ensures ok { OnOk result (GainsRows DB.ArgumentBuffer.count DB.ArgumentBuffer.first DB.Arguments.buffered (λ r. r.now.parts) F.step
            (Drains I.next_gives tuples) push_tuple head.now tail.now self.old self.new) }
        ensures refused { IfErr result (OrWantOfMemory (RefusesTuple F.step)) }
    {
        self.append(head)?;
        self.write_tuples(alloc, tuples, push_tuple)?;
        self.append(tail)?;
        Ok(())
    }

    fn write_tuples<
        T: Drop,
        I: Iterator<Item = T> + Drop,
        F: FnMut(&mut TupleRow<DB>, T) -> Result<(), Fault> + Drop,
    >(&mut self, alloc: Global, tuples: I, mut push_tuple: F) -> Result<(), Fault>
        requires callable { F.IsAlwaysCallable push_tuple }
        requires works { OnlyAppends DB.ArgumentBuffer.count DB.ArgumentBuffer.first DB.Arguments.buffered (λ r. r.now.parts) F.step }
        requires can { I.can_next tuples }
        requires ends { IsFinite (I.remaining tuples) }
        ensures appends { Extends DB.ArgumentBuffer.count DB.ArgumentBuffer.first self.old self.new }
        ensures ok { OnOk result (WritesTuples DB.ArgumentBuffer.count DB.ArgumentBuffer.first DB.Arguments.buffered (λ r. r.now.parts) F.step
            (Drains I.next_gives tuples) push_tuple self.old self.new) }
        ensures refused { IfErr result (OrWantOfMemory (RefusesTuple F.step)) }
    {
        let mut later = false;
        for item in tuples {
            self.write_tuple(alloc, later, &mut push_tuple, item)?;
            later = true;
        }
        Ok(())
    }

    fn write_tuple<T: Drop, F: FnMut(&mut TupleRow<DB>, T) -> Result<(), Fault>>(
        &mut self,
        alloc: Global,
        later: bool,
        push_tuple: &mut F,
        item: T,
    ) -> Result<(), Fault>
        requires callable { F.IsAlwaysCallable push_tuple.old }
        requires works { OnlyAppends DB.ArgumentBuffer.count DB.ArgumentBuffer.first DB.Arguments.buffered (λ r. r.now.parts) F.step }
        ensures again { F.IsAlwaysCallable push_tuple.new }
        ensures appends { Extends DB.ArgumentBuffer.count DB.ArgumentBuffer.first self.old self.new }
        ensures ok { OnOk result (WritesTuple DB.ArgumentBuffer.count DB.ArgumentBuffer.first DB.Arguments.buffered (λ r. r.now.parts) F.step
            later push_tuple.old item push_tuple.new self.old self.new) }
        ensures refused { IfErr result (OrWantOfMemory (RefusesTuple F.step)) }
    {
        self.open_tuple(later)?;
        self.fill_tuple(alloc, push_tuple, item)?;
        self.append(")")?;
        Ok(())
    }

    fn open_tuple(&mut self, later: bool) -> Result<(), OutOfMemory>
        ensures ok { OnOk result (self.new ≡ with_pieces self.old (opening later)) }
        ensures err { OnErr result (self.new ≡ self.old) }
    {
        self.push_entry(later, ", ", "(")
    }

    // What stands between the parentheses.
    #[tactic(auto, using(crate::proofs::RowLemmas::row_written, crate::proofs::RowLemmas::row_refused))]
    fn fill_tuple<T, F: FnMut(&mut TupleRow<DB>, T) -> Result<(), Fault>>(
        &mut self,
        alloc: Global,
        push_tuple: &mut F,
        item: T,
    ) -> Result<(), Fault>
        requires callable { F.IsAlwaysCallable push_tuple.old }
        requires works { OnlyAppends DB.ArgumentBuffer.count DB.ArgumentBuffer.first DB.Arguments.buffered (λ r. r.now.parts) F.step }
        ensures again { F.IsAlwaysCallable push_tuple.new }
        ensures appends { Appends DB.ArgumentBuffer.count DB.ArgumentBuffer.first self.old self.new }
        ensures ok { OnOk result (WritesRow DB.ArgumentBuffer.count DB.ArgumentBuffer.first DB.Arguments.buffered (λ r. r.now.parts) F.step
            push_tuple.old item push_tuple.new self.old self.new) }
        ensures refused { IfErr result (RefusesTuple F.step) }
    {
        let mut row = self.take_row(alloc);
        let answer = push_tuple(&mut row, item);
        self.put_row(row);
        match answer {
            Ok(()) => Ok(()),
            Err(fault) => Err(fault),
        }
    }

    // A row that continues the builder; until it is put back, the builder has nothing.
    fn take_row(&mut self, alloc: Global) -> TupleRow<DB>
        ensures taken { behind DB.Arguments.buffered result.parts ≡ self.old }
        ensures list { result.parts.has_piece ≡ Bool.false }
    {
        TupleRow {
            parts: self.draft.take_row(alloc),
        }
    }

    fn put_row(&mut self, row: TupleRow<DB>)
        ensures put { self.new ≡ behind DB.Arguments.buffered row.parts }
    {
        self.draft.put_row(row.parts)
    }
}
