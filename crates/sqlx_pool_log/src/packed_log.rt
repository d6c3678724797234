//! The log, and what is written to it.

ghost use Rattle.std.specs.Prelude.{◌≡◌, ◌+◌, ◌≤◌, ◌^◌, [], ◌∷◌, ◌++◌, true, false, length, IfOk, IfSome};
ghost use Rattle.sqlx_pool_marks.specs.declared.mark.Mark.{Mark};
ghost use Rattle.sqlx_pool_marks.specs.Cut.{needed_of};
ghost use Rattle.sqlx_pool_lists.specs.Balance.{lents};
ghost use Rattle.sqlx_pool_log.specs.Entries.{marks_in, marks_at};
ghost use Rattle.sqlx_pool_log.specs.PackedLog.{IsLastLoan, IsJustAsked, IsJustTaken};

use crate::cut::keep_needed;
use crate::entry::{Entry, LoanMarks, no_marks};
use crate::written::write_all;
use sqlx_pool_marks::Mark;
use std::alloc::{AllocError, Global};
use std::marker::Model;

// The last entry and its place, where it is of a loan of this connection that wasn't kept.
fn last_unkept(entries: &[Entry], conn: u64) -> Option<(usize, LoanMarks)>
    ensures { IfSome result (λ p. IsLastLoan entries.now p.0 p.1 × (p.1.kept ≡ false) × (p.1.conn ≡ conn)) }
{
    let at = entries.len().checked_sub(1)?;
    match entries[at] {
        Entry::Loan(loan) if loan.lent && !loan.kept && loan.conn == conn => Some((at, loan)),
        _ => None,
    }
}

// The last entry and its place, where it is just the ask of this ticket.
fn last_asked(entries: &[Entry], ticket: u64) -> Option<(usize, LoanMarks)>
    ensures { IfSome result (λ p. IsLastLoan entries.now p.0 p.1 × IsJustAsked ticket p.1) }
{
    let at = entries.len().checked_sub(1)?;
    match entries[at] {
        Entry::Loan(loan)
            if loan.asked
                && !loan.left
                && !loan.taken
                && !loan.lent
                && !loan.ended
                && !loan.kept
                && loan.ticket == ticket => { Some((at, loan)) }
        _ => None,
    }
}

// The last entry and its place, where this ticket took this connection and nothing more, and was asked by this client
// where its ask is there too.
fn last_taken(entries: &[Entry], client: u32, ticket: u64, conn: u64) -> Option<(usize, LoanMarks)>
    ensures { IfSome result (λ p. IsLastLoan entries.now p.0 p.1 × IsJustTaken client ticket conn p.1) }
{
    let at = entries.len().checked_sub(1)?;
    match entries[at] {
        Entry::Loan(loan)
            if loan.left
                && loan.taken
                && !loan.lent
                && !loan.ended
                && !loan.kept
                && loan.ticket == ticket
                && loan.conn == conn
                && (!loan.asked || loan.client == client) => { Some((at, loan)) }
        _ => None,
    }
}

// How many loans these entries make.
fn count_lent(entries: &[Entry]) -> usize
    requires { length entries.now ≤ 2 ^ 60 }
    ensures { result ≡ lents (marks_at entries.now) }
{
    let mut loans = 0;
    for at in 0..entries.len() {
        let entry = &entries[at];
        loans += entry.lends();
    }
    loans
}

// How many marks these entries have.
#[tactic(auto, using(crate::proofs::Entries::few_marks, crate::proofs::Entries::few_first))]
fn count_all(entries: &[Entry]) -> usize
    requires { length entries.now ≤ 2 ^ 60 }
    ensures { result ≡ length (marks_at entries.now) }
{
    let mut marks = 0;
    for at in 0..entries.len() {
        let entry = &entries[at];
        marks += entry.count();
    }
    marks
}

// No log has more entries.
const MOST: usize = 1 << 60;

/// A log of packed marks, in reserved memory.
#[derive(Drop)]
pub struct PackedLog {
    entries: Vec<Entry>,
    // How many marks they are.
    marks: usize,
}

impl Model for PackedLog {
    ghost use Rattle.std.specs.Prelude.{vec_capacity};
    ghost use Rattle.sqlx_pool_log.specs.PackedLog.{PackedRow, row_of, AreCounted};

    ghost Value = { PackedRow };

    ghost view = { λ s. row_of s.entries.items (vec_capacity s.entries) };

    ghost invariant = { λ s. AreCounted s.entries.items s.marks };
}

impl PackedLog {
    /// An empty log with room for so many marks.
    pub fn with_capacity(alloc: Global, room: usize) -> Result<Self, AllocError>
        ensures items { IfOk result (λ log. log.items ≡ []) }
        ensures room { IfOk result (λ log. room ≤ log.capacity) }
    {
        if room > MOST {
            return Err(AllocError);
        }
        match Vec::with_capacity(alloc, room) {
            Ok(entries) => Ok(PackedLog { entries, marks: 0 }),
            Err(_) => Err(AllocError),
        }
    }

    /// How many marks there are.
    pub fn len(&self) -> usize
        ensures { result ≡ length self.now.items }
    {
        self.marks
    }

    /// Reserves room for the marks that are due, and for so many more: false where there is no memory.
    pub fn reserve(&mut self, due: usize, more: usize) -> bool
        ensures items { self.new.items ≡ self.old.items }
        ensures room { result ≡ true → length self.old.items + due + more ≤ self.new.capacity }
        ensures capacity { self.old.capacity ≤ self.new.capacity }
    {
        let free = MOST - self.entries.len();
        if due > free || more > free - due {
            return false;
        }
        self.entries.reserve(due + more).is_ok()
    }

    // Writes an entry.
    #[tactic(auto, using(crate::proofs::Entries::push_items, crate::proofs::Entries::push_length, crate::proofs::Entries::few_marks))]
    fn add(&mut self, entry: Entry)
        requires room { length self.old.items + 1 ≤ self.old.capacity }
        requires some { 1 ≤ length (marks_in entry) }
        ensures items { self.new.items ≡ self.old.items ++ marks_in entry }
        ensures capacity { self.old.capacity ≤ self.new.capacity }
    {
        self.marks += entry.count();
        self.entries.push_reserved(entry);
    }

    /// Writes a mark.
    pub fn push(&mut self, mark: Mark)
        requires { length self.old.items + 1 ≤ self.old.capacity }
        ensures items { self.new.items ≡ self.old.items ++ mark ∷ [] }
        ensures capacity { self.old.capacity ≤ self.new.capacity }
    {
        self.add(Entry::One(mark));
    }

    /// Writes that a ticket was asked.
    pub fn ask(&mut self, client: u32, ticket: u64, asked_at: u64, timeout: u64)
        requires { length self.old.items + 1 ≤ self.old.capacity }
        ensures items { self.new.items ≡ self.old.items ++ Mark.Asked ticket client (asked_at + timeout) ∷ [] }
        ensures capacity { self.old.capacity ≤ self.new.capacity }
    {
        self.add(Entry::Loan(LoanMarks {
            asked: true,
            client,
            ticket,
            asked_at,
            timeout,
            ..no_marks()
        }));
    }

    /// Writes the marks of an ask that is served at once.
    pub fn serve(&mut self, client: u32, ticket: u64, asked_at: u64, timeout: u64, conn: u64)
        requires { length self.old.items + 1 ≤ self.old.capacity }
        ensures items { self.new.items ≡ self.old.items ++ Mark.Asked ticket client (asked_at + timeout) ∷ Mark.Left ticket ∷ Mark.Taken conn ∷ Mark.Lent client conn ∷ Mark.Ended ticket ∷ [] }
        ensures capacity { self.old.capacity ≤ self.new.capacity }
    {
        self.add(Entry::Loan(LoanMarks {
            asked: true,
            left: true,
            taken: true,
            lent: true,
            ended: true,
            client,
            ticket,
            conn,
            asked_at,
            timeout,
            ..no_marks()
        }));
    }

    /// Writes the marks of a loan past the line.
    pub fn lend_past(&mut self, client: u32, conn: u64)
        requires { length self.old.items + 1 ≤ self.old.capacity }
        ensures items { self.new.items ≡ self.old.items ++ Mark.Taken conn ∷ Mark.Lent client conn ∷ [] }
        ensures capacity { self.old.capacity ≤ self.new.capacity }
    {
        self.add(Entry::Loan(LoanMarks {
            taken: true,
            lent: true,
            client,
            conn,
            ..no_marks()
        }));
    }

    /// Writes that a connection was kept: into the entry of its loan, where that is the last one.
    #[tactic(auto, using(crate::proofs::Entries::few_marks))]
    pub fn keep(&mut self, conn: u64, moment: u64)
        requires { length self.old.items + 1 ≤ self.old.capacity }
        ensures items { self.new.items ≡ self.old.items ++ Mark.Kept conn moment ∷ [] }
        ensures capacity { self.old.capacity ≤ self.new.capacity }
    {
        match last_unkept(&self.entries, conn) {
            Some((at, loan)) => {
                self.entries[at] = Entry::Loan(LoanMarks {
                    kept: true,
                    moment,
                    ..loan
                });
                self.marks += 1;
            }
            None => self.push(Mark::Kept { conn, moment }),
        }
    }

    /// Writes that a ticket left the line and took a connection: into the entry of its ask, where that is the last one.
    #[tactic(auto, using(crate::proofs::Entries::few_marks))]
    pub fn take(&mut self, ticket: u64, conn: u64)
        requires { length self.old.items + 1 ≤ self.old.capacity }
        ensures items { self.new.items ≡ self.old.items ++ Mark.Left ticket ∷ Mark.Taken conn ∷ [] }
        ensures capacity { self.old.capacity ≤ self.new.capacity }
    {
        match last_asked(&self.entries, ticket) {
            Some((at, loan)) => {
                self.entries[at] = Entry::Loan(LoanMarks {
                    left: true,
                    taken: true,
                    conn,
                    ..loan
                });
                self.marks += 2;
            }
            None => self.add(Entry::Loan(LoanMarks {
                left: true,
                taken: true,
                ticket,
                conn,
                ..no_marks()
            })),
        }
    }

    /// Writes that a connection was lent and its ticket ended: into the entry of its taking, where that is the last one.
    #[tactic(auto, using(crate::proofs::Entries::few_marks))]
    pub fn lend(&mut self, client: u32, ticket: u64, conn: u64)
        requires { length self.old.items + 1 ≤ self.old.capacity }
        ensures items { self.new.items ≡ self.old.items ++ Mark.Lent client conn ∷ Mark.Ended ticket ∷ [] }
        ensures capacity { self.old.capacity ≤ self.new.capacity }
    {
        match last_taken(&self.entries, client, ticket, conn) {
            Some((at, loan)) => {
                self.entries[at] = Entry::Loan(LoanMarks {
                    lent: true,
                    ended: true,
                    client,
                    ..loan
                });
                self.marks += 2;
            }
            None => self.add(Entry::Loan(LoanMarks {
                lent: true,
                ended: true,
                client,
                ticket,
                conn,
                ..no_marks()
            })),
        }
    }

    /// Leaves the marks that later ones still look at. It takes no memory.
    pub fn cut(&mut self, next_ticket: u64, next_conn: u64)
        ensures items { self.new.items ≡ needed_of next_ticket next_conn self.old.items }
        ensures room { self.old.capacity + length self.new.items ≤ self.new.capacity + length self.old.items }
    {
        keep_needed(&mut self.entries, next_ticket, next_conn);
        self.marks = count_all(&self.entries);
    }

    /// How many loans its marks make.
    pub fn lents(&self) -> usize
        ensures { result ≡ lents self.now.items }
    {
        count_lent(&self.entries)
    }

    /// Its marks, one by one.
    pub fn marks(&self, alloc: Global) -> Result<Vec<Mark>, AllocError>
        ensures { IfOk result (λ marks. marks.items ≡ self.now.items) }
    {
        write_all(alloc, &self.entries)
    }
}
