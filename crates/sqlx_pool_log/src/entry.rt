//! What a log is made of: one mark, or those of a whole loan.

ghost use Rattle.std.specs.Prelude.{◌≡◌, ◌≤◌, length, if◌then◌else◌};
ghost use Rattle.std.specs.List.{list_any};
ghost use Rattle.sqlx_pool_marks.specs.Marks.{is_ended, ends_conn, ends_loan, ends_rest};
ghost use Rattle.sqlx_pool_lists.specs.Balance.{lents};
ghost use Rattle.sqlx_pool_log.specs.Entries.{no_marks, marks_in};

use sqlx_pool_marks::Mark;

/// Some of the marks of a loan, in this order: Asked, Left, Taken, Lent, Ended, Kept. The deadline is a moment and the
/// timeout behind it.
#[derive(Clone, Copy)]
pub struct LoanMarks {
    pub asked: bool,
    pub left: bool,
    pub taken: bool,
    pub lent: bool,
    pub ended: bool,
    pub kept: bool,
    pub client: u32,
    pub ticket: u64,
    pub conn: u64,
    pub moment: u64,
    pub asked_at: u64,
    pub timeout: u64,
}

/// One mark, or some of a loan's.
#[derive(Clone, Copy)]
pub enum Entry {
    One(Mark),
    Loan(LoanMarks),
}

/// None of a loan's marks.
#[inline(always)]
pub fn no_marks() -> LoanMarks
    ensures { result ≡ no_marks }
{
    LoanMarks {
        asked: false,
        left: false,
        taken: false,
        lent: false,
        ended: false,
        kept: false,
        client: 0,
        ticket: 0,
        conn: 0,
        moment: 0,
        asked_at: 0,
        timeout: 0,
    }
}

// One, where it is so.
fn one_if(so: bool) -> usize
    ensures { result ≡ (if so then 1 else 0) }
{
    if so { 1 } else { 0 }
}

impl Entry {
    // How many marks it has.
    #[tactic(auto, using(crate::proofs::Entries::loan_length))]
    pub fn count(&self) -> usize
        ensures count { result ≡ length (marks_in self.now) }
        ensures few { result ≤ 6 }
    {
        match self {
            Entry::One(_) => 1,
            Entry::Loan(loan) => {
                one_if(loan.asked)
                    + one_if(loan.left)
                    + one_if(loan.taken)
                    + one_if(loan.lent)
                    + one_if(loan.ended)
                    + one_if(loan.kept)
            }
        }
    }

    // It has the end of this ticket.
    #[tactic(auto, using(crate::proofs::Tests::ticket_ends_in))]
    pub fn ends_ticket(&self, ticket: u64) -> bool
        ensures { result ≡ list_any (is_ended ticket) (marks_in self.now) }
    {
        match self {
            Entry::One(mark) => matches!(mark, Mark::Ended { ticket: ended } if ticket == *ended),
            Entry::Loan(loan) => loan.ended && ticket == loan.ticket,
        }
    }

    // It has the end of a loan of this connection, or its being lent anew.
    #[tactic(auto, using(crate::proofs::Tests::loan_ends_in))]
    pub fn ends_loan(&self, client: u32, conn: u64) -> bool
        ensures { result ≡ list_any (ends_loan (record { client = client; conn = conn })) (marks_in self.now) }
    {
        match self {
            Entry::One(mark) => match mark {
                Mark::Lent { conn: other, .. }
                | Mark::Kept { conn: other, .. }
                | Mark::Closed { conn: other }
                | Mark::Detached { conn: other }
                | Mark::Leaked { conn: other } => conn == *other,
                _ => false,
            },
            Entry::Loan(loan) => (loan.lent || loan.kept) && conn == loan.conn,
        }
    }

    // It has the end of a rest of this connection, or rests anew.
    #[tactic(auto, using(crate::proofs::Tests::rest_ends_in))]
    pub fn ends_rest(&self, conn: u64, moment: u64) -> bool
        ensures { result ≡ list_any (ends_rest (record { conn = conn; since = moment })) (marks_in self.now) }
    {
        match self {
            Entry::One(mark) => match mark {
                Mark::Kept { conn: other, .. }
                | Mark::Taken { conn: other }
                | Mark::Reaped { conn: other }
                | Mark::Closed { conn: other } => conn == *other,
                _ => false,
            },
            Entry::Loan(loan) => conn == loan.conn && (loan.taken || loan.kept),
        }
    }

    // It has the end of this connection.
    #[tactic(auto, using(crate::proofs::Tests::conn_ends_in))]
    pub fn ends_conn(&self, conn: u64) -> bool
        ensures { result ≡ list_any (ends_conn conn) (marks_in self.now) }
    {
        match self {
            Entry::One(mark) => match mark {
                Mark::Reaped { conn: gone }
                | Mark::Closed { conn: gone }
                | Mark::Detached { conn: gone }
                | Mark::Leaked { conn: gone } => conn == *gone,
                _ => false,
            },
            Entry::Loan(_) => false,
        }
    }

    // How many loans it makes: one at most.
    #[tactic(auto, using(crate::proofs::Entries::lent_in))]
    pub fn lends(&self) -> usize
        ensures count { result ≡ lents (marks_in self.now) }
        ensures few { result ≤ 1 }
    {
        match self {
            Entry::One(mark) => one_if(matches!(mark, Mark::Lent { .. })),
            Entry::Loan(loan) => one_if(loan.lent),
        }
    }
}
