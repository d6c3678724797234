//! Cutting a log short: what stays of each entry.

ghost use Rattle.std.specs.Prelude.{◌≡◌, ◌+◌, ◌≤◌, ◌<◌, [], ◌++◌, ◌==◌, ◌&&◌, ◌||◌, false, not, take, drop, length, vec_capacity};
ghost use Rattle.std.specs.List.{list_any};
ghost use Rattle.sqlx_pool_marks.specs.Marks.{is_ended, ends_conn, ends_loan, ends_rest};
ghost use Rattle.sqlx_pool_marks.specs.Cut.{is_last, is_needed, needed_of};
ghost use Rattle.sqlx_pool_log.specs.Entries.{marks_in, marks_at, marks_of_some, loan_marks};
ghost use Rattle.sqlx_pool_log.specs.Cut.{cut_marks, cut_so_far};

use crate::entry::{Entry, LoanMarks};
use sqlx_pool_marks::Mark;

// The number is the last one that was drawn, where this one comes next.
fn is_last(next: u64, number: u64) -> bool
    ensures { result ≡ is_last next number }
{
    number < next && next - number == 1
}

// The ticket has ended, by the entries.
fn ended_among(later: &[Entry], ticket: u64) -> bool
    ensures { result ≡ list_any (λ e. list_any (is_ended ticket) (marks_in e)) later.now }
{
    later.iter().any(|e| e.ends_ticket(ticket))
}

// The same, by the marks.
#[tactic(auto, using(crate::proofs::Tests::any_at))]
fn has_ended(later: &[Entry], ticket: u64) -> bool
    ensures { result ≡ list_any (is_ended ticket) (marks_at later.now) }
{
    ended_among(later, ticket)
}

// A loan of the connection is over, by the entries.
fn returned_among(later: &[Entry], client: u32, conn: u64) -> bool
    ensures { result ≡ list_any (λ e. list_any (ends_loan (record { client = client; conn = conn })) (marks_in e)) later.now }
{
    later.iter().any(|e| e.ends_loan(client, conn))
}

// The same, by the marks.
#[tactic(auto, using(crate::proofs::Tests::any_at))]
fn is_returned(later: &[Entry], client: u32, conn: u64) -> bool
    ensures { result ≡ list_any (ends_loan (record { client = client; conn = conn })) (marks_at later.now) }
{
    returned_among(later, client, conn)
}

// The connection doesn't rest any more, or rests anew, by the entries.
fn stirred_among(later: &[Entry], conn: u64, moment: u64) -> bool
    ensures { result ≡ list_any (λ e. list_any (ends_rest (record { conn = conn; since = moment })) (marks_in e)) later.now }
{
    later.iter().any(|e| e.ends_rest(conn, moment))
}

// The same, by the marks.
#[tactic(auto, using(crate::proofs::Tests::any_at))]
fn is_stirred(later: &[Entry], conn: u64, moment: u64) -> bool
    ensures { result ≡ list_any (ends_rest (record { conn = conn; since = moment })) (marks_at later.now) }
{
    stirred_among(later, conn, moment)
}

// The connection is gone from the pool, by the entries.
fn gone_among(later: &[Entry], conn: u64) -> bool
    ensures { result ≡ list_any (λ e. list_any (ends_conn conn) (marks_in e)) later.now }
{
    later.iter().any(|e| e.ends_conn(conn))
}

// The same, by the marks.
#[tactic(auto, using(crate::proofs::Tests::any_at))]
fn is_gone(later: &[Entry], conn: u64) -> bool
    ensures { result ≡ list_any (ends_conn conn) (marks_at later.now) }
{
    gone_among(later, conn)
}

// A single mark is needed, where these come behind it.
fn is_needed(next_ticket: u64, next_conn: u64, mark: &Mark, later: &[Entry]) -> bool
    ensures { result ≡ is_needed next_ticket next_conn mark.now (marks_at later.now) }
{
    match mark {
        Mark::Asked { ticket, .. } => {
            is_last(next_ticket, *ticket) || !has_ended(later, *ticket)
        }
        Mark::Left { ticket } => !has_ended(later, *ticket),
        Mark::Taken { .. } => false,
        Mark::Opened { conn, .. } => is_last(next_conn, *conn) || !is_gone(later, *conn),
        Mark::Lent { client, conn } => !is_returned(later, *client, *conn),
        Mark::Kept { conn, moment } => !is_stirred(later, *conn, *moment),
        Mark::Reaped { conn } | Mark::Closed { conn } | Mark::Detached { conn } => {
            is_last(next_conn, *conn)
        }
        Mark::Ended { ticket } => is_last(next_ticket, *ticket),
        Mark::Leaked { .. } | Mark::Shut => true,
    }
}

// The ticket of a loan's marks hasn't ended, where these come behind them.
fn is_unended(loan: &LoanMarks, later: &[Entry]) -> bool
    ensures { result ≡ not (loan.now.ended || list_any (is_ended loan.now.ticket) (marks_at later.now)) }
{
    !loan.ended && !has_ended(later, loan.ticket)
}

// Whether the ask of a loan's marks is needed.
fn needs_ask(next_ticket: u64, loan: &LoanMarks, later: &[Entry]) -> bool
    ensures { result ≡ (loan.now.asked && (is_last next_ticket loan.now.ticket || not (loan.now.ended || list_any (is_ended loan.now.ticket) (marks_at later.now)))) }
{
    loan.asked && (is_last(next_ticket, loan.ticket) || is_unended(loan, later))
}

// Whether the loan itself is needed.
fn needs_loan(loan: &LoanMarks, later: &[Entry]) -> bool
    ensures { result ≡ (loan.now.lent && not (loan.now.kept || list_any (ends_loan (record { client = loan.now.client; conn = loan.now.conn })) (marks_at later.now))) }
{
    loan.lent && !loan.kept && !is_returned(later, loan.client, loan.conn)
}

// What a cut leaves of a loan's marks, where these come behind them.
fn cut_marks(next_ticket: u64, loan: &LoanMarks, later: &[Entry]) -> LoanMarks
    ensures { result ≡ cut_marks next_ticket loan.now (marks_at later.now) }
{
    let asked = needs_ask(next_ticket, loan, later);
    let left = loan.left && is_unended(loan, later);
    let lent = needs_loan(loan, later);
    let ended = loan.ended && is_last(next_ticket, loan.ticket);
    let kept = loan.kept && !is_stirred(later, loan.conn, loan.moment);
    LoanMarks {
        asked,
        left,
        taken: false,
        lent,
        ended,
        kept,
        ..*loan
    }
}

// There is a mark among them.
#[tactic(auto, using(crate::proofs::Tests::empty_loan))]
fn has_some(loan: &LoanMarks) -> bool
    ensures { result ≡ false → loan_marks loan.now ≡ [] }
{
    loan.asked || loan.left || loan.taken || loan.lent || loan.ended || loan.kept
}

// What a cut leaves of an entry, where these come behind it.
#[tactic(auto, using(crate::proofs::Cutting::needed_of_loan, crate::proofs::Cutting::needed_of_one))]
fn cut_entry(next_ticket: u64, next_conn: u64, entry: &Entry, later: &[Entry]) -> Option<Entry>
    ensures { needed_of next_ticket next_conn (marks_in entry.now ++ marks_at later.now) ≡ marks_of_some result ++ needed_of next_ticket next_conn (marks_at later.now) }
{
    match entry {
        Entry::One(mark) => {
            if is_needed(next_ticket, next_conn, mark, later) {
                Some(Entry::One(*mark))
            } else {
                None
            }
        }
        Entry::Loan(loan) => {
            let cut = cut_marks(next_ticket, loan, later);
            if has_some(&cut) {
                Some(Entry::Loan(cut))
            } else {
                None
            }
        }
    }
}

// Puts what is needed of an entry behind the kept ones, and tells how many are kept then.
#[tactic(auto, using(crate::proofs::Cutting::cut_step_some, crate::proofs::Cutting::cut_step_none))]
fn keep_entry(
    entries: &mut Vec<Entry>,
    next_ticket: u64,
    next_conn: u64,
    kept: usize,
    at: usize,
) -> usize
    requires before { kept ≤ at }
    requires inside { at < length entries.old.items }
    ensures kept { result ≤ at + 1 }
    ensures says { cut_so_far next_ticket next_conn result (at + 1) entries.new.items ≡ cut_so_far next_ticket next_conn kept at entries.old.items }
    ensures len { length entries.new.items ≡ length entries.old.items }
    ensures capacity { vec_capacity entries.new ≡ vec_capacity entries.old }
{
    match cut_entry(next_ticket, next_conn, &entries[at], &entries[at + 1..]) {
        Some(cut) => {
            entries[kept] = cut;
            kept + 1
        }
        None => kept,
    }
}

/// Leaves of entries the marks that later marks still look at, in their order and in the same memory.
pub fn keep_needed(entries: &mut Vec<Entry>, next_ticket: u64, next_conn: u64)
    ensures marks { marks_at entries.new.items ≡ needed_of next_ticket next_conn (marks_at entries.old.items) }
    ensures capacity { vec_capacity entries.new ≡ vec_capacity entries.old }
    ensures len { length entries.new.items ≤ length entries.old.items }
{
    let mut kept = 0;
    for at in 0..entries.len() {
        kept = keep_entry(entries, next_ticket, next_conn, kept, at);
    }
    entries.truncate(kept);
}
