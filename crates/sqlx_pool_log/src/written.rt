//! The marks of a log, one by one.

ghost use Rattle.std.specs.Prelude.{◌≡◌, ◌++◌, IfOk, OnOk};
ghost use Rattle.sqlx_pool_log.specs.Entries.{mark_if, ask_marks, lent_marks, marks_in, marks_at};

use crate::entry::{Entry, LoanMarks};
use sqlx_pool_marks::Mark;
use std::alloc::{AllocError, Global};

// A mark behind others, where it is so.
fn push_if(marks: &mut Vec<Mark>, so: bool, mark: Mark) -> Result<(), AllocError>
    ensures { OnOk result (marks.new.items ≡ marks.old.items ++ mark_if so mark) }
{
    if !so {
        return Ok(());
    }
    match marks.push(mark) {
        Ok(()) => Ok(()),
        Err(_) => Err(AllocError),
    }
}

// The marks before a loan, behind others.
#[tactic(auto, using(crate::proofs::Entries::write_three))]
fn write_ask(marks: &mut Vec<Mark>, loan: LoanMarks) -> Result<(), AllocError>
    ensures { OnOk result (marks.new.items ≡ marks.old.items ++ ask_marks loan) }
{
    let ticket = loan.ticket;
    let asked = Mark::Asked {
        ticket,
        client: loan.client,
        deadline: u128::from(loan.asked_at) + u128::from(loan.timeout),
    };
    push_if(marks, loan.asked, asked)?;
    push_if(marks, loan.left, Mark::Left { ticket })?;
    push_if(marks, loan.taken, Mark::Taken { conn: loan.conn })
}

// The others of its marks, behind others.
#[tactic(auto, using(crate::proofs::Entries::write_three))]
fn write_loan(marks: &mut Vec<Mark>, loan: LoanMarks) -> Result<(), AllocError>
    ensures { OnOk result (marks.new.items ≡ marks.old.items ++ lent_marks loan) }
{
    let conn = loan.conn;
    let lent = Mark::Lent {
        client: loan.client,
        conn,
    };
    push_if(marks, loan.lent, lent)?;
    push_if(
        marks,
        loan.ended,
        Mark::Ended {
            ticket: loan.ticket,
        },
    )?;
    push_if(
        marks,
        loan.kept,
        Mark::Kept {
            conn,
            moment: loan.moment,
        },
    )
}

// An entry's marks, behind others.
#[tactic(auto, using(crate::proofs::Entries::write_both))]
fn write(marks: &mut Vec<Mark>, entry: Entry) -> Result<(), AllocError>
    ensures { OnOk result (marks.new.items ≡ marks.old.items ++ marks_in entry) }
{
    match entry {
        Entry::One(mark) => push_if(marks, true, mark),
        Entry::Loan(loan) => {
            write_ask(marks, loan)?;
            write_loan(marks, loan)
        }
    }
}

/// The marks of these entries.
pub fn write_all(alloc: Global, entries: &[Entry]) -> Result<Vec<Mark>, AllocError>
    ensures { IfOk result (λ marks. marks.items ≡ marks_at entries.now) }
{
    let mut marks = Vec::new(alloc);
    for at in 0..entries.len() {
        let entry = entries[at];
        write(&mut marks, entry)?;
    }
    Ok(marks)
}
