//! The rows of a timeline: a line of the script, its reply, and what each client has then.

use crate::cell::Cell;
use crate::clients::Clients;
use crate::told::Told;
use sqlx_script::{read_event, read_pool_line};
use std::alloc::{AllocError, Global};

/// A row.
#[derive(Drop)]
pub struct Row {
    /// The line of the script; empty for the report.
    pub line: String,
    /// What was written for it; empty for the first line.
    pub reply: String,
    /// What the clients have that have something.
    pub cells: Vec<Cell>,
}

/// The rows, and what the clients have behind them.
#[derive(Drop)]
pub struct Timeline {
    rows: Vec<Row>,
    clients: Clients,
    // Whether each poll tells how many tests its letters answer.
    counts_tests: bool,
}

impl Timeline {
    /// A timeline without rows.
    pub fn new(alloc: Global) -> Timeline {
        Timeline {
            rows: Vec::new(alloc),
            clients: Clients::new(alloc),
            counts_tests: false,
        }
    }

    /// Whether there is no row yet.
    pub fn is_empty(&self) -> bool {
        self.rows.is_empty()
    }

    /// The rows.
    pub fn rows(&self) -> &[Row] {
        self.rows.as_slice()
    }

    /// The clients that had something, in order.
    pub fn clients(&self) -> &[u32] {
        self.clients.numbers()
    }

    /// Adds a line with its reply, unless it is a bad line, or an event without a reply. It tells whether it did.
    pub fn add(&mut self, alloc: Global, line: &str, reply: &str) -> Result<bool, AllocError> {
        let whole = format!(in alloc; "{line}\n")?;
        if self.rows.is_empty() {
            match read_pool_line(whole.as_bytes()) {
                Some(first) => self.counts_tests = first.says.counts_tests,
                None => return Ok(false),
            }
        } else {
            match read_event(whole.as_bytes(), self.counts_tests) {
                Some(line) if !reply.is_empty() => self
                    .clients
                    .hear(&line.says.step, Told::by(reply))?,
                _ => return Ok(false),
            }
        }
        self.push(alloc, line, reply)?;
        Ok(true)
    }

    /// Adds the closing report.
    pub fn close(&mut self, alloc: Global, report: &str) -> Result<(), AllocError> {
        self.push(alloc, "", report)
    }

    fn push(&mut self, alloc: Global, line: &str, reply: &str) -> Result<(), AllocError> {
        let row = Row {
            line: String::from_str(alloc, line)?,
            reply: String::from_str(alloc, reply)?,
            cells: self.clients.cells(alloc)?,
        };
        self.rows.push(row)?;
        Ok(())
    }
}
