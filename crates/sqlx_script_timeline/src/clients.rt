//! What each client has: its tickets that haven't ended, and its connections with their levels.

use crate::cell::Cell;
use crate::told::Told;
use sqlx_script::Step;
use std::alloc::{AllocError, Global};

#[derive(Clone, Copy)]
struct Ticket {
    client: u32,
    number: u64,
    backs_off: bool,
}

#[derive(Clone, Copy)]
struct Loan {
    client: u32,
    connection: u64,
    depth: u64,
}

/// What each client has.
#[derive(Drop)]
pub struct Clients {
    numbers: Vec<u32>,
    tickets: Vec<Ticket>,
    loans: Vec<Loan>,
}

impl Clients {
    /// Nobody has anything.
    pub fn new(alloc: Global) -> Clients {
        Clients {
            numbers: Vec::new(alloc),
            tickets: Vec::new(alloc),
            loans: Vec::new(alloc),
        }
    }

    /// The clients that had something, in order.
    pub fn numbers(&self) -> &[u32] {
        self.numbers.as_slice()
    }

    /// Takes in an event and what its reply told.
    pub fn hear(&mut self, step: &Step, told: Told) -> Result<(), AllocError> {
        match *step {
            Step::Ask { client } => self.hear_ask(client, told),
            Step::Poll { client, ticket, .. } => self.hear_poll(client, u64::from(ticket), told),
            Step::Cancel { ticket, .. } => {
                self.hear_end_of_ticket(u64::from(ticket), told);
                Ok(())
            }
            Step::Try { client } => self.hear_loan(client, told),
            Step::Give { connection, .. }
            | Step::End { connection, .. }
            | Step::Detach { connection, .. }
            | Step::Leak { connection, .. } => {
                self.hear_end_of_loan(u64::from(connection), told);
                Ok(())
            }
            Step::Begin { connection, .. }
            | Step::Custom { connection, .. }
            | Step::GiveUp { connection, .. } => {
                self.hear_level(u64::from(connection), told);
                Ok(())
            }
            Step::Commit { connection, .. } | Step::Rollback { connection, .. } => {
                self.hear_end_of_level(u64::from(connection), told);
                Ok(())
            }
            _ => Ok(()),
        }
    }

    fn hear_ask(&mut self, client: u32, told: Told) -> Result<(), AllocError> {
        let Told::Ticket(number) = told else {
            return Ok(());
        };
        self.note(client)?;
        self.tickets.push(Ticket {
            client,
            number,
            backs_off: false,
        })?;
        Ok(())
    }

    fn hear_poll(&mut self, client: u32, ticket: u64, told: Told) -> Result<(), AllocError> {
        match told {
            Told::NotHeld => Ok(()),
            Told::Waiting => {
                self.set_backs_off(ticket, false);
                Ok(())
            }
            Told::BacksOff => {
                self.set_backs_off(ticket, true);
                Ok(())
            }
            _ => {
                self.end_ticket(ticket);
                self.hear_loan(client, told)
            }
        }
    }

    fn hear_loan(&mut self, client: u32, told: Told) -> Result<(), AllocError> {
        let Told::Ready(connection) = told else {
            return Ok(());
        };
        self.note(client)?;
        self.loans.push(Loan {
            client,
            connection,
            depth: 0,
        })?;
        Ok(())
    }

    fn hear_end_of_ticket(&mut self, ticket: u64, told: Told) {
        match told {
            Told::NotHeld => {}
            _ => self.end_ticket(ticket),
        }
    }

    fn hear_end_of_loan(&mut self, connection: u64, told: Told) {
        match told {
            Told::NotHeld => {}
            _ => self.loans.retain(|loan| loan.connection != connection),
        }
    }

    // A refused begin leaves the levels.
    fn hear_level(&mut self, connection: u64, told: Told) {
        if let Told::Level(depth) = told {
            self.set_depth(connection, Some(depth));
        }
    }

    // A refused commit or rollback ends its level, too.
    fn hear_end_of_level(&mut self, connection: u64, told: Told) {
        match told {
            Told::NotHeld => {}
            Told::Level(depth) => self.set_depth(connection, Some(depth)),
            _ => self.set_depth(connection, None),
        }
    }

    fn end_ticket(&mut self, ticket: u64) {
        self.tickets.retain(|held| held.number != ticket);
    }

    fn set_backs_off(&mut self, ticket: u64, backs_off: bool) {
        for held in self.tickets.iter_mut() {
            if held.number == ticket {
                held.backs_off = backs_off;
            }
        }
    }

    // Sets the levels of a connection to this many, or to one less.
    fn set_depth(&mut self, connection: u64, depth: Option<u64>) {
        for loan in self.loans.iter_mut() {
            if loan.connection == connection {
                loan.depth = depth.unwrap_or(loan.depth.saturating_sub(1));
            }
        }
    }

    // Notes that there is such a client.
    fn note(&mut self, client: u32) -> Result<(), AllocError> {
        if self.numbers.contains(&client) {
            return Ok(());
        }
        self.numbers.push(client)?;
        self.numbers.sort()
    }

    /// The cells of the clients that have something.
    pub fn cells(&self, alloc: Global) -> Result<Vec<Cell>, AllocError> {
        let mut cells = Vec::new(alloc);
        for client in self.numbers.iter() {
            let cell = self.cell(alloc, *client)?;
            if !cell.text.is_empty() {
                cells.push(cell)?;
            }
        }
        Ok(cells)
    }

    fn cell(&self, alloc: Global, client: u32) -> Result<Cell, AllocError> {
        let mut cell = Cell::new(alloc, client);
        for ticket in self.tickets.iter() {
            if ticket.client == client {
                cell.add_ticket(ticket.backs_off)?;
            }
        }
        for loan in self.loans.iter() {
            if loan.client == client {
                cell.add_loan(alloc, loan.connection, loan.depth)?;
            }
        }
        Ok(cell)
    }
}
