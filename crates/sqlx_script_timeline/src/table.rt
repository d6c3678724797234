//! A timeline as text.

use crate::rows::{Row, Timeline};
use std::alloc::{AllocError, Global};

// Between two columns.
const GAP: usize = 2;

/// The widths of a timeline's columns, in characters.
#[derive(Drop)]
pub struct Widths {
    /// Of the script's lines.
    pub line: usize,
    /// Of the replies.
    pub reply: usize,
    /// Of each client, in order.
    pub clients: Vec<usize>,
}

impl Widths {
    /// The widths that the texts need.
    pub fn of(alloc: Global, timeline: &Timeline) -> Result<Widths, AllocError> {
        let mut widths = Widths {
            line: "script".len(),
            reply: "reply".len(),
            clients: Vec::new(alloc),
        };
        for row in timeline.rows() {
            widths.line = widths.line.max(row.line.len());
            widths.reply = widths.reply.max(row.reply.len());
        }
        for client in timeline.clients() {
            let head = head(alloc, *client)?;
            widths
                .clients
                .push(width_of(timeline, *client, head.len()))?;
        }
        Ok(widths)
    }
}

/// The text above a client's column.
pub fn head(alloc: Global, client: u32) -> Result<String, AllocError> {
    format!(in alloc; "client {client}")
}

/// What stands in the client's column of a row.
pub fn text_of(row: &Row, client: u32) -> &str {
    for cell in row.cells.iter() {
        if cell.client == client {
            return cell.text.as_str();
        }
    }
    ""
}

// The width of a client's column, which is at least this.
fn width_of(timeline: &Timeline, client: u32, least: usize) -> usize {
    let mut width = least;
    for row in timeline.rows() {
        width = width.max(text_of(row, client).len());
    }
    width
}

/// The timeline as text, a line for each row.
pub fn table(alloc: Global, timeline: &Timeline) -> Result<String, AllocError> {
    let widths = Widths::of(alloc, timeline)?;
    let mut out = String::new(alloc);
    let mut line = Line::new(alloc);
    line.add("script", widths.line)?;
    line.add("reply", widths.reply)?;
    for (client, width) in timeline.clients().iter().zip(widths.clients.iter()) {
        let head = head(alloc, *client)?;
        line.add(head.as_str(), *width)?;
    }
    line.end(&mut out)?;
    for row in timeline.rows() {
        add_row(alloc, &mut out, timeline, row, &widths)?;
    }
    Ok(out)
}

fn add_row(
    alloc: Global,
    out: &mut String,
    timeline: &Timeline,
    row: &Row,
    widths: &Widths,
) -> Result<(), AllocError> {
    let mut line = Line::new(alloc);
    line.add(row.line.as_str(), widths.line)?;
    line.add(row.reply.as_str(), widths.reply)?;
    for (client, width) in timeline.clients().iter().zip(widths.clients.iter()) {
        line.add(text_of(row, *client), *width)?;
    }
    line.end(out)
}

// A line of texts, each in its column. Blanks are written only before a text, so that none ends the line.
#[derive(Drop)]
struct Line {
    text: String,
    owed: usize,
}

impl Line {
    fn new(alloc: Global) -> Line {
        Line {
            text: String::new(alloc),
            owed: 0,
        }
    }

    fn add(&mut self, text: &str, width: usize) -> Result<(), AllocError> {
        if !text.is_empty() {
            for _ in 0..self.owed {
                self.text.push(' ')?;
            }
            self.text.push_str(text)?;
            self.owed = 0;
        }
        let rest = width.saturating_sub(text.len()).saturating_add(GAP);
        self.owed = self.owed.saturating_add(rest);
        Ok(())
    }

    fn end(self, out: &mut String) -> Result<(), AllocError> {
        out.push_str(self.text.as_str())?;
        out.push('\n')
    }
}
