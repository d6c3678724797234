//! A timeline as a picture that a browser shows.
//!
//! Lines that were read as events, their replies and the words of cells have none of the signs that SVG would take
//! for its own, so texts stand in it as they are.

use crate::cell::{Cell, Shade};
use crate::rows::{Row, Timeline};
use crate::table::{Widths, head};
use std::alloc::{AllocError, Global};

// In pixels: of a character, and of a row.
const CHARACTER: usize = 8;

const ROW: usize = 22;

// Where a row's texts stand, and its blocks.
const BASE: usize = 15;

const BLOCK: usize = 20;

// How far a text stands from the left of its column.
const INDENT: usize = 8;

/// The picture.
pub fn picture(alloc: Global, timeline: &Timeline) -> Result<String, AllocError> {
    let widths = Widths::of(alloc, timeline)?;
    let columns = Columns::of(alloc, &widths)?;
    let mut out = String::new(alloc);
    let height = timeline.rows().len().saturating_add(1).saturating_mul(ROW);
    let width = columns.end;
    out.push_str(format!(in alloc;
        "<svg xmlns=\"http://www.w3.org/2000/svg\" width=\"{width}\" height=\"{height}\" font-family=\"monospace\" font-size=\"13\">\n"
    )?.as_str())?;
    out.push_str("<rect width=\"100%\" height=\"100%\" fill=\"white\"/>\n")?;
    add_text(alloc, &mut out, columns.line, 0, "script")?;
    add_text(alloc, &mut out, columns.reply, 0, "reply")?;
    for (client, left) in timeline.clients().iter().zip(columns.clients.iter()) {
        let head = head(alloc, *client)?;
        add_text(alloc, &mut out, *left, 0, head.as_str())?;
    }
    let mut top = ROW;
    for row in timeline.rows() {
        add_row(alloc, &mut out, timeline, row, top, &widths, &columns)?;
        top = top.saturating_add(ROW);
    }
    out.push_str("</svg>\n")?;
    Ok(out)
}

// Where columns begin, in pixels.
#[derive(Drop)]
struct Columns {
    line: usize,
    reply: usize,
    clients: Vec<usize>,
    end: usize,
}

// How wide a column of so many characters is, in pixels.
fn pixels(width: usize) -> usize {
    width
        .saturating_mul(CHARACTER)
        .saturating_add(INDENT)
        .saturating_add(INDENT)
}

impl Columns {
    fn of(alloc: Global, widths: &Widths) -> Result<Columns, AllocError> {
        let reply = pixels(widths.line);
        let mut columns = Columns {
            line: 0,
            reply,
            clients: Vec::new(alloc),
            end: reply.saturating_add(pixels(widths.reply)),
        };
        for width in widths.clients.iter() {
            columns.clients.push(columns.end)?;
            columns.end = columns.end.saturating_add(pixels(*width));
        }
        Ok(columns)
    }
}

fn add_row(
    alloc: Global,
    out: &mut String,
    timeline: &Timeline,
    row: &Row,
    top: usize,
    widths: &Widths,
    columns: &Columns,
) -> Result<(), AllocError> {
    add_text(alloc, out, columns.line, top, row.line.as_str())?;
    add_text(alloc, out, columns.reply, top, row.reply.as_str())?;
    let places = columns.clients.iter().zip(widths.clients.iter());
    for (client, (left, width)) in timeline.clients().iter().zip(places) {
        for cell in row.cells.iter() {
            if cell.client == *client {
                add_cell(alloc, out, cell, *left, top, pixels(*width))?;
            }
        }
    }
    Ok(())
}

fn add_text(
    alloc: Global,
    out: &mut String,
    left: usize,
    top: usize,
    text: &str,
) -> Result<(), AllocError> {
    let x = left.saturating_add(INDENT);
    let y = top.saturating_add(BASE);
    out.push_str(format!(in alloc; "<text x=\"{x}\" y=\"{y}\">{text}</text>\n")?.as_str())
}

// A block in the client's column, with its text.
fn add_cell(
    alloc: Global,
    out: &mut String,
    cell: &Cell,
    left: usize,
    top: usize,
    width: usize,
) -> Result<(), AllocError> {
    let fill = fill(cell.shade);
    let wide = width.saturating_sub(4);
    out.push_str(format!(in alloc;
        "<rect x=\"{left}\" y=\"{top}\" width=\"{wide}\" height=\"{BLOCK}\" rx=\"3\" fill=\"{fill}\"/>\n"
    )?.as_str())?;
    add_text(alloc, out, left, top, cell.text.as_str())
}

fn fill(shade: Shade) -> &'static str {
    match shade {
        Shade::Waits => "#ffe08a",
        Shade::BacksOff => "#ffb366",
        Shade::Has => "#b7e1b0",
        Shade::InLevel => "#8fc7ea",
    }
}
