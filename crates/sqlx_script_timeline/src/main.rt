//! Draws what came of a script as a timeline: script, reply, and a column for each client, by events and replies alone.
//! The input is the script, an empty line, and what was written for it. With the word `--svg` it draws a picture.
#![tactic(auto)]

mod cell;
mod clients;
mod picture;
mod rows;
mod table;
mod told;

use rows::Timeline;
use std::alloc::{AllocError, Global};
use std::{env, io};

// The lines of the input: those of the script, and behind the empty line those that were written.
#[derive(Drop)]
struct Given {
    script: Vec<String>,
    written: Vec<String>,
}

fn read(rt: &(impl Input + Alloc<A = Global>), alloc: Global) -> io::Result<Given> {
    let mut input = Given {
        script: Vec::new(alloc),
        written: Vec::new(alloc),
    };
    let mut is_written = false;
    for line in rt.lines(alloc) {
        let line = line?;
        if is_written {
            input.written.push(line)?;
        } else if line.is_empty() {
            is_written = true;
        } else {
            input.script.push(line)?;
        }
    }
    Ok(input)
}

// The rows of the lines that were replied to, the first line's before them and the report's behind them.
fn timeline(alloc: Global, input: &Given) -> Result<Timeline, AllocError> {
    let mut timeline = Timeline::new(alloc);
    let mut written = input.written.iter();
    for line in input.script.iter() {
        let is_first = timeline.is_empty();
        let reply = if is_first { None } else { written.next() };
        let reply = reply.map_or("", |reply| reply.as_str());
        if !timeline.add(alloc, line.as_str(), reply)? {
            break;
        }
    }
    for report in written {
        timeline.close(alloc, report.as_str())?;
    }
    Ok(timeline)
}

// Whether a picture is asked for.
fn is_picture(rt: &HostRuntime) -> io::Result<bool> {
    for word in env::args(rt)?.skip(1) {
        if word.as_str() == "--svg" {
            return Ok(true);
        }
    }
    Ok(false)
}

fn main(rt: HostRuntime) -> io::Result<()> {
    let alloc = rt.alloc();
    let is_picture = is_picture(&rt)?;
    let input = read(&rt, alloc)?;
    let timeline = timeline(alloc, &input)?;
    let drawn = if is_picture {
        picture::picture(alloc, &timeline)?
    } else {
        table::table(alloc, &timeline)?
    };
    print!(rt; "{drawn}")
}
