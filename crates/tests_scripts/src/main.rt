//! Plays recorded scripts by each way to the database, and tells which of them come out otherwise than recorded.
//! The file `folders` names the folders that are played; a folder's `list` has a line for each script: its name, and what it is to end with.
#![tactic(auto)]

use sqlx_play::{ByStore, PlayError, Route, SureSink, SureSource, USAGE, outcome, play_by};
use sqlx_play_client::ByDriver;
use std::alloc::Global;
use std::{fs, io};

// How many scripts came out as recorded, and how many otherwise.
#[derive(Drop)]
struct Tally {
    same: u64,
    other: u64,
}

impl Tally {
    fn count(&mut self, is_same: bool) {
        if is_same {
            self.same = self.same.saturating_add(1);
        } else {
            self.other = self.other.saturating_add(1);
        }
    }
}

// Plays a script. The pool and the database that it leaves are let go.
fn played<R: Route>(
    alloc: Global,
    source: &mut SureSource,
    sink: &mut SureSink,
) -> Result<(), PlayError> {
    drop(play_by::<R, _, _>(alloc, source, sink)?);
    Ok(())
}

// Plays a script, and tells a difference from its record.
fn play_one<R: Route>(
    rt: &HostRuntime,
    folder: &str,
    name: &str,
    wanted: &str,
    tally: &mut Tally,
) -> io::Result<()> {
    let alloc = rt.alloc();
    let script = fs::read(rt, format!(in alloc; "{folder}/{name}.script")?)?;
    let replies = fs::read(rt, format!(in alloc; "{folder}/{name}.out")?)?;
    let mut source = SureSource::new(script);
    let mut sink = SureSink::new(alloc);
    let answer = played::<R>(alloc, &mut source, &mut sink);
    let came = outcome(alloc, USAGE, &answer)?;
    let replies_agree = sink.written() == replies.as_slice();
    let is_same = replies_agree && came.as_str() == wanted;
    tally.count(is_same);
    if is_same {
        Ok(())
    } else if replies_agree {
        println!(rt; "{folder}/{name}: ends with {came}, recorded is {wanted}")
    } else {
        println!(rt; "{folder}/{name}: other replies, and ends with {came}; recorded is {wanted}")
    }
}

// Plays the scripts of a folder's list.
fn play_folder<R: Route>(rt: &HostRuntime, folder: &str, tally: &mut Tally) -> io::Result<()> {
    let list = fs::read_to_string(rt, format!(in rt.alloc(); "{folder}/list")?)?;
    for line in list.lines() {
        match line.split_once(' ') {
            Some((name, wanted)) => play_one::<R>(rt, folder, name, wanted, tally)?,
            None => println!(rt; "{folder}: a line of the list says nothing: {line}")?,
        }
    }
    Ok(())
}

// Plays the scripts of all folders by one way to the database.
fn play_all<R: Route>(rt: &HostRuntime, way: &str) -> io::Result<()> {
    let mut tally = Tally { same: 0, other: 0 };
    let folders = fs::read_to_string(rt, "folders")?;
    for folder in folders.lines() {
        play_folder::<R>(rt, folder, &mut tally)?;
    }
    println!(rt;
        "{way}: {} as recorded, {} otherwise",
        tally.same, tally.other
    )
}

fn main(rt: HostRuntime) -> io::Result<()> {
    play_all::<ByDriver>(&rt, "by the driver")?;
    play_all::<ByStore>(&rt, "straight to the store")
}
