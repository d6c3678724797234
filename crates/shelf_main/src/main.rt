//! A shelf of books in SQLite, in transactions of their own, and counts of copies in SQLite and in memory by one function.
#![tactic(auto)]

mod book;
mod copies;
mod opening;
mod shelf;

use book::Book;
use copies::Copies;
use mem_driver::MemSession;
use sqlite_driver::SqliteConnection;
use sqlx_any::AnyOpen;
use std::alloc::Global;
use std::io;

fn print_shelf(rt: &impl Print, is_refused: bool, books: &[Book]) -> io::Result<()> {
    println!(rt; "a title twice is refused: {is_refused}")?;
    for book in books {
        println!(rt; "{}, {} pages", book.title, book.pages)?;
    }
    Ok(())
}

fn show_shelf<B: AnyOpen>(rt: &impl Print, alloc: Global, url: &str) -> anyhow::Result<()> {
    let (is_refused, books) = shelf::seen::<B>(alloc, url)?;
    let shown = print_shelf(rt, is_refused, &books);
    drop(books);
    Ok(shown?)
}

fn print_copies(rt: &impl Print, url: &str, counts: &[Copies]) -> io::Result<()> {
    for (book, copies) in counts {
        println!(rt; "{url} book {book}: {copies}")?;
    }
    Ok(())
}

// The same function over any database that a URL opens.
fn show_copies<B: AnyOpen>(rt: &impl Print, alloc: Global, url: &str) -> anyhow::Result<()> {
    let counts = copies::counts::<B>(alloc, url)?;
    let shown = print_copies(rt, url, &counts);
    drop(counts);
    Ok(shown?)
}

fn main(rt: HostRuntime) -> anyhow::Result<()> {
    let alloc = rt.alloc();
    show_shelf::<SqliteConnection>(&rt, alloc, "sqlite::memory:")?;
    show_copies::<SqliteConnection>(&rt, alloc, "sqlite::memory:")?;
    show_copies::<MemSession>(&rt, alloc, "mem:")
}
