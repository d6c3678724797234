//! A database in memory that is opened by a URL.

use crate::link::MemLink;
use crate::session::MemSession;
use mem_store::{Answer, MemStore};
use sqlx_any::{AnyConnectOptions, AnyOpen, expect_scheme};
use sqlx_text::Error;
use std::alloc::Global;

impl AnyOpen for MemSession {
    ghost use Rattle.mem_driver.specs.Opened.{Opens};

    ghost opens = { Opens };

    /// Opens a new database, whose only connection it is, by a URL such as `mem:`.
    fn from_options(alloc: Global, options: &AnyConnectOptions) -> Result<Self, Error> {
        expect_scheme(alloc, &options.database_url, "mem")?;
        let mut store = MemStore::new(alloc);
        let link = MemLink::connect(alloc, &mut store)?;
        Ok(MemSession::new(store, link, Answer::Accept))
    }
}
