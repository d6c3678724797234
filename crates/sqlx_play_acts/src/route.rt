//! The ways that a client's act takes to the database.
ghost use Rattle.std.specs.Prelude.{◌≡◌, IfOk, OnOk};
ghost use Rattle.sqlx_play_acts.specs.ClientActs.{left_by, reply_on};

use crate::act::Act;
use crate::link::ClientLink;
use mem_store::{Answer, MemStore};
use sqlx_script::Reply;
use sqlx_text::OutOfMemory;
use std::alloc::Global;

/// A way to the database. Whichever is taken, an act has the same reply and leaves the same database and connection,
/// unless memory is wanting.
pub trait Route {
    /// Does what the client asks for, on the store. The answer meets the statement.
    fn run(
        alloc: Global,
        store: &mut MemStore,
        link: &mut ClientLink,
        act: Act,
        answer: Answer,
    ) -> Result<Reply, OutOfMemory>
        ensures reply { IfOk result (λ reply. reply ≡ reply_on act (record { store = store.old; link = link.old; answer = answer })) }
        ensures link { OnOk result (link.new ≡ (left_by act (record { store = store.old; link = link.old; answer = answer })).link) }
        ensures store { OnOk result (store.new ≡ (left_by act (record { store = store.old; link = link.old; answer = answer })).store) };
}
