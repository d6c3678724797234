//! What a client does on a connection that it owns, as the script's letter lets it.
ghost use Rattle.std.specs.Prelude.{◌≡◌, IfOk, OnOk};
ghost use Rattle.sqlx_play_acts.specs.ClientActs.{reply_on, left_by};
ghost use Rattle.sqlx_play.specs.events.StatementRuns as spec;

use sqlx_play_acts::{Act, Answer, ClientLink, MemStore, Reply, Route};
use sqlx_script::StatementAnswer;
use sqlx_text::OutOfMemory;
use std::alloc::Global;

fn answer_for(answer: StatementAnswer) -> Answer
    ensures { result ≡ spec.answer_for answer }
{
    match answer {
        StatementAnswer::Runs => Answer::Accept,
        StatementAnswer::StatementIo => Answer::Io,
        StatementAnswer::StatementRefused => Answer::Refuse,
    }
}

/// Does it on a link of the store, where it lies, unless memory is wanting.
pub fn run_on<R: Route>(
    store: &mut MemStore,
    alloc: Global,
    link: &mut ClientLink,
    act: Act,
    answer: StatementAnswer,
) -> Result<Reply, OutOfMemory>
    ensures reply { IfOk result (λ r. r ≡ reply_on act (record { store = store.old; link = link.old; answer = spec.answer_for answer })) }
    ensures link { OnOk result (link.new ≡ (left_by act (record { store = store.old; link = link.old; answer = spec.answer_for answer })).link) }
    ensures store { OnOk result (store.new ≡ (left_by act (record { store = store.old; link = link.old; answer = spec.answer_for answer })).store) }
{
    R::run(alloc, store, link, act, answer_for(answer))
}
