//! A connection at work.
ghost use Rattle.std.specs.Prelude.{◌≡◌, ℕ};
ghost use Rattle.sqlx_savepoints.specs.Rows.{Rows, sees};
ghost use Rattle.mem_store.specs.Store.{Store, Link, at_work};
ghost use Rattle.mem_store.specs.declared.answer.Answer.{Answer as Met};
ghost use Rattle.sqlx_play_acts.specs.ClientActs.{Gives};
ghost use Rattle.sqlx_steps.specs.AtWork.{IsAtRest, IsWithin};

use sqlx_play_acts::{Act, Answer, Reply};
use sqlx_text::OutOfMemory;
use std::alloc::Global;

/// A connection to a database in memory, with the store that it is one of.
pub trait Work {
    // The store.
    ghost store: { Self → Store };

    // The connection.
    ghost link: { Self → Link };

    /// Does an act. The answer meets its statement.
    fn run(&mut self, alloc: Global, act: Act, answer: Answer) -> Result<Reply, OutOfMemory>
        ensures { (met : Met) × Gives act (at_work (store self.old) (link self.old) answer) result (at_work (store self.new) (link self.new) met) };

    /// Gives up the level that is open. It can't be refused.
    fn give_up(&mut self, alloc: Global)
        ensures { (n : ℕ) (before rows : Rows) → IsWithin (store self.old) (link self.old) n before rows → IsAtRest (store self.new) (link self.new) n before };

    /// The value of a key, as the connection sees it. It takes no memory.
    fn seen(&self, key: i64) -> Option<i64>
        ensures { result ≡ sees (link self.now).own (store self.now).rows key };
}
