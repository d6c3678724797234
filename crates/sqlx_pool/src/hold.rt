//! A pool's connection holds its connection, as a transaction wants it.

use crate::PoolConnectionOf;
use crate::steps::PoolSteps;
use sqlx_traits::Database;
use sqlx_tx::Hold;

impl<DB: Database, S: PoolSteps<DB::Connection, DB::Options>> Hold<DB>
    for PoolConnectionOf<DB::Connection, DB::Options, S> {
    ghost use Rattle.std.specs.Prelude.{refl};

    ghost held = { λ holder. holder.raw };

    ghost holding = { λ holder conn. record holder { raw = conn } };

    ghost puts = { λ _ _. refl };

    ghost keeps = { λ _. refl };

    ghost again = { λ _ _ _. refl };

    fn conn(&self) -> &DB::Connection {
        &self.raw
    }

    fn conn_mut(&mut self) -> &mut DB::Connection {
        &mut self.raw
    }
}
