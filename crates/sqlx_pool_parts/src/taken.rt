//! A query whose arguments were taken, so that it can be handed on.

ghost use Rattle.std.specs.Prelude.{◌≡◌, Err, IfErr, IfOk, Ok};
ghost use Rattle.sqlx_traits.specs.Handed.{handed};

use sqlx_text::{Fault, OutOfMemory, SqlStr};
use sqlx_traits::{Database, Execute};
use std::alloc::Global;

// A query, and the arguments that were taken of it.
#[derive(Drop)]
pub struct Taken<DB: Database, Q: Execute<DB>> {
    query: Q,
    arguments: Option<DB::Arguments>,
}

impl<DB: Database, Q: Execute<DB>> Taken<DB, Q> {
    // Takes the arguments of a query; what is handed over stays the same.
    pub fn new(query: Q) -> Result<Self, Fault>
        ensures handed { IfOk result (λ taken. handed (λ t. Q.text t.query) (λ t. Ok t.arguments) (λ t. Q.kept t.query) taken ≡ handed Q.text Q.arguments Q.kept query) }
        ensures arguments { IfOk result (λ taken. Q.arguments query ≡ Ok taken.arguments) }
        ensures refused { IfErr result (λ fault. Q.arguments query ≡ Err fault) }
    {
        let mut query = query;
        match query.take_arguments() {
            Ok(arguments) => Ok(Taken { query, arguments }),
            Err(fault) => Err(fault),
        }
    }
}

impl<DB: Database, Q: Execute<DB>> Execute<DB> for Taken<DB, Q> {
    ghost use Rattle.std.specs.Prelude.{Ok};

    ghost text = { λ taken. Q.text taken.query };

    ghost prepared = { λ taken. Q.prepared taken.query };

    ghost arguments = { λ taken. Ok taken.arguments };

    ghost kept = { λ taken. Q.kept taken.query };

    fn sql(self, alloc: Global) -> Result<SqlStr, OutOfMemory> {
        let Taken { query, arguments } = self;
        drop(arguments);
        query.sql(alloc)
    }

    fn statement(&self) -> Option<&DB::Statement> {
        self.query.statement()
    }

    fn take_arguments(&mut self) -> Result<Option<DB::Arguments>, Fault> {
        Ok(self.arguments.take())
    }

    fn persistent(&self) -> bool {
        self.query.persistent()
    }
}
