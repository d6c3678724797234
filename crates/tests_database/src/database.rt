//! The database, and how many rows a statement changed.

use crate::{
    ToyArgumentList, ToyArguments, ToyColumn, ToyConnectOptions, ToyConnection, ToyRow,
    ToyStatement, ToyTransactionManager, ToyType, ToyValue,
};
use sqlx_traits::*;

/// The toy database.
pub struct Toy;

impl Database for Toy {
    ghost use Rattle.std.specs.Prelude.{◌∷◌, [], codes};

    type Connection = ToyConnection;

    type TransactionManager = ToyTransactionManager;

    type Row = ToyRow;

    type QueryResult = ToyQueryResult;

    type Column = ToyColumn;

    type TypeInfo = ToyType;

    type Value = ToyValue;

    type Arguments = ToyArguments;

    type ArgumentBuffer = ToyArgumentList;

    type Statement = ToyStatement;

    type Options = ToyConnectOptions;

    ghost called = { codes "Toy" };

    ghost schemes = { codes "toy" ∷ codes "mem" ∷ [] };

    fn name() -> &'static str {
        "Toy"
    }

    fn url_schemes() -> &'static [&'static str] {
        &["toy", "mem"]
    }
}

impl HasStatementCache for Toy {}

/// How many rows a statement changed.
#[derive(Clone, Copy, Debug, PartialEq, Eq)]
pub struct ToyQueryResult(pub u64);

impl QueryResult for ToyQueryResult {
    ghost use Rattle.std.specs.Prelude.{◌+◌, min};

    ghost nothing = { record { 0 = 0 } };

    ghost extended = { λ before next. record { 0 = min (before.0 + next.0) 18446744073709551615 } };

    fn empty() -> Self {
        ToyQueryResult(0)
    }

    fn extend(&mut self, next: Self) {
        self.0 = self.0.saturating_add(next.0);
    }
}
