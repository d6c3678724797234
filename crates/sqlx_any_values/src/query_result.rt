//! What a statement gives beside its rows.
ghost use Rattle.std.specs.Prelude.{◌≡◌};

use sqlx_traits::QueryResult;

/// How many rows a statement changed, and the id of the row that it inserted last.
#[derive(Clone, Copy, Debug, PartialEq, Eq)]
pub struct AnyQueryResult {
    pub rows_affected: u64,
    pub last_insert_id: Option<i64>,
}

impl AnyQueryResult {
    /// How many rows the statement changed.
    pub fn rows_affected(&self) -> u64
        ensures { result ≡ self.now.rows_affected }
    {
        self.rows_affected
    }

    /// The id of the row that the statement inserted last.
    pub fn last_insert_id(&self) -> Option<i64>
        ensures { result ≡ self.now.last_insert_id }
    {
        self.last_insert_id
    }
}

impl QueryResult for AnyQueryResult {
    ghost use Rattle.sqlx_any_values.specs.Results.{no_result, with_next};

    ghost nothing = { no_result };

    ghost extended = { with_next };

    fn empty() -> Self {
        AnyQueryResult {
            rows_affected: 0,
            last_insert_id: None,
        }
    }

    fn extend(&mut self, next: Self) {
        self.rows_affected = self.rows_affected.saturating_add(next.rows_affected);
        self.last_insert_id = next.last_insert_id;
    }
}
