//! A database: the types that stand for its parts.
ghost use Rattle.std.specs.Prelude.{◌≡◌, ℕ, List, map};

use crate::{
    ArgumentList, Arguments, Column, ConnectOptions, Connection, QueryResult, Row, Statement,
    TransactionManager, TypeInfo, Value,
};

/// A database and the types of its driver. All but a connection may be let go.
pub trait Database: Sized {
    type Connection: Connection<Self>;

    type TransactionManager: TransactionManager<Self>;

    type Row: Row<Self> + Drop;

    type QueryResult: QueryResult + Drop;

    type Column: Column<Self> + Drop;

    type TypeInfo: TypeInfo + Drop;

    type Value: Value<Self> + Drop;

    type Arguments: Arguments<Self> + Drop;

    type ArgumentBuffer: ArgumentList;

    type Statement: Statement<Self> + Drop;

    type Options: ConnectOptions + Drop;

    /// The name of the driver.
    ghost called: { List ℕ };

    /// The schemes of the URLs that the driver reads.
    ghost schemes: { List (List ℕ) };

    /// The name of the driver. In sqlx: `NAME`.
    fn name() -> &'static str
        ensures { result.now ≡ called };

    /// The schemes of the URLs that the driver reads. In sqlx: `URL_SCHEMES`.
    fn url_schemes() -> &'static [&'static str]
        ensures { map (λ scheme. scheme.now) result.now ≡ schemes };
}

/// A database whose connections keep prepared statements.
pub trait HasStatementCache {}
