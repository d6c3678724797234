//! The database of a backend.

use crate::{
    AnyArgumentBuffer, AnyArguments, AnyColumn, AnyConnectOptions, AnyConnection,
    AnyConnectionBackend, AnyQueryResult, AnyRow, AnyStatement, AnyTransactionManager, AnyTypeInfo,
    AnyValue,
};
use sqlx_traits::{Database, HasStatementCache};
use std::marker::PhantomData;

/// The database whose connections are those of backend `B`.
pub struct Any<B> {
    backend: PhantomData<B>,
}

impl<B: AnyConnectionBackend> Database for Any<B> {
    ghost use Rattle.std.specs.Prelude.{[], codes};

    type Connection = AnyConnection<B>;

    type TransactionManager = AnyTransactionManager<B>;

    type Row = AnyRow;

    type QueryResult = AnyQueryResult;

    type Column = AnyColumn;

    type TypeInfo = AnyTypeInfo;

    type Value = AnyValue;

    type Arguments = AnyArguments;

    type ArgumentBuffer = AnyArgumentBuffer;

    type Statement = AnyStatement;

    type Options = AnyConnectOptions;

    ghost called = { codes "Any" };

    ghost schemes = { [] };

    fn name() -> &'static str {
        "Any"
    }

    fn url_schemes() -> &'static [&'static str] {
        &[]
    }
}

impl<B> HasStatementCache for Any<B> {}
