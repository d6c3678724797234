//! `Any`: a database whose backend is a type parameter, with values, rows and arguments that every
//! backend shares. It exports the traits of a driver too.
#![tactic(auto)]

mod arguments;
mod backend;
mod column;
mod connection;
mod convert;
mod database;
mod describe;
mod executor;
pub mod laws;
mod mapped;
mod native;
mod options;
mod row;
mod statement;
mod transaction;
mod types;
mod value;

pub use arguments::AnyArguments;
pub use backend::{AnyConnectionBackend, AnyOpen};
pub use column::AnyColumn;
pub use connection::AnyConnection;
pub use convert::TakesAnyValues;
pub use database::Any;
pub use describe::Describe;
pub use mapped::ReadsAnyKinds;
pub use options::AnyConnectOptions;
pub use row::AnyRow;
pub use sqlx_any_values::{
    AnyArgumentBuffer, AnyBlob, AnyDriver, AnyQueryResult, AnyRead, AnyTypeInfo, AnyValue,
    AnyValueKind, ColumnNames, expect_scheme, find_driver,
};
pub use sqlx_text::AnyTypeInfoKind;
pub use sqlx_traits::{
    ArgumentList, Arguments, Column, ColumnIndex, ColumnOrigin, Connect, ConnectOptions,
    Connection, Connector, Database, Decode, DecodeOwned, Either, Encode, Execute, ExecuteMany,
    Executor, Faults, Fetch, FetchMany, HasStatementCache, ImmutableArguments, IntoArguments,
    IsNull, QueryResult, ResultList, Row, RowList, SqlType, Statement, StepList, TableColumn,
    TransactionManager, Type, TypeInfo, Value, index_of_name, index_of_position, item_at,
    label_of_name, label_of_position, mismatched_types, question_mark, reads,
};
pub use statement::AnyStatement;
pub use transaction::AnyTransactionManager;
