//! Queries: a text with arguments, what runs it, and what its rows become.
#![tactic(auto)]

mod builder;
mod calls;
mod entries;
mod lent;
mod placeholders;
mod separated;
mod statements;
mod tuple_row;
mod tuples;
mod types;

pub use builder::QueryBuilder;
pub use calls::{
    query, query_as, query_as_with, query_as_with_result, query_scalar, query_scalar_with,
    query_scalar_with_result, query_with, query_with_result, raw_sql,
};
pub use placeholders::placeholders_are_arguments;
pub use separated::Separated;
pub use sqlx_query_rows::{
    AsRows, AsScalars, Each, FromColumn, FromRow, MapManyStream, MapStream, Mapped, MappedRowList,
    MappedStepList, Mapper, Reader, TryEach,
};
pub use statements::{
    StatementQuery, query_statement, query_statement_as, query_statement_as_with,
    query_statement_scalar, query_statement_scalar_with, query_statement_with,
};
pub use tuple_row::TupleRow;
pub use types::map::Map;
pub use types::query::Query;
pub use types::raw_sql::RawSql;
pub use types::read_query::{QueryAs, QueryScalar, ReadQuery};
pub use types::read_stream::{
    QueryAsManyStream, QueryAsStream, QueryScalarManyStream, QueryScalarStream, ReadManyStream,
    ReadStream,
};
