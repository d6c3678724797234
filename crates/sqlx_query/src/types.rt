//! The types of queries, one a file.
pub(crate) mod map;
pub(crate) mod query;
pub(crate) mod raw_sql;
pub(crate) mod read_query;
pub(crate) mod read_stream;
pub(crate) mod request;
