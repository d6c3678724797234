//! What a driver is: the traits of a database, its connections, arguments, values, rows and statements.
//!
//! Generic code stands on the contracts of these traits alone, so it is proved once for every driver.
#![tactic(auto)]

mod arguments;
mod column;
mod column_index;
mod connect_options;
mod connection;
mod connector;
mod database;
mod decode;
mod encode;
mod execute;
mod execute_many;
mod executor;
mod faults;
mod fetch;
mod query_result;
pub mod reads;
mod row;
mod sql_type;
mod statement;
mod step_list;
mod transaction_manager;
mod type_info;
mod value;

pub use arguments::{ArgumentList, Arguments, ImmutableArguments, IntoArguments, question_mark};
pub use column::{Column, ColumnOrigin, TableColumn};
pub use column_index::{
    ColumnIndex, index_of_name, index_of_position, item_at, label_of_name, label_of_position,
};
pub use connect_options::{Connect, ConnectOptions};
pub use connection::Connection;
pub use connector::Connector;
pub use database::{Database, HasStatementCache};
pub use decode::{Decode, DecodeOwned};
pub use either::Either;
pub use encode::{Encode, IsNull};
pub use execute::Execute;
pub use execute_many::{ExecuteMany, ResultList};
pub use executor::Executor;
pub use faults::Faults;
pub use fetch::{Fetch, RowList};
pub use query_result::QueryResult;
pub use row::Row;
pub use sql_type::{SqlType, SqlType as Type, mismatched_types};
pub use statement::Statement;
pub use step_list::{FetchMany, StepList};
pub use transaction_manager::TransactionManager;
pub use type_info::TypeInfo;
pub use value::Value;
