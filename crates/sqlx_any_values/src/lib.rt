//! The values of `Any`, which every backend shares, and what is read of them: their kinds, texts and bytes, arguments as a
//! list of them, the names of columns, and the drivers that a program lists. Nothing here knows a backend.
#![tactic(auto)]

mod any_read;
mod blob;
mod buffer;
mod column_names;
mod driver;
mod drivers;
mod query_result;
mod type_info;
pub mod types;
mod value;

pub use any_read::AnyRead;
pub use blob::AnyBlob;
pub use buffer::AnyArgumentBuffer;
pub use column_names::ColumnNames;
pub use driver::AnyDriver;
pub use drivers::{expect_scheme, find_driver};
pub use query_result::AnyQueryResult;
pub use type_info::AnyTypeInfo;
pub use value::{AnyValue, AnyValueKind};
