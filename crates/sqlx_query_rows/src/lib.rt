//! Rows as values: a row becomes a value by hand, or a tuple of its first columns, one after another; a reader or a mapper
//! does so with each row of a query.
#![tactic(auto)]

mod from_column;
mod from_row;
mod map_stream;
mod mapper;
mod reader;
mod tuples;

pub use from_column::FromColumn;
pub use from_row::FromRow;
pub use map_stream::{
    MapManyStream, MapStream, MappedRowList, MappedStepList, map_one, map_optional,
};
pub use mapper::{Each, Mapped, Mapper, TryEach};
pub use reader::{AsRows, AsScalars, Reader};
