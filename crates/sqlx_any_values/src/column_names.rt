//! The names of columns with their positions.
ghost use Rattle.std.specs.Prelude.{◌≡◌, ◌<◌, ◌↔◌, [], All, IfOk, IsTrue, OnErr, OnOk};
ghost use Rattle.indexmap.specs.IndexMap.{values};
ghost use Rattle.sqlx_any_values.specs.Names.{AreBelow, position_of, with_position};

use indexmap::IndexMap;
use sqlx_text::{OutOfMemory, UStr};
use std::alloc::Global;
use std::marker::Model;

/// Distinct names of columns, each with its position. In sqlx: `HashMap<UStr, usize>`.
pub struct ColumnNames {
    positions: IndexMap<String, usize>,
}

impl Drop for ColumnNames {
    fn drop(self) {
        let ColumnNames { positions } = self;
        drop(positions);
    }
}

impl Model for ColumnNames {
    ghost use Rattle.std.specs.Prelude.{string_bytes};
    ghost use Rattle.sqlx_any_values.specs.Names.{Names, by_texts};

    ghost Value = { Names };

    ghost view = { λ names. by_texts string_bytes names.positions.entries };
}

impl ColumnNames {
    /// No names.
    pub fn new(alloc: Global) -> ColumnNames
        ensures { result ≡ [] }
    {
        ColumnNames {
            positions: IndexMap::new(alloc),
        }
    }

    /// Gives a name a position, in place of an earlier one.
    pub fn insert(&mut self, alloc: Global, name: UStr, position: usize) -> Result<(), OutOfMemory>
        ensures ok { OnOk result (self.new ≡ with_position self.old name position) }
        ensures err { OnErr result (self.new ≡ self.old) }
    {
        let text = name.as_str().to_string(alloc)?;
        self.positions.insert(text, position)?;
        Ok(())
    }

    /// The position of a name, where it has one.
    pub fn get(&self, name: &str) -> Option<usize>
        ensures { result ≡ position_of name.now self.now }
    {
        self.positions.get(name).copied()
    }

    /// The same names. In sqlx: `clone`.
    pub fn try_clone(&self, _alloc: Global) -> Result<ColumnNames, OutOfMemory>
        ensures { IfOk result (λ copy. copy ≡ self.now) }
    {
        Ok(ColumnNames {
            positions: self.positions.clone()?,
        })
    }

    /// Whether each position is below the number of columns.
    pub fn are_below(&self, columns: usize) -> bool
        ensures { IsTrue result ↔ AreBelow self.now columns }
    {
        each_is_below(&self.positions, columns)
    }
}

fn each_is_below(positions: &IndexMap<String, usize>, columns: usize) -> bool
    ensures { IsTrue result ↔ All (λ position. position < columns) (values positions.now) }
{
    positions.values().all(|position| *position < columns)
}
