//! How often each kind of text ran.
ghost use Rattle.std.specs.Prelude.{◌≡◌};
ghost use Rattle.mem_store.specs.Acts.{counted, level_counted};

use sqlx_savepoints::LevelText;

/// How many texts ran, each count stopping at the greatest number.
#[derive(Clone, Copy, Debug, PartialEq, Eq)]
pub struct Runs {
    /// Texts that began a level.
    pub begun: u64,
    /// Texts that ended a level, and levels rolled back without a text.
    pub ended: u64,
    /// Writes and deletions.
    pub writes: u64,
    /// Reads.
    pub reads: u64,
}

impl Runs {
    pub(crate) fn count_level(&mut self, level: LevelText)
        ensures { self.new ≡ level_counted level self.old }
    {
        match level {
            LevelText::Begin | LevelText::BeginImmediate | LevelText::Savepoint(_) => {
                self.begun = self.begun.saturating_add(1);
            }
            _ => self.count_ended(),
        }
    }

    pub(crate) fn count_ended(&mut self)
        ensures { self.new ≡ record self.old { ended = counted self.old.ended } }
    {
        self.ended = self.ended.saturating_add(1);
    }

    pub(crate) fn count_write(&mut self)
        ensures { self.new ≡ record self.old { writes = counted self.old.writes } }
    {
        self.writes = self.writes.saturating_add(1);
    }

    pub(crate) fn count_read(&mut self)
        ensures { self.new ≡ record self.old { reads = counted self.old.reads } }
    {
        self.reads = self.reads.saturating_add(1);
    }
}
