//! The texts that begin, keep and undo a level of a transaction.
ghost use Rattle.std.specs.Prelude.{◌≡◌, ◌++◌, ◌≤◌, [], length};
ghost use Rattle.std.specs.Fmt.{decimal};
ghost use Rattle.std.specs.Option.{option_map_or};
ghost use Rattle.sqlx_savepoints.specs.Texts.{text_of};

use std::fmt;

/// A text that begins or ends a level. A savepoint goes by its number.
#[derive(Clone, Copy, Debug, PartialEq, Eq)]
pub enum LevelText {
    /// `BEGIN`.
    Begin,
    /// `BEGIN IMMEDIATE`.
    BeginImmediate,
    /// `COMMIT`.
    Commit,
    /// `ROLLBACK`.
    Rollback,
    /// `SAVEPOINT _sqlx_savepoint_N`.
    Savepoint(u64),
    /// `RELEASE SAVEPOINT _sqlx_savepoint_N`.
    Release(u64),
    /// `ROLLBACK TO SAVEPOINT _sqlx_savepoint_N`.
    RollbackTo(u64),
}

impl LevelText {
    /// The words of the text, and the number of a savepoint that stands behind them, if one does.
    #[inline]
    pub fn parts(&self) -> (&'static str, Option<u64>)
        ensures text { text_of self.now ≡ result.0.now ++ option_map_or decimal result.1 [] }
        ensures short { length result.0.now ≤ 39 }
    {
        match *self {
            LevelText::Begin => ("BEGIN", None),
            LevelText::BeginImmediate => ("BEGIN IMMEDIATE", None),
            LevelText::Commit => ("COMMIT", None),
            LevelText::Rollback => ("ROLLBACK", None),
            LevelText::Savepoint(n) => ("SAVEPOINT _sqlx_savepoint_", Some(n)),
            LevelText::Release(n) => ("RELEASE SAVEPOINT _sqlx_savepoint_", Some(n)),
            LevelText::RollbackTo(n) => ("ROLLBACK TO SAVEPOINT _sqlx_savepoint_", Some(n)),
        }
    }
}

impl fmt::Display for LevelText {
    ghost use Rattle.std.specs.Prelude.{Some};
    ghost use Rattle.sqlx_savepoints.specs.Texts.{text_of};

    ghost output = { λ level. Some (text_of level) };

    fn fmt<W: fmt::Write>(&self, f: &mut fmt::Formatter<W>) -> fmt::Result {
        let (words, number) = self.parts();
        f.write_str(words)?;
        match number {
            Some(n) => f.write(n),
            None => Ok(()),
        }
    }
}
