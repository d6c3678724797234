//! A copy of a pool's log.

ghost use Rattle.std.specs.Prelude.{◌≡◌, length};

use sqlx_pool_marks::Mark;

/// A copy of a pool's log: the marks behind a start, which is empty in a log that was never cut.
#[derive(Drop)]
pub struct MarkLog {
    start: Vec<Mark>,
    lent_before: u64,
    marks: Vec<Mark>,
}

impl MarkLog {
    // The marks behind a start.
    pub fn new(start: Vec<Mark>, lent_before: u64, marks: Vec<Mark>) -> Self
        ensures start { result.start ≡ start }
        ensures before { result.lent_before ≡ lent_before }
        ensures marks { result.marks ≡ marks }
    {
        MarkLog {
            start,
            lent_before,
            marks,
        }
    }

    /// What stands before the marks.
    pub fn start(&self) -> &[Mark]
        ensures { result.now ≡ self.now.start.items }
    {
        self.start.as_slice()
    }

    /// How many marks stand before the marks.
    pub fn start_len(&self) -> usize
        ensures { result ≡ length self.now.start.items }
    {
        self.start.len()
    }

    /// How many loans cuts forgot: with the `Lent` marks of the start and of the marks they are all that were made.
    pub fn lent_before(&self) -> u64
        ensures { result ≡ self.now.lent_before }
    {
        self.lent_before
    }

    /// What the pool's steps did, in their order.
    pub fn marks(&self) -> &[Mark]
        ensures { result.now ≡ self.now.marks.items }
    {
        self.marks.as_slice()
    }
}
