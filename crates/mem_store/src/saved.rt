//! A savepoint on the list, and a write that can be undone.

/// A savepoint: its name, and how many changes stood noted when it was set.
#[derive(Clone, Copy)]
pub(crate) struct Saved {
    pub(crate) name: u64,
    pub(crate) mark: usize,
}

/// A change of the own writes: its key, and what stood there before, if anything.
#[derive(Clone, Copy)]
pub(crate) struct Change {
    pub(crate) key: i64,
    pub(crate) before: Option<Option<i64>>,
}

/// A row that was overwritten: its key, and its value before, if any.
#[derive(Clone, Copy)]
pub(crate) struct Overwrite {
    pub(crate) key: i64,
    pub(crate) before: Option<i64>,
}
