//! What every connection can be asked: how many of its transactions are open.
ghost use Rattle.std.specs.Prelude.{◌≡◌, ℕ};

/// What has open levels of transactions.
pub trait Depth {
    /// The open levels.
    ghost levels: { Self → ℕ };

    /// How many levels are open: 0 outside of any transaction.
    fn depth(&self) -> usize
        ensures { result ≡ levels self.now };
}
