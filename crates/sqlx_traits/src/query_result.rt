//! What a statement gives beside its rows, such as how many it changed.
ghost use Rattle.std.specs.Prelude.{◌≡◌};

/// The result of a statement.
pub trait QueryResult: Sized {
    /// The result of no statement.
    ghost nothing: { Self };

    /// A result with that of the next statement.
    ghost extended: { Self → Self → Self };

    /// The result of no statement. In sqlx: `default`.
    fn empty() -> Self
        ensures { result ≡ nothing };

    /// Adds the result of the next statement.
    fn extend(&mut self, next: Self)
        ensures { self.new ≡ extended self.old next };
}
