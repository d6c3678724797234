//! How things are numbered.
ghost use Rattle.std.specs.Prelude.{◌≡◌, ℕ};

/// How things of a kind are numbered. A list implements it for what stands in it.
pub trait Numbering<T> {
    ghost number: { T → ℕ };

    /// The number of a thing.
    fn number(thing: &T) -> u64
        ensures { result ≡ number thing.now };
}
