//! The count by which a connection and an executor tell that they may refuse.
ghost use Rattle.std.specs.Prelude.{ℕ};

/// What counts its faults.
pub trait Faults {
    /// How often a call was refused for another cause than want of memory; it never falls.
    ghost faults: { Self → ℕ };
}
