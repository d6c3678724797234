//! Where a script comes from, and where the replies go.
ghost use Rattle.std.specs.Prelude.{◌≡◌, ℕ, ◌<◌, ◌≤◌, List, Option, Ok, IfOk, IfErr, length};
ghost use Rattle.std.specs.Io.KnownBytes.{ReadConsumes, WriteAppends};
ghost use Rattle.sqlx_player.specs.Faults.{HasFaulted, FailCause};
ghost use Rattle.sqlx_player.specs.Pieces.{TakesPiece};

use crate::failed::Failed;

/// Something to read from. Its faults are counted; where it tells the bytes that are left, a read takes them from the front.
pub trait Source {
    // The bytes that are still to come, where they are known.
    ghost left: { Self → Option (List ℕ) };

    // How many faults there were.
    ghost faults: { Self → ℕ };

    /// Reads into `buf`, and answers how many bytes; 0 for a buffer that isn't empty is the end.
    fn read(&mut self, buf: &mut [u8]) -> Result<usize, Failed>
        ensures within { IfOk result (λ n. n ≤ length buf.new) }
        ensures bytes { ReadConsumes (left self.old) (left self.new) result buf.new }
        ensures rises { faults self.old ≤ faults self.new }
        ensures failed { IfErr result (FailCause (faults self.old) (faults self.new)) };
}

/// Something to write to. Its faults are counted; where it tells the bytes that it has, a write puts more of them
/// behind, and where it tells the pieces, another one.
pub trait Sink {
    // The bytes that were written, where they are known.
    ghost written: { Self → Option (List ℕ) };

    // What each write was handed that didn't fail, where that is known and each took its piece whole.
    ghost pieces: { Self → Option (List (List ℕ)) };

    // How many faults there were.
    ghost faults: { Self → ℕ };

    /// Writes from the front of `buf`, and answers how many bytes; 0 for a buffer that isn't empty counts as a fault.
    fn write(&mut self, buf: &[u8]) -> Result<usize, Failed>
        ensures within { IfOk result (λ n. n ≤ length buf.now) }
        ensures bytes { WriteAppends (written self.old) (written self.new) result buf.now }
        ensures pieces { TakesPiece (pieces self.old) (pieces self.new) result buf.now }
        ensures rises { faults self.old ≤ faults self.new }
        ensures failed { IfErr result (FailCause (faults self.old) (faults self.new)) }
        ensures nothing { result ≡ Ok 0 → 0 < length buf.now → HasFaulted (faults self.old) (faults self.new) };
}
