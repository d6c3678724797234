//! Bytes of a value.
ghost use Rattle.std.specs.Prelude.{◌≡◌, IfOk};

use sqlx_text::OutOfMemory;
use std::alloc::Global;
use std::marker::Model;

/// Bytes of a value.
pub struct AnyBlob {
    bytes: Vec<u8>,
}

impl Drop for AnyBlob {
    fn drop(self) {
        let AnyBlob { bytes } = self;
        drop(bytes);
    }
}

impl Model for AnyBlob {
    ghost use Rattle.std.specs.Prelude.{List, ℕ};

    ghost Value = { List ℕ };

    ghost view = { λ blob. blob.bytes.items };
}

impl AnyBlob {
    /// A copy of the bytes.
    pub fn new(alloc: Global, bytes: &[u8]) -> Result<AnyBlob, OutOfMemory>
        ensures { IfOk result (λ blob. blob ≡ bytes.now) }
    {
        Ok(AnyBlob {
            bytes: Vec::from_slice(alloc, bytes)?,
        })
    }

    /// The bytes that are owned already.
    pub fn from_vec(bytes: Vec<u8>) -> AnyBlob
        ensures { result ≡ bytes.items }
    {
        AnyBlob { bytes }
    }

    /// The bytes.
    pub fn as_slice(&self) -> &[u8]
        ensures { result.now ≡ self.now }
    {
        self.bytes.as_slice()
    }

    /// The bytes, where the value isn't needed any more.
    pub fn into_vec(self) -> Vec<u8>
        ensures { result.items ≡ self }
    {
        let AnyBlob { bytes } = self;
        bytes
    }

    /// The same bytes. In sqlx: `clone`.
    pub fn try_clone(&self, alloc: Global) -> Result<AnyBlob, OutOfMemory>
        ensures { IfOk result (λ copy. copy ≡ self.now) }
    {
        AnyBlob::new(alloc, self.as_slice())
    }
}
