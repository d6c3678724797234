//! Values that can be arguments of a statement.
ghost use Rattle.std.specs.Prelude.{◌≡◌, ◌↔◌, ℕ, IfErr, IfOk, IsTrue, OnErr, OnOk, Option};
ghost use Rattle.sqlx_text.specs.declared.fault.Fault.{Fault};
ghost use Rattle.sqlx_traits.specs.Arguments.{AddsOne};
ghost use Rattle.sqlx_traits.specs.declared.encode.IsNull.{IsNull};

use crate::{ArgumentList, Database};
use sqlx_text::Fault;
use std::alloc::Global;

/// Whether a value was encoded as null.
#[derive(Clone, Copy, Debug, PartialEq, Eq)]
pub enum IsNull {
    Yes,
    No,
}

impl IsNull {
    /// Whether it was.
    pub fn is_null(&self) -> bool
        ensures { IsTrue result ↔ (self.now ≡ IsNull.Yes) }
    {
        matches!(self, IsNull::Yes)
    }
}

/// A value that can be an argument: it adds one argument, and a refusal leaves those that are there.
pub trait Encode<'q, DB: Database>: Sized {
    /// The arguments with this value.
    ghost encoded: { Self → DB.ArgumentBuffer → DB.ArgumentBuffer };

    /// Whether it counts as null.
    ghost null: { Self → IsNull };

    /// What it may be refused with.
    ghost refuses: { Self → Fault → Type 0 };

    /// The type of this very value, where it isn't that of each value of the Rust type.
    ghost produced: { Self → Option DB.TypeInfo };

    /// About how many bytes it takes.
    ghost size: { Self → ℕ };

    /// Adds the value.
    fn encode(self, alloc: Global, buf: &mut DB::ArgumentBuffer) -> Result<IsNull, Fault>
        ensures ok { OnOk result (buf.new ≡ encoded self buf.old) }
        ensures one { OnOk result (AddsOne DB.ArgumentBuffer.count DB.ArgumentBuffer.first buf.old buf.new) }
        ensures told { IfOk result (λ told. told ≡ null self) }
        ensures err { OnErr result (buf.new ≡ buf.old) }
        ensures refused { IfErr result (refuses self) };

    /// Adds the value and leaves it to the caller.
    fn encode_by_ref(&self, alloc: Global, buf: &mut DB::ArgumentBuffer) -> Result<IsNull, Fault>
        ensures ok { OnOk result (buf.new ≡ encoded self.now buf.old) }
        ensures one { OnOk result (AddsOne DB.ArgumentBuffer.count DB.ArgumentBuffer.first buf.old buf.new) }
        ensures told { IfOk result (λ told. told ≡ null self.now) }
        ensures err { OnErr result (buf.new ≡ buf.old) }
        ensures refused { IfErr result (refuses self.now) };

    /// The type of this very value, where it isn't that of each value of the Rust type.
    fn produces(&self) -> Option<DB::TypeInfo>
        ensures { result ≡ produced self.now };

    /// About how many bytes it takes.
    fn size_hint(&self) -> usize
        ensures { result ≡ size self.now };
}

impl<'q, DB: Database, T: Encode<'q, DB>> Encode<'q, DB> for &T {
    ghost encoded = { λ x list. T.encoded x.now list };

    ghost null = { λ x. T.null x.now };

    ghost refuses = { λ x fault. T.refuses x.now fault };

    ghost produced = { λ x. T.produced x.now };

    ghost size = { λ x. T.size x.now };

    fn encode(self, alloc: Global, buf: &mut DB::ArgumentBuffer) -> Result<IsNull, Fault> {
        T::encode_by_ref(self, alloc, buf)
    }

    fn encode_by_ref(&self, alloc: Global, buf: &mut DB::ArgumentBuffer) -> Result<IsNull, Fault> {
        T::encode_by_ref(*self, alloc, buf)
    }

    fn produces(&self) -> Option<DB::TypeInfo> {
        T::produces(*self)
    }

    fn size_hint(&self) -> usize {
        T::size_hint(*self)
    }
}
