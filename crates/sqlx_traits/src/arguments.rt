//! The arguments of a statement, in the order in which they were added.
ghost use Rattle.std.specs.Prelude.{◌≡◌, ◌+◌, ◌++◌, ◌∷◌, [], ◌≤◌, ℕ, IfErr, List, OnErr, OnOk, codes, min, string_bytes};
ghost use Rattle.std.specs.Borrow.{Lends, sem};
ghost use Rattle.sqlx_traits.specs.Arguments.{AddsOne};

use crate::{Database, Encode, SqlType};
use sqlx_text::{Fault, OutOfMemory};
use std::alloc::Global;

/// Arguments as a driver encodes them.
pub trait ArgumentList: Sized {
    /// How many arguments there are.
    ghost count: { Self → ℕ };

    /// The first so many of them.
    ghost first: { ℕ → Self → Self };

    /// How many arguments there are.
    fn len(&self) -> usize
        ensures { result ≡ count self.now };

    /// The first so many are that many, or all where there are fewer.
    ghost counts_first: { (n : ℕ) (list : Self) → count (first n list) ≡ min n (count list) };

    /// As many as there are, or more, are all of them.
    ghost first_of_all: { (n : ℕ) (list : Self) → count list ≤ n → first n list ≡ list };
}

/// The arguments of a statement.
pub trait Arguments<DB: Database>: Sized {
    /// The arguments as the driver encodes them.
    ghost buffered: { Self → DB.ArgumentBuffer };

    /// The same with another list of arguments.
    ghost with_buffer: { Self → DB.ArgumentBuffer → Self };

    /// What stands in a statement's text for the argument of this number, from 1.
    ghost placeholder: { ℕ → List ℕ } = { λ _. 63 ∷ [] };

    /// Adds an argument behind those that are there. A refusal leaves them as they were.
    final fn add<'t, T: Encode<'t, DB> + SqlType<DB>>(
        &mut self,
        alloc: Global,
        value: T,
    ) -> Result<(), Fault>
        ensures ok { OnOk result (buffered self.new ≡ T.encoded value (buffered self.old)) }
        ensures one { OnOk result (AddsOne DB.ArgumentBuffer.count DB.ArgumentBuffer.first (buffered self.old) (buffered self.new)) }
        ensures err { OnErr result (self.new ≡ self.old) }
        ensures refused { IfErr result (T.refuses value) }
    {
        match value.encode(alloc, self.buffer()) {
            Ok(_is_null) => Ok(()),
            Err(fault) => Err(fault),
        }
    }

    /// No arguments. In sqlx: `default`.
    fn new(alloc: Global) -> Self
        ensures { DB.ArgumentBuffer.count (buffered result) ≡ 0 };

    /// Makes room for so many more arguments, of `size` bytes together.
    fn reserve(&mut self, alloc: Global, additional: usize, size: usize) -> Result<(), OutOfMemory>
        ensures { self.new ≡ self.old };

    /// The arguments as the driver encodes them.
    fn buffer(&mut self) -> &mut DB::ArgumentBuffer
        ensures* lends { sem 𝓛 (Lends Self.row DB.ArgumentBuffer.row self.entry result (with_buffer self.old)) }
        ensures value { result.now ≡ buffered self.old };

    /// How many arguments there are.
    fn len(&self) -> usize
        ensures { result ≡ DB.ArgumentBuffer.count (buffered self.now) };

    /// Keeps the first `len` arguments, and all where there are fewer.
    fn truncate(&mut self, len: usize)
        ensures { self.new ≡ with_buffer self.old (DB.ArgumentBuffer.first len (buffered self.old)) };

    /// Writes what stands in a statement's text for the argument that was added last; mostly `?`, by [`question_mark`].
    fn format_placeholder(&self, alloc: Global, out: &mut String) -> Result<(), OutOfMemory>
        ensures ok { OnOk result (string_bytes out.new ≡ string_bytes out.old ++ placeholder (DB.ArgumentBuffer.count (buffered self.now))) }
        ensures err { OnErr result (string_bytes out.new ≡ string_bytes out.old) };

    /// A list that is put in is the one that is there.
    ghost puts: { (args : Self) (list : DB.ArgumentBuffer) → buffered (with_buffer args list) ≡ list };

    /// Putting back what was there changes nothing.
    ghost keeps: { (args : Self) → with_buffer args (buffered args) ≡ args };
}

/// Writes a question mark, the placeholder of most databases.
pub fn question_mark(out: &mut String) -> Result<(), OutOfMemory>
    ensures ok { OnOk result (string_bytes out.new ≡ string_bytes out.old ++ codes "?") }
    ensures err { OnErr result (string_bytes out.new ≡ string_bytes out.old) }
{
    match out.push_str("?") {
        Ok(()) => Ok(()),
        Err(failed) => {
            drop(failed);
            Err(OutOfMemory)
        }
    }
}

/// What can be turned into the arguments of a statement.
pub trait IntoArguments<DB: Database>: Sized {
    /// The arguments that it becomes.
    ghost becomes: { Self → DB.Arguments };

    /// The arguments.
    fn into_arguments(self) -> DB::Arguments
        ensures { result ≡ becomes self };
}

/// Arguments to which nothing is added any more.
#[derive(Drop)]
pub struct ImmutableArguments<DB: Database>(pub DB::Arguments);

impl<DB: Database> IntoArguments<DB> for ImmutableArguments<DB> {
    ghost becomes = { λ args. args.0 };

    fn into_arguments(self) -> DB::Arguments {
        self.0
    }
}
