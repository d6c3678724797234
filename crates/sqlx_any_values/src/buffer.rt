//! Arguments as a list of values that every backend shares, in the order in which they were added.
ghost use Rattle.std.specs.Prelude.{◌≡◌, ◌++◌, ◌∷◌, [], OnErr, OnOk, length, take};
ghost use Rattle.sqlx_traits.specs.Arguments.{AddsOne};

use crate::AnyValueKind;
use sqlx_text::OutOfMemory;
use sqlx_traits::ArgumentList;
use std::alloc::Global;
use std::marker::Model;

/// Arguments as a list of values.
pub struct AnyArgumentBuffer {
    values: Vec<AnyValueKind>,
}

impl Drop for AnyArgumentBuffer {
    fn drop(self) {
        let AnyArgumentBuffer { values } = self;
        drop(values);
    }
}

impl Model for AnyArgumentBuffer {
    ghost use Rattle.std.specs.Prelude.{List};
    ghost use Rattle.sqlx_any_values.specs.declared.value.AnyValueKind.{AnyValueKind};

    ghost Value = { List AnyValueKind };

    ghost view = { λ list. list.values.items };
}

impl AnyArgumentBuffer {
    /// No arguments.
    pub fn new(alloc: Global) -> AnyArgumentBuffer
        ensures { result ≡ [] }
    {
        AnyArgumentBuffer {
            values: Vec::new(alloc),
        }
    }

    /// The arguments.
    pub fn as_slice(&self) -> &[AnyValueKind]
        ensures { result.now ≡ self.now }
    {
        self.values.as_slice()
    }

    /// The arguments, where the list isn't needed any more.
    pub fn into_values(self) -> Vec<AnyValueKind>
        ensures { result.items ≡ self }
    {
        let AnyArgumentBuffer { values } = self;
        values
    }

    /// Makes room for so many arguments more. The arguments stay.
    pub fn reserve(&mut self, additional: usize) -> Result<(), OutOfMemory>
        ensures { self.new ≡ self.old }
    {
        Ok(self.values.reserve(additional)?)
    }

    /// Leaves the first arguments, so many.
    pub fn truncate(&mut self, len: usize)
        ensures { self.new ≡ take len self.old }
    {
        self.values.truncate(len);
    }

    /// Adds an argument behind those that are there. A refusal leaves them as they were.
    #[tactic(auto, using(sqlx_traits::proofs::ArgumentLemmas::adds_one))]
    pub fn push(&mut self, value: AnyValueKind) -> Result<(), OutOfMemory>
        ensures ok { OnOk result (self.new ≡ self.old ++ value ∷ []) }
        ensures one { OnOk result (AddsOne length take self.old self.new) }
        ensures err { OnErr result (self.new ≡ self.old) }
    {
        Ok(self.values.push(value)?)
    }
}

impl ArgumentList for AnyArgumentBuffer {
    ghost use Rattle.std.specs.Prelude.{length, take};
    ghost use Rattle.std.proofs.lemmas.List.{length-take, take_all};

    ghost count = { λ list. length list };

    ghost first = { λ n list. take n list };

    ghost counts_first = { λ n list. length-take n list };

    ghost first_of_all = { λ n list enough. take_all n list enough };

    fn len(&self) -> usize {
        self.values.len()
    }
}
