//! The arguments of a statement, as a list of values, whose placeholders are numbered.
ghost use Rattle.std.specs.Prelude.{◌≡◌, ◌++◌, ◌∷◌, [], IfErr, IfOk, OnErr, OnOk, codes, decimal, length, string_bytes, take};
ghost use Rattle.sqlx_traits.specs.Arguments.{AddsOne, IsWantOfMemory};

use crate::{Toy, ToyValue};
use sqlx_text::{Fault, OutOfMemory};
use sqlx_traits::*;
use std::alloc::Global;
use std::marker::Model;

/// Values, the newest at the end.
#[derive(Drop)]
pub struct ToyArgumentList {
    values: Vec<ToyValue>,
}

impl Model for ToyArgumentList {
    ghost use Rattle.std.specs.Prelude.{List};
    ghost use Rattle.tests_database.specs.declared.value.ToyValue.{ToyValue};

    ghost Value = { List ToyValue };

    ghost view = { λ list. list.values.items };
}

impl ToyArgumentList {
    /// The values.
    pub fn as_slice(&self) -> &[ToyValue] {
        self.values.as_slice()
    }

    /// Adds a value.
    #[tactic(auto, using(sqlx_traits::proofs::ArgumentLemmas::adds_one))]
    pub fn put(&mut self, value: ToyValue) -> Result<(), Fault>
        ensures ok { OnOk result (self.new ≡ self.old ++ value ∷ []) }
        ensures one { OnOk result (AddsOne length take self.old self.new) }
        ensures err { OnErr result (self.new ≡ self.old) }
        ensures refused { IfErr result (λ fault. IsWantOfMemory fault) }
    {
        match self.values.push(value) {
            Ok(()) => Ok(()),
            Err(_) => Err(Fault::OutOfMemory),
        }
    }
}

impl ArgumentList for ToyArgumentList {
    ghost use Rattle.std.specs.Prelude.{length, take};
    ghost use Rattle.std.proofs.lemmas.List.{length-take, take_all};

    ghost count = { λ list. length list };

    ghost first = { λ n list. take n list };

    ghost counts_first = { λ n list. length-take n list };

    ghost first_of_all = { λ n list enough. take_all n list enough };

    fn len(&self) -> usize {
        self.values.len()
    }
}

/// The arguments of a statement.
#[derive(Drop)]
pub struct ToyArguments {
    pub list: ToyArgumentList,
}

// The placeholder of the argument that has the number.
fn placeholder(alloc: Global, n: usize) -> Result<String, OutOfMemory>
    ensures { IfOk result (λ text. string_bytes text ≡ codes "$" ++ decimal n) }
{
    match format!(in alloc; "${n}") {
        Ok(text) => Ok(text),
        Err(_) => Err(OutOfMemory),
    }
}

impl Arguments<Toy> for ToyArguments {
    ghost use Rattle.std.specs.Prelude.{◌++◌, codes, decimal, refl};

    ghost buffered = { λ args. args.list };

    ghost with_buffer = { λ args list. record args { list = list } };

    ghost placeholder = { λ n. codes "$" ++ decimal n };

    ghost puts = { λ _ _. refl };

    ghost keeps = { λ _. refl };

    fn new(alloc: Global) -> Self {
        ToyArguments {
            list: ToyArgumentList {
                values: Vec::new(alloc),
            },
        }
    }

    fn reserve(
        &mut self,
        _alloc: Global,
        additional: usize,
        _size: usize,
    ) -> Result<(), OutOfMemory> {
        Ok(self.list.values.reserve(additional)?)
    }

    fn buffer(&mut self) -> &mut ToyArgumentList {
        &mut self.list
    }

    fn len(&self) -> usize {
        self.list.values.len()
    }

    fn truncate(&mut self, len: usize) {
        self.list.values.truncate(len);
    }

    fn format_placeholder(&self, alloc: Global, out: &mut String) -> Result<(), OutOfMemory> {
        let placeholder = placeholder(alloc, self.list.values.len())?;
        Ok(out.push_str(&placeholder)?)
    }
}

impl IntoArguments<Toy> for ToyArguments {
    ghost becomes = { λ args. args };

    fn into_arguments(self) -> ToyArguments {
        self
    }
}
