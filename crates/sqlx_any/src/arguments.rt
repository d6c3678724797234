//! The arguments of a statement as values that every backend shares, in the order in which they were added.

use crate::{Any, AnyArgumentBuffer, AnyConnectionBackend};
use sqlx_text::OutOfMemory;
use sqlx_traits::{ArgumentList, Arguments, IntoArguments, question_mark};
use std::alloc::Global;

/// The arguments of a statement.
#[derive(Drop)]
pub struct AnyArguments {
    pub values: AnyArgumentBuffer,
}

impl<B: AnyConnectionBackend> Arguments<Any<B>> for AnyArguments {
    ghost use Rattle.std.specs.Prelude.{refl};

    ghost buffered = { λ args. args.values };

    ghost with_buffer = { λ args list. record args { values = list } };

    ghost puts = { λ _ _. refl };

    ghost keeps = { λ _. refl };

    fn new(alloc: Global) -> Self {
        AnyArguments {
            values: AnyArgumentBuffer::new(alloc),
        }
    }

    fn reserve(
        &mut self,
        _alloc: Global,
        additional: usize,
        _size: usize,
    ) -> Result<(), OutOfMemory> {
        self.values.reserve(additional)
    }

    fn buffer(&mut self) -> &mut AnyArgumentBuffer {
        &mut self.values
    }

    fn len(&self) -> usize {
        self.values.len()
    }

    fn truncate(&mut self, len: usize) {
        self.values.truncate(len);
    }

    fn format_placeholder(&self, _alloc: Global, out: &mut String) -> Result<(), OutOfMemory> {
        question_mark(out)
    }
}

impl<B: AnyConnectionBackend> IntoArguments<Any<B>> for AnyArguments {
    ghost becomes = { λ args. args };

    fn into_arguments(self) -> AnyArguments {
        self
    }
}
