//! The steps that a script defines.
ghost use Rattle.std.specs.Prelude.{◌≡◌, ◌<◌, ◌++◌, ◌∷◌, [], length, OnOk};
ghost use Rattle.sqlx_steps_rules.specs.Rules.{with_statement};

use crate::data_step::DataStep;
use sqlx_steps_rules::Write;
use sqlx_text::OutOfMemory;
use std::alloc::Global;
use std::marker::Model;

/// The steps that a script defined so far.
#[derive(Drop)]
pub struct Definitions {
    steps: Vec<DataStep>,
}

impl Model for Definitions {
    ghost use Rattle.std.specs.Prelude.{List};
    ghost use Rattle.sqlx_steps_rules.specs.declared.event.Write.{Write};

    ghost Value = { List (List Write) };

    ghost view = { λ d. d.steps.items };
}

impl Definitions {
    /// No step.
    pub fn new(alloc: Global) -> Definitions
        ensures { result ≡ [] }
    {
        Definitions {
            steps: Vec::new(alloc),
        }
    }

    /// The steps, in order.
    pub fn steps(&self) -> &[DataStep]
        ensures { result.now ≡ self.now }
    {
        &self.steps
    }

    /// How many steps there are.
    pub fn len(&self) -> usize
        ensures { result ≡ length self.now }
    {
        self.steps.len()
    }

    /// The definition of the next step begins.
    pub fn begin(&mut self, alloc: Global) -> Result<(), OutOfMemory>
        ensures { OnOk result (self.new ≡ self.old ++ [] ∷ []) }
    {
        match self.steps.push(DataStep::new(alloc)) {
            Ok(()) => Ok(()),
            Err(_) => Err(OutOfMemory),
        }
    }

    /// A statement of the step that was begun last.
    pub fn add(&mut self, write: Write) -> Result<(), OutOfMemory>
        requires { 0 < length self.old }
        ensures { OnOk result (self.new ≡ with_statement write self.old) }
    {
        match self.steps.last_mut() {
            Some(step) => step.push(write),
            None => unreachable!(),
        }
    }
}
