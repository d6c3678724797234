//! Queries of a connection: what it is asked, and the steps that it hands out.
ghost use Rattle.std.specs.Prelude.{◌≡◌, ◌≤◌, Option, Result};
ghost use Rattle.sqlx_text.specs.declared.fault.Fault.{Fault};
ghost use Rattle.sqlx_traits.specs.StepList.{StepCauses};

use crate::{Toy, ToyArguments, ToyConnection, ToyStatement, ToyType, ToyValue};
use sqlx_text::{Error, Fault, IoFault, OutOfMemory, SqlStr};
use sqlx_traits::*;
use std::alloc::Global;
use std::collections::VecDeque;

/// What a connection is asked: a text, its arguments if it has any, and its flags.
#[derive(Drop)]
pub struct Asked {
    pub sql: Option<SqlStr>,
    pub arguments: Option<ToyArguments>,
    pub kept: bool,
    pub prepared: bool,
}

impl Asked {
    /// The text, whether its statement is to be kept, and each argument behind a bar, as `SELECT kept|5|x`.
    pub fn shown(&self, alloc: Global) -> Result<String, OutOfMemory> {
        let sql = match &self.sql {
            Some(sql) => sql.as_str(),
            None => "",
        };
        let kept = if self.kept { " kept" } else { "" };
        let prepared = if self.prepared { " prepared" } else { "" };
        let arguments = match &self.arguments {
            Some(arguments) => listed(alloc, arguments.list.as_slice())?,
            None => " bare".to_string(alloc)?,
        };
        Ok(format!(in alloc; "{sql}{kept}{prepared}{arguments}")?)
    }
}

// Each value behind a bar.
fn listed(alloc: Global, values: &[ToyValue]) -> Result<String, OutOfMemory> {
    let mut line = String::new(alloc);
    for value in values {
        let text = format!(in alloc; "|{value}")?;
        line.push_str(&text)?;
    }
    Ok(line)
}

impl ToyConnection {
    /// What it was asked last, as [`Asked::shown`] writes it; `nothing` where it wasn't asked yet.
    pub fn asked_shown(&self, alloc: Global) -> Result<String, OutOfMemory> {
        match &self.asked {
            Some(asked) => asked.shown(alloc),
            None => Ok("nothing".to_string(alloc)?),
        }
    }

    #[tactic(auto, using(sqlx_traits::proofs::StepLemmas::causes_of_items))]
    fn hand_out(&mut self, alloc: Global) -> FetchMany<Toy>
        ensures rises { self.old.faults ≤ self.new.faults }
        ensures causes { (arguments : Result (Option ToyArguments) Fault) → StepCauses self.old.faults self.new.faults arguments result }
    {
        let items = match self.steps.take() {
            Some(steps) => steps,
            None => VecDeque::new(alloc),
        };
        if self.breaks {
            self.faults = self.faults.saturating_add(1);
            StepList::new(items, Some(Error::Io(IoFault::Other)))
        } else {
            StepList::new(items, None)
        }
    }
}

impl Executor<Toy> for ToyConnection {
    ghost use Rattle.std.specs.Prelude.{⊤};

    ghost runs = { λ _ _ _ _. ⊤ };

    ghost prepares = { λ _ _ _ _ _. ⊤ };

    fn fetch_many<Q: Execute<Toy>>(&mut self, alloc: Global, query: Q) -> FetchMany<Toy> {
        let mut query = query;
        let kept = query.persistent();
        let prepared = query.statement().is_some();
        let arguments = query.take_arguments();
        let sql = query.sql(alloc).ok();
        match arguments {
            Ok(arguments) => {
                self.asked = Some(Asked {
                    sql,
                    arguments,
                    kept,
                    prepared,
                });
                self.hand_out(alloc)
            }
            Err(fault) => {
                drop(sql);
                StepList::not_encoded(alloc, fault)
            }
        }
    }

    fn prepare_with(
        &mut self,
        alloc: Global,
        sql: SqlStr,
        parameters: &[ToyType],
    ) -> Result<ToyStatement, Error> {
        let mut types = Vec::new(alloc);
        for ty in parameters {
            if types.push(*ty).is_err() {
                return Err(Error::OutOfMemory);
            }
        }
        Ok(ToyStatement {
            sql,
            columns: Vec::new(alloc),
            types,
        })
    }
}
