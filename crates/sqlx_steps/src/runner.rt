//! Answers the events of a script of steps.
ghost use Rattle.std.specs.Prelude.{◌≡◌, [], IfOk};
ghost use Rattle.sqlx_player.specs.Language.{Pairs};
ghost use Rattle.sqlx_steps_rules.specs.declared.event.Event.{Event as Asked};
ghost use Rattle.sqlx_steps_rules.specs.declared.reply.Reply.{Reply as Told};
ghost use Rattle.sqlx_steps.specs.Stands.{StandsFor, IsReady, AnswersSo};

use crate::database::Database;
use crate::definitions::Definitions;
use sqlx_lines::{FirstLine, OutputLine};
use sqlx_player::Responder;
use sqlx_steps_rules::{Event, Reply, fill_version, read_event, read_opening};
use sqlx_text::OutOfMemory;
use std::alloc::Global;

/// The steps that a script defined, and the database on which they are applied.
#[derive(Drop)]
pub struct StepRunner {
    definitions: Definitions,
    // Whether the definitions have ended.
    ended: bool,
    database: Database,
}

impl StepRunner {
    // No step, and a database without rows.
    fn new(alloc: Global) -> Result<StepRunner, OutOfMemory>
        ensures { IfOk result (λ runner. StandsFor runner []) }
    {
        Ok(StepRunner {
            definitions: Definitions::new(alloc),
            ended: false,
            database: Database::new(alloc)?,
        })
    }

    // Answers an event.
    fn reply_to(&mut self, alloc: Global, event: &Event) -> Result<Reply, OutOfMemory>
        requires { IsReady self.old event.now }
        ensures { IfOk result (λ reply. (pairs : Pairs Asked Told) → StandsFor self.old pairs → AnswersSo pairs event.now reply self.new) }
    {
        match *event {
            Event::Step { number: _ } => {
                self.definitions.begin(alloc)?;
                Ok(Reply::Defined)
            }
            Event::Statement { write } => {
                self.definitions.add(write)?;
                Ok(Reply::Defined)
            }
            Event::Apply { upto, refuse } => {
                self.ended = true;
                let steps = self.definitions.steps();
                self.database
                    .apply(alloc, steps, upto as usize, u64::from(refuse))
            }
            Event::Get { key } => {
                self.ended = true;
                Ok(self.database.get(key))
            }
        }
    }
}

impl Responder for StepRunner {
    ghost use Rattle.sqlx_steps_rules.specs.Rules.{steps_language};
    ghost use Rattle.sqlx_steps.specs.Stands.{StandsFor};

    type First = ();

    type Event = Event;

    type Reply = Reply;

    ghost language = { steps_language };

    ghost stands = { λ runner _ pairs. StandsFor runner pairs };

    fn open(alloc: Global, text: &[u8]) -> Result<Option<FirstLine<'_, StepRunner>>, OutOfMemory> {
        let Some(line) = read_opening(text) else {
            return Ok(None);
        };
        let says = StepRunner::new(alloc)?;
        Ok(Some(FirstLine {
            says,
            behind: line.behind,
        }))
    }

    fn read<'a>(&self, text: &'a [u8]) -> Option<FirstLine<'a, Event>> {
        read_event(text, self.definitions.len(), self.ended)
    }

    fn answer(
        &mut self,
        alloc: Global,
        event: &Event,
        line: &mut OutputLine,
    ) -> Result<(), OutOfMemory> {
        let reply = self.reply_to(alloc, event)?;
        reply.fill_line(line);
        Ok(())
    }

    fn close(&mut self, _alloc: Global, line: &mut OutputLine) -> Result<(), OutOfMemory> {
        fill_version(line, self.database.version());
        Ok(())
    }
}
