//! What answers the events of a script.
ghost use Rattle.std.specs.Prelude.{◌≡◌, List, IfOk, OnOk};
ghost use Rattle.sqlx_lines.specs.FirstLine.{told};
ghost use Rattle.sqlx_lines.specs.Rows.{with_behind};
ghost use Rattle.sqlx_lines.specs.Words.{first_line, behind_line};
ghost use Rattle.sqlx_player.specs.Language.{Language, Pairs, events_of};
ghost use Rattle.sqlx_player.specs.Responds.{Opens, IsDue, Answers, Closes};

use sqlx_lines::{FirstLine, OutputLine};
use sqlx_text::OutOfMemory;
use std::alloc::Global;

/// What answers the events of scripts of one language.
pub trait Responder: Sized + Drop {
    /// What a first line says.
    type First;

    /// What a line after the first says.
    type Event: Drop;

    /// What an event is answered.
    type Reply;

    // The language and its rules.
    ghost language: { Language Self.First Self.Event Self.Reply };

    // It is as it is after these events and replies, behind this first line.
    ghost stands: { Self → Self.First → Pairs Self.Event Self.Reply → Type 0 };

    /// The responder that the first line of a text sets up, and the text behind that line; none where it says nothing.
    fn open(alloc: Global, text: &[u8]) -> Result<Option<FirstLine<'_, Self>>, OutOfMemory>
        ensures { IfOk result (Opens language stands text.now) };

    /// The event that the first line of a text says, and the text behind that line; none where it says nothing.
    fn read<'a>(&self, text: &'a [u8]) -> Option<FirstLine<'a, Self::Event>>
        ensures { (first : Self.First) (pairs : Pairs Self.Event Self.Reply) → stands self.now first pairs
            → told result ≡ with_behind (behind_line text.now) (language.grammar.event_of first (events_of pairs) (first_line text.now)) };

    /// Answers an event, and puts what is written for the reply in place of what the line holds.
    fn answer(
        &mut self,
        alloc: Global,
        event: &Self::Event,
        line: &mut OutputLine,
    ) -> Result<(), OutOfMemory>
        requires { IsDue language (stands self.old) event.now }
        ensures { OnOk result (Answers language (stands self.old) (stands self.new) event.now line.new.bytes) };

    /// Puts the closing line in place of what the line holds.
    fn close(&mut self, alloc: Global, line: &mut OutputLine) -> Result<(), OutOfMemory>
        ensures { OnOk result (Closes language (stands self.old) (stands self.new) line.new.bytes) };
}
