//! A statement that is built piece by piece: its text, and the values that are bound to its placeholders.
ghost use Rattle.std.specs.Prelude.{◌≡◌, ◌≤◌, Bool, IfErr, OnErr, OnOk, length, string_bytes, take};
ghost use Rattle.std.specs.Str.{IsUtf8};
ghost use Rattle.sqlx_text.specs.declared.fault.Fault.{Fault};
ghost use Rattle.sqlx_traits.specs.Arguments.{AddsOne};
ghost use Rattle.sqlx_query_drafts.specs.Binding.{OrWantOfMemory};
ghost use Rattle.sqlx_query_drafts.specs.Builder.{Piece, cut_to, fresh_draft, with_piece};
ghost use Rattle.sqlx_query_drafts.specs.Tuples.{behind};

use crate::RowParts;
use crate::growing_text::GrowingText;
use sqlx_text::{Fault, OutOfMemory};
use sqlx_traits::{ArgumentList, Arguments, Database, Encode, SqlType};
use std::alloc::Global;
use std::marker::Model;
use std::mem;

/// The text and the arguments of a statement that is built, and whether a query was made of it.
#[derive(Drop)]
pub struct StatementDraft<DB: Database> {
    text: GrowingText,
    arguments: DB::Arguments,
    built: bool,
}

impl<DB: Database> Model for StatementDraft<DB> {
    ghost use Rattle.sqlx_query_drafts.specs.Builder.{Draft};

    ghost Value = { Draft DB.ArgumentBuffer };

    ghost view = { λ draft. record {
      initial = draft.text.initial;
      text = draft.text.text;
      arguments = DB.Arguments.buffered draft.arguments;
      built = draft.built;
    } };
}

/// How far a statement went: the bytes of its text, and its arguments.
#[derive(Clone, Copy)]
pub struct Mark {
    text: usize,
    arguments: usize,
}

impl<DB: Database> StatementDraft<DB> {
    /// A draft whose text begins with `init`, with these arguments.
    pub fn new(init: String, arguments: DB::Arguments) -> Self
        ensures { result ≡ fresh_draft (string_bytes init) (DB.Arguments.buffered arguments) }
    {
        StatementDraft {
            text: GrowingText::new(init),
            arguments,
            built: false,
        }
    }

    /// Appends a text. Want of memory leaves the draft as it was.
    pub fn append(&mut self, sql: &str) -> Result<(), OutOfMemory>
        ensures ok { OnOk result (self.new ≡ with_piece self.old (Piece.Text sql.now)) }
        ensures err { OnErr result (self.new ≡ self.old) }
    {
        self.text.push_str(sql)
    }

    /// Binds a value, and appends its placeholder. A refusal leaves the draft as it was.
    pub fn bind<'t, T: Encode<'t, DB> + SqlType<DB>>(
        &mut self,
        alloc: Global,
        value: T,
    ) -> Result<(), Fault>
        ensures ok { OnOk result (self.new ≡ with_piece self.old
            (Piece.Bound (DB.Arguments.placeholder (DB.ArgumentBuffer.count self.new.arguments)) (T.encoded value))) }
        ensures one { OnOk result (AddsOne DB.ArgumentBuffer.count DB.ArgumentBuffer.first self.old.arguments self.new.arguments) }
        ensures err { OnErr result (self.new ≡ self.old) }
        ensures refused { IfErr result (OrWantOfMemory (T.refuses value)) }
    {
        let before = self.arguments.len();
        match self.arguments.add(alloc, value) {
            Ok(()) => match self.append_placeholder(alloc) {
                Ok(()) => Ok(()),
                Err(_want) => {
                    self.arguments.truncate(before);
                    Err(Fault::OutOfMemory)
                }
            },
            Err(fault) => Err(fault),
        }
    }

    // The placeholder of the last argument that was added.
    fn append_placeholder(&mut self, alloc: Global) -> Result<(), OutOfMemory>
        ensures ok { OnOk result (self.new ≡ with_piece self.old
            (Piece.Text (DB.Arguments.placeholder (DB.ArgumentBuffer.count self.old.arguments)))) }
        ensures err { OnErr result (self.new ≡ self.old) }
    {
        let mut placeholder = String::new(alloc);
        let appended = match self.arguments.format_placeholder(alloc, &mut placeholder) {
            Ok(()) => self.text.push_str(placeholder.as_str()),
            Err(want) => Err(want),
        };
        drop(placeholder);
        appended
    }

    /// Hands out the arguments; a query is made of the draft.
    pub fn finish(&mut self, alloc: Global) -> DB::Arguments
        ensures arguments { DB.Arguments.buffered result ≡ self.old.arguments }
        ensures none { DB.ArgumentBuffer.count self.new.arguments ≡ 0 }
        ensures built { self.new ≡ record self.old { arguments = self.new.arguments; built = Bool.true } }
    {
        self.built = true;
        mem::replace(&mut self.arguments, DB::Arguments::new(alloc))
    }

    /// Cuts the text back to what it began with, with no arguments; no query is made of it.
    pub fn reset(&mut self, alloc: Global)
        ensures none { DB.ArgumentBuffer.count self.new.arguments ≡ 0 }
        ensures begun { self.new ≡ fresh_draft self.old.initial self.new.arguments }
    {
        self.text.reset();
        self.arguments = DB::Arguments::new(alloc);
        self.built = false;
    }

    /// The text so far.
    pub fn as_str(&self) -> &str
        ensures { result.now ≡ self.now.text }
    {
        self.text.as_str()
    }

    /// The text, without its arguments.
    pub fn into_string(self) -> String
        ensures { string_bytes result ≡ self.text }
    {
        let StatementDraft {
            text,
            arguments,
            built: _,
        } = self;
        drop(arguments);
        text.into_string()
    }

    /// Whether a query was made of it.
    pub fn is_built(&self) -> bool
        ensures { result ≡ self.now.built }
    {
        self.built
    }

    /// How far it went.
    pub fn mark(&self) -> Mark
        ensures text { result.text ≡ length self.now.text }
        ensures arguments { result.arguments ≡ DB.ArgumentBuffer.count self.now.arguments }
        ensures initial { length self.now.initial ≤ length self.now.text }
        ensures valid { IsUtf8 self.now.text }
    {
        Mark {
            text: self.text.len(),
            arguments: self.arguments.len(),
        }
    }

    /// Cuts it back to how far it once went.
    pub fn cut_back(&mut self, mark: Mark)
        requires initial { length self.old.initial ≤ mark.text }
        requires within { mark.text ≤ length self.old.text }
        requires valid { IsUtf8 (take mark.text self.old.text) }
        ensures { self.new ≡ cut_to DB.ArgumentBuffer.first self.old mark.text mark.arguments }
    {
        self.text.truncate(mark.text);
        self.arguments.truncate(mark.arguments);
    }

    /// The parts of a row that continues the draft; until they are put back, the draft has nothing.
    pub fn take_row(&mut self, alloc: Global) -> RowParts<DB::Arguments>
        ensures taken { behind DB.Arguments.buffered result ≡ self.old }
        ensures list { result.has_piece ≡ Bool.false }
    {
        RowParts {
            text: mem::replace(&mut self.text, GrowingText::new(String::new(alloc))),
            arguments: mem::replace(&mut self.arguments, DB::Arguments::new(alloc)),
            built: self.built,
            has_piece: false,
        }
    }

    /// Puts the parts of a row back.
    pub fn put_row(&mut self, parts: RowParts<DB::Arguments>)
        ensures put { self.new ≡ behind DB.Arguments.buffered parts }
    {
        let RowParts {
            text,
            arguments,
            built,
            has_piece: _,
        } = parts;
        self.text = text;
        self.arguments = arguments;
        self.built = built;
    }

    /// The draft that a row continues; until it is put back, the row continues nothing.
    pub fn take_of(alloc: Global, parts: &mut RowParts<DB::Arguments>) -> Self
        ensures taken { result ≡ behind DB.Arguments.buffered parts.old }
        ensures list { parts.new.has_piece ≡ parts.old.has_piece }
    {
        StatementDraft {
            text: mem::replace(&mut parts.text, GrowingText::new(String::new(alloc))),
            arguments: mem::replace(&mut parts.arguments, DB::Arguments::new(alloc)),
            built: parts.built,
        }
    }

    /// Puts the draft back into the row that continues it.
    pub fn put_into(self, parts: &mut RowParts<DB::Arguments>)
        ensures put { behind DB.Arguments.buffered parts.new ≡ self }
        ensures list { parts.new.has_piece ≡ parts.old.has_piece }
    {
        let StatementDraft {
            text,
            arguments,
            built,
        } = self;
        parts.text = text;
        parts.arguments = arguments;
        parts.built = built;
    }
}
