//! A text that grows at its end, and can be cut back, to what it began with at the furthest.
ghost use Rattle.std.specs.Prelude.{◌≡◌, ◌++◌, ◌≤◌, IfOk, OnErr, OnOk, length, string_bytes, take};
ghost use Rattle.std.specs.Str.{IsUtf8};

use sqlx_text::OutOfMemory;
use std::alloc::Global;
use std::marker::Model;

#[derive(Drop)]
pub(crate) struct GrowingText {
    text: String,
    init_len: usize,
}

impl Model for GrowingText {
    ghost use Rattle.std.specs.Prelude.{◌≤◌, string_bytes, take, length};
    ghost use Rattle.std.specs.Str.{IsUtf8};
    ghost use Rattle.sqlx_query_drafts.specs.Growing.{Growing};

    ghost Value = { Growing };

    ghost view = { λ t. record { initial = take t.init_len (string_bytes t.text); text = string_bytes t.text } };

    ghost invariant = { λ t. (t.init_len ≤ length (string_bytes t.text)) × IsUtf8 (take t.init_len (string_bytes t.text)) };
}

impl GrowingText {
    pub(crate) fn new(text: String) -> GrowingText
        ensures { result ≡ record { initial = string_bytes text; text = string_bytes text } }
    {
        let init_len = text.as_str().len();
        GrowingText { text, init_len }
    }

    pub(crate) fn len(&self) -> usize
        ensures len { result ≡ length self.now.text }
        ensures initial { length self.now.initial ≤ length self.now.text }
        ensures valid { IsUtf8 self.now.text }
    {
        self.text.as_str().len()
    }

    pub(crate) fn as_str(&self) -> &str
        ensures { result.now ≡ self.now.text }
    {
        self.text.as_str()
    }

    pub(crate) fn push_str(&mut self, text: &str) -> Result<(), OutOfMemory>
        ensures ok { OnOk result (self.new ≡ record self.old { text = self.old.text ++ text.now }) }
        ensures err { OnErr result (self.new ≡ self.old) }
    {
        match self.text.push_str(text) {
            Ok(()) => Ok(()),
            Err(failed) => {
                drop(failed);
                Err(OutOfMemory)
            }
        }
    }

    /// Cuts the text back to a length at which it once ended.
    pub(crate) fn truncate(&mut self, len: usize)
        requires initial { length self.old.initial ≤ len }
        requires within { len ≤ length self.old.text }
        requires valid { IsUtf8 (take len self.old.text) }
        ensures { self.new ≡ record self.old { text = take len self.old.text } }
    {
        let _bytes = self.text.as_str();
        self.text.truncate(len);
    }

    pub(crate) fn reset(&mut self)
        ensures { self.new ≡ record self.old { text = self.old.initial } }
    {
        let _bytes = self.text.as_str();
        self.text.truncate(self.init_len);
    }

    pub(crate) fn into_string(self) -> String
        ensures { string_bytes result ≡ self.text }
    {
        let GrowingText { text, init_len: _ } = self;
        text
    }
}
