//! Texts that stand in the program or are owned, and are shared or moved alike.
//!
//! The type names no lifetime, so that what holds a text can be used under any bound.
ghost use Rattle.std.specs.Prelude.{◌≡◌, IfOk, Some, refl, string_bytes};
ghost use Rattle.std.specs.Cmp.{partial_equiv_from_equiv};
ghost use Rattle.std.specs.Cmp.Lexicographic.{slice_cmp, nat_list_eq_equiv, nat_list_cmp_total, texts_ties, texts_po};
ghost use Rattle.std.specs.Cmp.Rules.{hashing};
ghost use Rattle.std.specs.Fmt.{padded};
ghost use Rattle.std.specs.Hash as fed;
ghost use Rattle.std.specs.Ordering.{nat_cmp};
ghost use Rattle.std.specs.Str.{bytes_eq};
ghost use Rattle.std.proofs.Common.{rules};
ghost use Rattle.sqlx_text.specs.Text.{without_prefix};

use crate::OutOfMemory;
use bytes::ByteStr;
use std::alloc::Global;
use std::cmp::Ordering;
use std::convert::AsStr;
use std::fmt;
use std::hash::{Hash, Hasher};
use std::marker::Model;

#[derive(Drop)]
enum Text {
    Shared(ByteStr),
    Owned(String),
}

/// A text, which takes no memory where it stands in the program.
pub struct UStr {
    text: Text,
}

impl Model for UStr {
    ghost use Rattle.std.specs.Prelude.{List, ℕ};
    ghost use Rattle.sqlx_text.specs.Text.{bytes_of};

    ghost Value = { List ℕ };

    ghost view = { λ u. bytes_of u.text };
}

// A call in place of the cases of `Text`, which each function that lets an error go would repeat.
impl Drop for UStr {
    fn drop(self) {
        let UStr { text } = self;
        drop(text);
    }
}

impl UStr {
    /// A text of the program.
    pub fn from_static(s: &'static str) -> UStr
        ensures { result ≡ s.entry.now }
    {
        UStr {
            text: Text::Shared(ByteStr::from_static(s)),
        }
    }

    /// A text that is owned already.
    pub fn from_string(s: String) -> UStr
        ensures { result ≡ string_bytes s }
    {
        UStr {
            text: Text::Owned(s),
        }
    }

    /// A copy of a text.
    pub fn new(alloc: Global, s: &str) -> Result<UStr, OutOfMemory>
        ensures { IfOk result (λ made. made ≡ s.now) }
    {
        Ok(UStr::from_string(s.to_string(alloc)?))
    }

    /// The characters.
    pub fn as_str(&self) -> &str
        ensures { result.now ≡ self.now }
    {
        match &self.text {
            Text::Shared(text) => text.as_str(),
            Text::Owned(text) => text.as_str(),
        }
    }

    /// The same text.
    pub fn try_clone(&self, alloc: Global) -> Result<UStr, OutOfMemory>
        ensures { IfOk result (λ copy. copy ≡ self.now) }
    {
        match &self.text {
            Text::Shared(text) => Ok(UStr {
                text: Text::Shared(text.clone()?),
            }),
            Text::Owned(text) => UStr::new(alloc, text.as_str()),
        }
    }

    /// What follows the prefix, and `None` where the text doesn't begin with it.
    pub fn strip_prefix(
        alloc: Global,
        this: &UStr,
        prefix: &str,
    ) -> Result<Option<UStr>, OutOfMemory>
        ensures { IfOk result (λ rest. rest ≡ without_prefix prefix.now this.now) }
    {
        match this.as_str().strip_prefix(prefix) {
            Some(rest) => Ok(Some(UStr::new(alloc, rest)?)),
            None => Ok(None),
        }
    }
}

impl AsStr for UStr {
    ghost text = { λ text. text };

    fn as_str(&self) -> &str {
        UStr::as_str(self)
    }
}

impl PartialEq for UStr {
    ghost eq = { bytes_eq };

    ghost laws = { partial_equiv_from_equiv nat_list_eq_equiv };

    fn eq(&self, other: &Self) -> bool {
        self.as_str() == other.as_str()
    }
}

impl Eq for UStr {
    ghost laws = { nat_list_eq_equiv };
}

impl PartialOrd for UStr {
    ghost partial_cmp = { λ x y. Some (slice_cmp nat_cmp x y) };

    ghost laws = { texts_po };

    fn partial_cmp(&self, other: &Self) -> Option<Ordering> {
        Some(self.cmp(other))
    }
}

impl Ord for UStr {
    ghost cmp = { slice_cmp nat_cmp };

    ghost total = { nat_list_cmp_total };

    ghost matches_partial_cmp = { λ x y. refl };

    ghost matches_eq = { texts_ties };

    fn cmp(&self, other: &Self) -> Ordering {
        self.as_str().cmp(other.as_str())
    }
}

impl Hash for UStr {
    ghost hash_input = { fed.str };

    ghost respects_eq = { Prim.search (hashing, rules) };

    fn hash<H: Hasher>(&self, state: &mut H) {
        self.as_str().hash(state);
    }
}

impl fmt::Debug for UStr {
    fn fmt<W: fmt::Write>(&self, f: &mut fmt::Formatter<W>) -> fmt::Result {
        fmt::Debug::fmt(&self.as_str(), f)
    }
}

impl fmt::Display for UStr {
    ghost output = { λ text. Some text };

    ghost styled_output = { λ text spec. Some (padded spec text) };

    fn fmt<W: fmt::Write>(&self, f: &mut fmt::Formatter<W>) -> fmt::Result {
        f.pad(self.as_str())
    }
}
