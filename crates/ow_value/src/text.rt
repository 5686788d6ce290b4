// Texts, which are UTF-8.
ghost use Rattle.std.proofs.Common.{refl};
ghost use Rattle.std.specs.Prelude.{◌≡◌, ◌↔◌, ◌==◌, [], length, IsTrue, IfOk, IsUtf8, Some, nat_eq, string_bytes};
ghost use Rattle.std.specs.Cmp.{partial_equiv_from_equiv};
ghost use Rattle.std.specs.Cmp.Lexicographic.{pointwise, nat_list_eq_equiv, nat_list_cmp_total, texts_ties, texts_po};
ghost use Rattle.ow_value.specs.Shared.{shared_text};
ghost use Rattle.ow_value.specs.Value.{text_cmp};

use crate::memory::NoMemory;
use crate::plain::PlainData;
use std::alloc::Global;
use std::cmp::Ordering;
use std::marker::Model;
use std::sync::ArcStr;

/// A text. Its bytes never change, and its copies share them.
#[derive(Drop)]
pub struct Str {
    text: Option<ArcStr<Global>>,
}

impl Model for Str {
    ghost use Rattle.std.specs.Prelude.{List, ℕ};
    ghost use Rattle.ow_value.specs.Shared.{shared_text};

    ghost Value = { List ℕ };

    ghost view = { λ a. shared_text a.text };
}

impl Str {
    /// The text with no byte. This takes no memory.
    pub fn empty() -> Str
        ensures { result ≡ [] }
    {
        Str { text: None }
    }

    // The text, lent.
    fn raw(&self) -> &str
        ensures { result.now ≡ self.now }
    {
        match &self.text {
            None => "",
            Some(text) => text.as_str(),
        }
    }

    /// A copy of the text.
    pub fn of(alloc: Global, text: &str) -> Result<Str, NoMemory>
        ensures { IfOk result (λ s. s ≡ text.now) }
    {
        if text.is_empty() {
            return Ok(Str { text: None });
        }
        Ok(Str {
            text: Some(ArcStr::from_str(alloc, text)?),
        })
    }

    /// The text itself, to be shared, with no copy of its bytes.
    pub fn from_string(text: String) -> Result<Str, NoMemory>
        ensures value { IfOk result (λ s. s ≡ string_bytes text) }
        ensures utf8 { IfOk result (λ s. IsUtf8 s) }
    {
        if text.is_empty() {
            return Ok(Str { text: None });
        }
        let _ = text.as_str().as_bytes();
        Ok(Str {
            text: Some(ArcStr::from_string(text)?),
        })
    }

    /// The text, lent.
    pub fn as_str(&self) -> &str
        ensures value { result.now ≡ self.now }
        ensures utf8 { IsUtf8 result.now }
    {
        let text = self.raw();
        let _ = text.as_bytes();
        text
    }

    /// How many bytes.
    pub fn len(&self) -> usize
        ensures { result ≡ length self.now }
    {
        self.raw().len()
    }

    /// Whether there is no byte.
    pub fn is_empty(&self) -> bool
        ensures { IsTrue result ↔ (self.now ≡ []) }
    {
        self.raw().is_empty()
    }

    /// The order of the bytes.
    pub fn compare(&self, other: &str) -> Ordering
        ensures { result ≡ text_cmp self.now other.now }
    {
        self.raw().cmp(&other)
    }

    // The same text, which both share.
    pub(crate) fn again(&self) -> Result<Str, NoMemory>
        ensures { IfOk result (λ s. s ≡ self.now) }
    {
        let text = match &self.text {
            None => None,
            Some(text) => Some(text.clone()?),
        };
        Ok(Str { text })
    }
}

impl PlainData for Str {
    fn same(&self, other: &Str) -> bool {
        self.raw() == other.raw()
    }

    fn copy(&self, _alloc: Global) -> Result<Str, NoMemory> {
        self.again()
    }
}

impl PartialEq for Str {
    ghost eq = { pointwise nat_eq };

    ghost laws = { partial_equiv_from_equiv nat_list_eq_equiv };

    fn eq(&self, other: &Str) -> bool {
        self.raw() == other.raw()
    }
}

impl Eq for Str {
    ghost laws = { nat_list_eq_equiv };
}

impl PartialOrd for Str {
    ghost partial_cmp = { λ a b. Some (text_cmp a b) };

    ghost laws = { texts_po };

    fn partial_cmp(&self, other: &Str) -> Option<Ordering> {
        Some(self.compare(other.as_str()))
    }
}

// As `compare`.
impl Ord for Str {
    ghost cmp = { text_cmp };

    ghost total = { nat_list_cmp_total };

    ghost matches_partial_cmp = { λ a b. refl };

    ghost matches_eq = { λ a b. texts_ties a b };

    fn cmp(&self, other: &Str) -> Ordering {
        self.compare(other.as_str())
    }
}
