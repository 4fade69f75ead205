//! Raw JSON text.

ghost use Rattle.std.specs.Prelude.{◌≡◌, false, Some, MatchResult, codes, nat_eq};
ghost use Rattle.std.proofs.Common.{rules};
ghost use Rattle.std.specs.Cmp.Rules.{hashing};
ghost use Rattle.std.specs.Cmp.{partial_equiv_from_equiv, on_per, on_equiv};
ghost use Rattle.std.specs.Cmp.Lexicographic.{pointwise, nat_list_eq_equiv};
ghost use Rattle.std.specs.Fmt.{debug_str, debug_variant, styled_text};
ghost use Rattle.std.specs.Hash as fed;
ghost use Rattle.std.specs.String.{string_bytes};
ghost use Rattle.facet_format.specs.Event.{borrowed, owned, bytes_of, is_owned};
ghost use Rattle.facet_format.specs.HeldText.{text_of};

use std::alloc::Global;
use std::borrow::CowStr;
use std::fmt;
use std::hash::{Hash, Hasher};
use std::marker::Model;

/// JSON text that is kept verbatim, borrowed or owned: a part of a message that is passed on, stored or read later.
///
/// The text is not checked: whoever makes such a value says that it is JSON. Two are equal where their texts are, byte for
/// byte, whoever holds them: `[1]` and `[ 1 ]` differ.
///
/// ```text
/// let part = RawJson::new("[1, 2]");
/// part.as_str()                                     "[1, 2]"
/// part == RawJson::from_owned(copy of "[1, 2]")     true
/// ```
#[derive(Drop)]
pub struct RawJson<'a>(pub CowStr<'a>);

impl<'a> Model for RawJson<'a> {
    ghost use Rattle.facet_format.specs.Event.{Text};
    ghost use Rattle.facet_format.specs.HeldText.{text_of};

    ghost Value = { Text };

    ghost view = { λ raw. text_of raw.0 };
}

impl<'a> RawJson<'a> {
    /// This text, borrowed. It is not checked to be JSON, and nothing is allocated.
    pub fn new(text: &'a str) -> RawJson<'a>
        ensures { result ≡ borrowed text.now }
    {
        RawJson(CowStr::Borrowed(text))
    }

    /// This text, owned. It is not checked to be JSON, and nothing is allocated.
    pub fn from_owned(text: String) -> RawJson<'static>
        ensures { result ≡ owned (string_bytes text) }
    {
        RawJson(CowStr::Owned(text))
    }

    /// The text.
    pub fn as_str(&self) -> &str
        ensures { result.now ≡ bytes_of self.now }
    {
        self.0.as_str()
    }

    /// The raw text in memory of its own, or the value back where there is no memory for it: only a borrowed one takes any.
    pub fn into_owned(self, alloc: Global) -> Result<RawJson<'static>, RawJson<'a>>
        ensures { MatchResult result (λ raw. raw ≡ owned (bytes_of self.entry))
            (λ raw. (raw ≡ self.entry) × (is_owned self.entry ≡ false)) }
    {
        match self.0 {
            CowStr::Owned(owned) => Ok(RawJson::from_owned(owned)),
            CowStr::Borrowed(borrowed) => match String::from_str(alloc, borrowed) {
                Ok(owned) => Ok(RawJson::from_owned(owned)),
                Err(_) => Err(RawJson::new(borrowed)),
            },
        }
    }
}

impl<'a> From<&'a str> for RawJson<'a> {
    ghost from_gives = { λ text raw. raw ≡ borrowed text.now };

    fn from(text: &'a str) -> RawJson<'a> {
        RawJson::new(text)
    }
}

impl<'a> From<CowStr<'a>> for RawJson<'a> {
    ghost from_gives = { λ text raw. raw ≡ text_of text };

    fn from(text: CowStr<'a>) -> RawJson<'a> {
        RawJson(text)
    }
}

impl<'a> From<String> for RawJson<'a> {
    ghost from_gives = { λ text raw. raw ≡ owned (string_bytes text) };

    fn from(text: String) -> RawJson<'a> {
        RawJson::from_owned(text)
    }
}

/// Equal where the texts are, byte for byte.
impl<'a> PartialEq for RawJson<'a> {
    ghost eq = { λ x y. pointwise nat_eq (bytes_of x) (bytes_of y) };

    ghost laws = { on_per bytes_of (partial_equiv_from_equiv nat_list_eq_equiv) };

    fn eq(&self, other: &Self) -> bool {
        self.as_str() == other.as_str()
    }
}

impl<'a> Eq for RawJson<'a> {
    ghost laws = { on_equiv bytes_of nat_list_eq_equiv };
}

/// Hashed as the text is.
impl<'a> Hash for RawJson<'a> {
    ghost hash_input = { λ raw. fed.str (bytes_of raw) };

    ghost respects_eq = { Prim.search (hashing, rules) };

    fn hash<H: Hasher>(&self, state: &mut H) {
        self.as_str().hash(state);
    }
}

/// Written as the text is, with nothing added where no width and no precision are asked for.
impl<'a> fmt::Display for RawJson<'a> {
    ghost output = { λ raw. Some (bytes_of raw) };

    ghost styled_output = { λ raw spec. Some (styled_text spec (bytes_of raw)) };

    fn fmt<W: fmt::Write>(&self, f: &mut fmt::Formatter<W>) -> fmt::Result {
        f.pad(self.as_str())
    }
}

/// `RawJson("..")`, with the text between double quotes as the code would spell it. The contract says so of ASCII texts.
impl<'a> fmt::Debug for RawJson<'a> {
    ghost debug_output = { λ raw. debug_variant (codes "RawJson") (debug_str (bytes_of raw)) };

    fn fmt<W: fmt::Write>(&self, f: &mut fmt::Formatter<W>) -> fmt::Result {
        let text = self.as_str();
        write!(f, "RawJson({text:?})")
    }
}
