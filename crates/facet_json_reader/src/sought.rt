//! Whether what a caller looks for comes next, as far as the first byte tells.

ghost use Rattle.std.specs.Prelude.{◌≡◌, ◌≤◌, length, true};
ghost use Rattle.facet_format.specs.Span.{stop};
ghost use Rattle.facet_format.specs.Views.{span_of};
ghost use Rattle.facet_json_reader.specs.PlaceViews.{language_of};
ghost use Rattle.facet_json_reader.specs.Inner.Quick.{ComesNo};
ghost use Rattle.facet_json_reader.specs.Inner.Soughts.{event_of_sought, byte_of_sought};

use crate::place::Language;
use crate::reader::Reader;

/// What a caller looks for before a value.
#[derive(Clone, Copy)]
pub enum Sought {
    /// The end of a list.
    ListEnd,
    /// Null.
    Null,
}

impl Sought {
    /// The byte that it begins with.
    #[inline(always)]
    fn first_byte(self) -> u8
        ensures { result ≡ byte_of_sought self }
    {
        match self {
            Sought::ListEnd => b']',
            Sought::Null => b'n',
        }
    }
}

impl Reader {
    /// Whether something else comes next, as its first byte tells. Where it does not tell, the answer is no.
    #[inline(always)]
    pub fn comes_other(&self, input: &[u8], language: Language, sought: Sought) -> bool
        requires within { stop (span_of self.now.last) ≤ length input.now }
        ensures { result ≡ true → ComesNo (event_of_sought sought) input.now (language_of language) self.now }
    {
        let Some(ahead) = self.ahead(input, language) else {
            return false;
        };
        if !ahead.is_value() {
            return false;
        }
        ahead.first != sought.first_byte()
    }
}
