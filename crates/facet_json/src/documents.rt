//! The documents that stand one after another in an input, as values of a type.

ghost use Rattle.std.specs.Prelude.{◌≡◌, ◌+◌, ◌≤◌, ◌<◌, ◌^◌, List, ℕ, length};
ghost use Rattle.std.specs.Iterator.{at_most};
ghost use Rattle.facet_format.specs.Views.{refusal_of};
ghost use Rattle.facet_json_grammar.specs.UnreadLaws.{RefusalWithin};
ghost use Rattle.facet_json.specs.Documents.{rest, moved as moved_refusal, NextGives};

use facet_format::{DeserializeError, Span};
use facet_json_facet::{Facet, from_slice_prefix};
use facet_json_token::Mode;
use facet_json_token::cutting::skip_gap;
use std::alloc::Global;
use std::marker::{Model, PhantomData};

/// An iterator over the documents that stand one after another in an input, with gaps between them (RFC 8259, section 2): each is read as
/// `from_slice_prefix` reads it, and is a value or a refusal. A refusal ends the iteration; its span counts from the start of the whole
/// input.
///
/// ```text
/// let mut numbers = Documents::<u8>::new(alloc, b"1 2\n[");
/// numbers.next()      Some(Ok(1))
/// numbers.next()      Some(Ok(2))
/// numbers.next()      Some(Err(..)), span 4+1
/// numbers.next()      None
/// ```
#[derive(Drop)]
pub struct Documents<'de, T> {
    alloc: Global,
    input: &'de [u8],
    at: usize,
    value: PhantomData<T>,
}

impl<'de, T> Model for Documents<'de, T> {
    ghost use Rattle.std.specs.Prelude.{◌≤◌, length};
    ghost use Rattle.facet_json.specs.Documents.{Documents};

    ghost Value = { Documents };

    ghost view = { λ d. record { input = d.input.now; at = d.at } };

    ghost invariant = { λ d. d.at ≤ length d.input.now };
}

impl<'de, T> Documents<'de, T> {
    /// The documents of an input, none of which is read yet.
    pub fn new(alloc: Global, input: &'de [u8]) -> Documents<'de, T>
        ensures { result ≡ record { input = input.now; at = 0 } }
    {
        Documents {
            alloc,
            input,
            at: 0,
            value: PhantomData,
        }
    }

    /// The offset in bytes up to which the input was read: after a value, where its document ends.
    pub fn offset(&self) -> usize
        ensures { result ≡ self.now.at }
    {
        self.at
    }

    /// What is left of the input.
    fn rest(&self) -> &'de [u8]
        ensures { result.now ≡ rest self.now }
    {
        &self.input[self.at..]
    }
}

impl<'de, T: Facet<'de>> Iterator for Documents<'de, T> {
    type Item = Result<T, DeserializeError<'de>>;

    ghost next_gives = { λ old item new. NextGives T.shape.reading T.view T.owned T.whole old new item };

    ghost remaining = { λ d. at_most (length (rest d)) };

    fn next(&mut self) -> Option<Result<T, DeserializeError<'de>>> {
        let rest = self.rest();
        if skip_gap(rest, 0, Mode::Plain) == rest.len() {
            self.at = self.input.len();
            return None;
        }
        match from_slice_prefix(self.alloc, rest) {
            Ok((value, end)) => {
                self.at += end;
                Some(Ok(value))
            }
            Err(error) => {
                let from = self.at;
                self.at = self.input.len();
                Some(Err(moved(error, rest, from)))
            }
        }
    }
}

/// The refusal of what stands at an offset of an input, told of the input.
fn moved<'t>(error: DeserializeError<'t>, rest: &[u8], from: usize) -> DeserializeError<'t>
    requires within { RefusalWithin rest.now (refusal_of error) }
    requires fits { from + length rest.now < 2 ^ 64 }
    ensures { refusal_of result ≡ moved_refusal from (refusal_of error.entry) }
{
    let span = match error.span {
        Some(span) => Some(Span::new(from + span.offset, span.len)),
        None => None,
    };
    DeserializeError {
        kind: error.kind,
        span,
    }
}
