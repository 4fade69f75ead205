//! The first bracket of an input's value that stands deeper than a caller allows, found by tokens alone.

ghost use Rattle.std.specs.Prelude.{◌≡◌, ◌≤◌, ◌<◌, ◌+◌, ◌^◌, ℕ, suc, Option, Some, None, length, IfSome};
ghost use Rattle.std.specs.Option.{option_map};
ghost use Rattle.facet_format.specs.Span.{Span as SpecSpan, stop};
ghost use Rattle.facet_format.specs.Views.{span_of};
ghost use Rattle.facet_json_token.specs.Token.{Kind};
ghost use Rattle.facet_json_token.specs.Views.{kind_of, mode_of};
ghost use Rattle.facet_json.specs.Nesting.{bracket_of};
ghost use Rattle.facet_json.specs.Inner.Nested.{opened, inside, closed, beyond_at, input_beyond, beyond_after, IfInside};

use facet_format::Span;
use facet_json_token::{Mode, Token, cut};

/// How the brackets around some place of a value are counted.
#[derive(Clone, Copy)]
struct Nesting {
    /// How many there are.
    around: usize,
    /// How many more there may be.
    room: usize,
}

/// What a token of a value leads to.
enum Passed {
    /// The value goes on.
    Inside(Nesting),
    /// The value is over, or breaks off.
    Over,
    /// The token opens a bracket where no more may be open.
    Beyond,
}

impl Nesting {
    /// What this token leads to.
    fn pass(self, token: &Token) -> Passed
        requires { self.around + self.room < 2 ^ 64 }
        ensures token { (kind : Kind) (span : SpecSpan) (others : ℕ → ℕ → Option SpecSpan) → kind_of token.now ≡ Some kind
            → beyond_at (bracket_of kind) span others self.around self.room ≡ beyond_after result span others }
        ensures end { kind_of token.now ≡ None → result ≡ Passed.Over }
        ensures fits { IfInside result (λ n. n.around + n.room ≡ self.around + self.room) }
    {
        match token {
            Token::ObjectStart | Token::ArrayStart => self.opened(),
            Token::ObjectEnd | Token::ArrayEnd => self.closed(),
            Token::Eof | Token::NeedMore { .. } => Passed::Over,
            _ => self.stayed(),
        }
    }

    /// What an opening bracket leads to.
    fn opened(self) -> Passed
        requires { self.around + self.room < 2 ^ 64 }
        ensures beyond { (span : SpecSpan) (others : ℕ → ℕ → Option SpecSpan) → opened span (others (suc self.around)) self.room
            ≡ beyond_after result span others }
        ensures fits { IfInside result (λ n. n.around + n.room ≡ self.around + self.room) }
    {
        if self.room == 0 {
            return Passed::Beyond;
        }
        Passed::Inside(Nesting {
            around: self.around + 1,
            room: self.room - 1,
        })
    }

    /// What a closing bracket leads to.
    fn closed(self) -> Passed
        requires { self.around + self.room < 2 ^ 64 }
        ensures beyond { (span : SpecSpan) (others : ℕ → ℕ → Option SpecSpan) → closed (λ o. others o (suc self.room)) self.around
            ≡ beyond_after result span others }
        ensures fits { IfInside result (λ n. n.around + n.room ≡ self.around + self.room) }
    {
        if self.around < 2 {
            return Passed::Over;
        }
        Passed::Inside(Nesting {
            around: self.around - 1,
            room: self.room + 1,
        })
    }

    /// What any other token leads to.
    fn stayed(self) -> Passed
        ensures beyond { (span : SpecSpan) (others : ℕ → ℕ → Option SpecSpan) → inside (λ o. others o self.room) self.around
            ≡ beyond_after result span others }
        ensures fits { IfInside result (λ n. n.around + n.room ≡ self.around + self.room) }
    {
        if self.around == 0 {
            return Passed::Over;
        }
        Passed::Inside(self)
    }
}

/// The first opening bracket of the input's value that has so many others around it, `None` where there is none.
pub(crate) fn first_beyond(input: &[u8], mode: Mode, limit: usize) -> Option<Span>
    ensures first { option_map span_of result ≡ input_beyond input.now (mode_of mode) limit }
    ensures within { IfSome result (λ s. stop (span_of s) ≤ length input.now) }
{
    let mut nesting = Nesting {
        around: 0,
        room: limit,
    };
    let mut position = 0;
    while let Ok(token) = cut(input, position, mode) {
        let span = token.span;
        match nesting.pass(&token.token) {
            Passed::Inside(next) => nesting = next,
            Passed::Over => return None,
            Passed::Beyond => return Some(span),
        }
        position = span.end();
    }
    None
}
