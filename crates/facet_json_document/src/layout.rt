//! Texts laid out anew, a piece at a time.

ghost use Rattle.std.specs.Prelude.{◌≡◌, ◌≤◌, ◌<◌, ◌+◌, ◌-◌, ◌^◌, [], length, drop, true, ◌&&◌, OnOk, IfOk};
ghost use Rattle.facet_json_token.specs.Views.{mode_of};
ghost use Rattle.facet_json_document.specs.Pieces.{pieces, closing_next, without_trailing_commas};
ghost use Rattle.facet_json_document.specs.Inner.Layout.{IsLaidOut, BeginsPiece, all_tokens, is_comma_sort, keeps_apart};

use crate::pieces::{PieceAt, Sort, closes_next, find, goes_on_in_line};
use crate::spacing::{Breaks, Indent, Space, push_space, space_between};
use facet_json_serializer::Sink;
use facet_json_token::Mode;
use std::alloc::{AllocError, Global};

/// A text that is laid out anew.
#[derive(Clone, Copy)]
pub(crate) struct Layout<'a> {
    /// The text.
    pub text: &'a [u8],
    /// What may stand between its tokens.
    pub mode: Mode,
    /// How its lines are indented.
    pub indent: Indent,
}

/// How far it is laid out.
#[derive(Clone, Copy)]
struct Progress {
    /// The offset up to which it is.
    at: usize,
    /// The piece that was written last.
    last: Sort,
    /// How many lines ended since then.
    breaks: Breaks,
    /// How many containers are open.
    depth: usize,
}

impl Layout<'_> {
    /// The text's pieces, in new lines, but for the commas that trail. Each of its tokens is one.
    pub(crate) fn lay_out(&self, alloc: Global) -> Result<Vec<u8>, AllocError>
        requires { all_tokens (pieces (mode_of self.now.mode) self.now.text.now) ≡ true }
        ensures { IfOk result
            (λ v. pieces (mode_of self.now.mode) v.items ≡ without_trailing_commas (pieces (mode_of self.now.mode) self.now.text.now)) }
    {
        let mut out = Sink::new(alloc);
        match self.push_pieces(&mut out) {
            Ok(()) => Ok(out.into_vec()),
            Err(error) => Err(error),
        }
    }

    /// Appends all pieces, and ends the last line.
    fn push_pieces(&self, out: &mut Sink) -> Result<(), AllocError>
        requires start { out.old ≡ [] }
        requires tokens { all_tokens (pieces (mode_of self.now.mode) self.now.text.now) ≡ true }
        ensures { OnOk result
            (pieces (mode_of self.now.mode) out.new ≡ without_trailing_commas (pieces (mode_of self.now.mode) self.now.text.now)) }
    {
        let mut progress = Progress {
            at: 0,
            last: Sort::Nothing,
            breaks: Breaks::None,
            depth: 0,
        };
        loop {
            match find(self.text, progress.at, self.mode) {
                PieceAt::Blank(byte) => progress = progress.past_blank(byte),
                PieceAt::Piece(sort, end) => progress = self.push_piece(out, progress, sort, end)?,
                PieceAt::End => return out.push(b'\n'),
            }
        }
    }

    /// Appends the piece that ends there, but for a comma that trails.
    fn push_piece(
        &self,
        out: &mut Sink,
        progress: Progress,
        sort: Sort,
        end: usize,
    ) -> Result<Progress, AllocError>
        requires laid { IsLaidOut (mode_of self.now.mode) self.now.text.now progress.at progress.last out.old }
        requires ahead { progress.at ≤ end }
        requires piece { BeginsPiece (mode_of self.now.mode) (drop progress.at self.now.text.now) sort (end - progress.at) }
        ensures at { IfOk result (λ p. p.at ≡ end) }
        ensures laid { IfOk result (λ p. IsLaidOut (mode_of self.now.mode) self.now.text.now p.at p.last out.new) }
    {
        if self.trails(sort, end) {
            return Ok(progress.past_comma(end));
        }
        let space = self.space_before(progress, sort, end);
        push_space(out, space, self.indent, sort.depth_at(progress.depth))?;
        out.extend_from_slice(&self.text[progress.at..end])?;
        Ok(progress.past(sort, end))
    }

    /// Whether a piece that ends there is a comma that trails.
    fn trails(&self, sort: Sort, end: usize) -> bool
        requires { end ≤ length self.now.text.now }
        ensures { result ≡ (is_comma_sort sort && closing_next (pieces (mode_of self.now.mode) (drop end self.now.text.now))) }
    {
        sort.is_comma() && closes_next(self.text, end, self.mode)
    }

    /// The white space before a piece that ends there.
    fn space_before(&self, progress: Progress, sort: Sort, end: usize) -> Space
        ensures { keeps_apart progress.last sort result ≡ true }
    {
        let leads = sort.is_block() && goes_on_in_line(self.text, end);
        space_between(progress.last, sort, progress.breaks, leads)
    }
}

impl Progress {
    /// After a byte of white space.
    fn past_blank(self, byte: u8) -> Progress
        requires { self.at < 2 ^ 64 - 1 }
        ensures at { result.at ≡ self.at + 1 }
        ensures last { result.last ≡ self.last }
    {
        Progress {
            at: self.at + 1,
            breaks: self.breaks.after(byte),
            ..self
        }
    }

    /// After a piece that is written, and ends there.
    fn past(self, sort: Sort, end: usize) -> Progress
        ensures at { result.at ≡ end }
        ensures last { result.last ≡ sort }
    {
        Progress {
            at: end,
            last: sort,
            breaks: Breaks::None,
            depth: sort.depth_after(self.depth),
        }
    }

    /// After a comma that is not written, and ends there.
    fn past_comma(self, end: usize) -> Progress
        ensures at { result.at ≡ end }
        ensures last { result.last ≡ self.last }
    {
        Progress {
            at: end,
            breaks: Breaks::None,
            ..self
        }
    }
}
