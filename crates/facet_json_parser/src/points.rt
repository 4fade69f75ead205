//! The points that a parser keeps, each under its number, the last one last.

ghost use Rattle.std.specs.Prelude.{◌≡◌, ◌≢◌, ◌<◌, ℕ, List, Some, None, map, length, slice_index_or, MatchOption, MatchResult};
ghost use Rattle.std.specs.List.{All};
ghost use Rattle.facet_json_parser.specs.declared.points.Point.{Point as RustPoint};
ghost use Rattle.facet_format.specs.Kept.{found, without, with_point};
ghost use Rattle.facet_json_parser.specs.Ready.{ArePoints};
ghost use Rattle.facet_json_parser.specs.Views.{lookahead_of, point_of};
ghost use Rattle.facet_json_grammar.specs.Language.{Language};

use crate::lookahead::Lookahead;
use std::alloc::{AllocError, Global};

/// A lookahead that is kept under a number.
#[derive(Drop)]
pub struct Point<'de> {
    /// The number.
    pub number: u64,
    /// Where the parser stood.
    pub lookahead: Lookahead<'de>,
}

/// Keeps a copy of the lookahead under this number. Without memory for it nothing changes.
pub fn keep<'de>(
    points: &mut Vec<Point<'de>>,
    alloc: Global,
    number: u64,
    lookahead: &Lookahead<'de>,
) -> Result<(), AllocError>
    ensures { MatchResult result
        (λ _. map point_of points.new.items ≡ with_point number (lookahead_of lookahead.now) (map point_of points.old.items))
        (λ _. points.new.items ≡ points.old.items) }
{
    let lookahead = lookahead.copy(alloc)?;
    Ok(points.push(Point { number, lookahead })?)
}

/// Where in the list the point of this number is.
fn place_of(points: &[Point<'_>], number: u64) -> Option<usize>
    ensures { MatchOption result
        (All (λ p. p.number ≢ number) points.now)
        (λ i. (i < length points.now) × ((p : RustPoint) → (slice_index_or points.now i p).number ≡ number)) }
{
    points.iter().position(|point| point.number == number)
}

/// Takes out the lookahead under this number, if one is kept.
pub fn bring_back<'de>(points: &mut Vec<Point<'de>>, number: u64) -> Option<Lookahead<'de>>
    ensures { MatchOption result
        ((found number (map point_of points.old.items) ≡ None) × (points.new.items ≡ points.old.items))
        (λ s. (buffer : List ℕ) (language : Language) (counter : ℕ) → ArePoints buffer language counter (map point_of points.old.items)
        → (found number (map point_of points.old.items) ≡ Some (lookahead_of s))
        × (map point_of points.new.items ≡ without number (map point_of points.old.items))) }
{
    let at = place_of(points, number)?;
    Some(points.remove(at).lookahead)
}

/// Drops the point of this number, if one is kept.
pub fn drop_point(points: &mut Vec<Point<'_>>, number: u64)
    ensures { (buffer : List ℕ) (language : Language) (counter : ℕ) → ArePoints buffer language counter (map point_of points.old.items)
        → map point_of points.new.items ≡ without number (map point_of points.old.items) }
{
    bring_back(points, number);
}
