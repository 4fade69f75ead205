//! Laws of parts: what stands at a place of an input, its text unread, where a skip and a capture lead, and what stands there on a walk.

ghost use Rattle.facet_json_grammar.specs.UnreadLaws.{OnePart, PartsOnWalk, PartsWithin, WalkIsOneValue};

/// One part at most stands at a place of an input.
pub fn one_part()
    ensures { OnePart }
{}

/// Where the last token before a place lies within the buffer, a skip and a capture lead to a place whose last token
/// lies within it and after that one; what they are refused with lies within it.
pub fn parts_within()
    ensures { PartsWithin }
{}

/// Where a place of an input is one on a walk, the same stands at both.
pub fn parts_on_walk()
    ensures { PartsOnWalk }
{}

/// Wherever the walk of a value stands among events, what stands at its first event is this value.
pub fn walk_is_one_value()
    ensures { WalkIsOneValue }
{}
