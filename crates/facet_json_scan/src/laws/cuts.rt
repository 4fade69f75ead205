//! What gaps and tokens are: the definitions that compute agree with those that say what is meant.

ghost use Rattle.facet_json_token.specs.Laws.{GapIsLongest, ShapeIsCut, ShapeIsUnique, FaultIsCut, FaultIsUnique, TokensAreCuts};
ghost use Rattle.facet_json_scan.specs.Laws.{EndIsGap};

/// The gap at the start of the bytes is a gap, and no longer prefix of them is one (RFC 8259, section 2).
pub fn gap_is_longest()
    ensures { GapIsLongest }
{}

/// A token is cut exactly where its shape stands (RFC 8259, section 2).
pub fn shape_is_cut()
    ensures { ShapeIsCut }
{}

/// At one place stands the shape of at most one token.
pub fn shape_is_unique()
    ensures { ShapeIsUnique }
{}

/// A fault is cut exactly where its relation holds of what is left after the gap (RFC 8259, section 2).
pub fn fault_is_cut()
    ensures { FaultIsCut }
{}

/// At one place stands at most one fault, and none where the shape of a token stands.
pub fn fault_is_unique()
    ensures { FaultIsUnique }
{}

/// The tokens from a position on are what is cut from there on, each where the one before ends, up to the end or the
/// first fault (RFC 8259, section 2). So `tokens` are the cuts from the first byte on.
pub fn tokens_are_cuts()
    ensures { TokensAreCuts }
{}

/// Nothing is left at a position exactly where what is left is one gap, and so no token and no fault follows it
/// (RFC 8259, section 2).
pub fn end_is_gap()
    ensures { EndIsGap }
{}
