//! Laws about begun documents: prefixes of tokens with which some document begins, and what they give.

ghost use Rattle.facet_json_grammar.specs.StrictLaws.{StrictInputComes, StrictIsPlain};
ghost use Rattle.facet_json_grammar.specs.EventLaws.{BegunIsPrefix, PrefixIsBegun, PrefixGivesWalk, OneGiven, InputComes, RefusedHasNone};
ghost use Rattle.facet_json_grammar.specs.EventLaws.{RefusedInOneWay};

/// Tokens that begin a document are a prefix of the spelling of some value, all of whose texts and numbers can be read.
pub fn begun_is_prefix()
    ensures { BegunIsPrefix }
{}

/// A prefix of the spelling of a value, all of whose texts and numbers can be read, begins a document.
pub fn prefix_is_begun()
    ensures { PrefixIsBegun }
{}

/// A prefix gives the first events of the walk of whatever value goes on from it.
pub fn prefix_gives_walk()
    ensures { PrefixGivesWalk }
{}

/// An input without a document has one longest prefix that begins a document: it gives one list of events, and leads to one
/// place, before the same tokens.
pub fn one_given()
    ensures { OneGiven }
{}

/// From the root of an input on comes the walk of its document, or what its longest prefix gives, after which nothing goes on.
pub fn input_comes()
    ensures { InputComes }
{}

/// An input that is refused has no document, in either mode.
pub fn refused_has_none()
    ensures { RefusedHasNone }
{}

/// An input is refused in one way at most: after the same prefix, with the same kind, texts and span.
pub fn refused_in_one_way()
    ensures { RefusedInOneWay }
{}

/// A strict document is the same plain document.
pub fn strict_is_plain()
    ensures { StrictIsPlain }
{}

/// What comes from the root of an input where RFC 8259 alone is read: the walk of its strict document, or events after which nothing
/// goes on.
pub fn strict_input_comes()
    ensures { StrictInputComes }
{}
