//! What the definitions of numbers, refusals and cursors mean, in the subject's own words: each law is the contract of a function
//! without effect.

ghost use Rattle.facet_format.specs.Laws.{NumberIsLongest, NumberIsTested, MemoryIsItsKind, CursorPeekIsNext, PeekChangesNoSkip};
ghost use Rattle.facet_format.specs.Laws.{StepsAgree, RunsAgree};

/// Where more than a minus stands, the number at the start of the bytes is a number, and no longer prefix of them is one
/// (RFC 8259, section 6).
pub fn number_is_longest()
    ensures { NumberIsLongest }
{}

/// A text is tested to be a number with a hint exactly where it is one (RFC 8259, section 6).
pub fn number_is_tested()
    ensures { NumberIsTested }
{}

/// What is refused as out of memory has the kind `OutOfMemory`.
pub fn memory_is_its_kind()
    ensures { MemoryIsItsKind }
{}

/// A peek is the next event: the call after it answers what it did, a refusal too, and out of memory comes between
/// them nowhere.
pub fn peek_is_next()
    ensures { CursorPeekIsNext }
{}

/// After a peek that answers an event, a skip and a capture answer what they answer without it, out of memory aside.
pub fn peek_changes_no_skip()
    ensures { PeekChangesNoSkip }
{}

/// A cursor answers a call in one way, and is then in one state, unless one of two answers is out of memory.
pub fn steps_agree()
    ensures { StepsAgree }
{}

/// Two runs of one cursor with the same calls give the same answers, up to the first out of memory in either.
pub fn runs_agree()
    ensures { RunsAgree }
{}
