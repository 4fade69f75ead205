//! Laws about parsers: what the calls' contracts say of a new one, and of calls one after another.

ghost use Rattle.facet_json_grammar.specs.ParserLaws.{NewStands, AloneIsGiven, MovesAgree};
ghost use Rattle.facet_json_grammar.specs.Headline.{Headline};
ghost use Rattle.facet_json_grammar.specs.StrictHeadline.{EndsInTimeIn, StrictHeadline};
ghost use Rattle.facet_json_grammar.specs.OneRun.{StrictEndsAtRun, StrictTellsRun};
ghost use Rattle.facet_json_grammar.specs.SkipLaws.{SkipPassesRun, CapturePassesRun};
ghost use Rattle.facet_json_grammar.specs.CallLaws.{MoveIsStep, PeekIsNext, RefusalRepeats, SaveIsNumbered, RestoreBringsBack};
ghost use Rattle.facet_json_grammar.specs.CallLaws.{NumbersAreNew, UnknownChangesNothing, EndsInTime};

/// What a new parser of any input answers. Where the input has a document, it answers every list of calls as a cursor on the
/// document's walk does from its start. Where it has none, it answers the next event alone with the events of the longest
/// prefix that begins a document, and then with the input's one refusal, never the end.
pub fn headline()
    ensures { Headline }
{}

/// A new parser of an input with a document stands at the start of the document's walk.
pub fn new_stands()
    ensures { NewStands }
{}

/// Where an input has no document, a new parser that is asked for the next event alone answers what the longest prefix
/// that begins a document gives, and then the input's one refusal, never the end.
pub fn alone_is_given()
    ensures { AloneIsGiven }
{}

/// Two parsers that are one value answer every list of calls alike, up to the first out of memory in either. So a parser's
/// value determines its answers, and it doesn't say whether the parser trusts its input.
pub fn moves_agree()
    ensures { MovesAgree }
{}

/// Wherever a parser stands on a document's walk, each of its calls is one step of the cursor there, and after the call
/// it stands where that step leads.
pub fn move_is_step()
    ensures { MoveIsStep }
{}

/// On every input the next event, right after a peek that answered one, is the one that the peek answered.
pub fn peek_is_next()
    ensures { PeekIsNext }
{}

/// On every input a call for events, a skip or a capture that is refused is refused from then on, and so is each save; nothing
/// changes, until a point that is kept is restored.
pub fn refusal_repeats()
    ensures { RefusalRepeats }
{}

/// On every input a skip of a parser that isn't refused and stands before a value passes the run that begins there, and the
/// parser then stands right after it. The skip is refused only at an opening bracket: where the tokens break off, so that no run
/// stands there, or for lack of memory. So a scalar is always passed.
pub fn skip_passes_run()
    ensures { SkipPassesRun }
{}

/// On every input a capture of a parser that isn't refused and stands before a value passes the run that begins there, as a
/// skip does, and returns its bytes. It is refused only where the skip is, or where the bytes aren't UTF-8.
pub fn capture_passes_run()
    ensures { CapturePassesRun }
{}

/// On every input a save of a parser that isn't refused answers the next number. It answers none only for lack of memory,
/// or where there are no more numbers; then nothing changes, and the refusal doesn't stick.
pub fn save_is_numbered()
    ensures { SaveIsNumbered }
{}

/// On every input the restore of a point brings back where the parser stood at its save, whatever other calls were
/// between. The point is used up, and other points stay. (That no other point has its number the save's contract says.)
pub fn restore_brings_back()
    ensures { RestoreBringsBack }
{}

/// Whatever calls a new parser answered, no point has the next number.
pub fn numbers_are_new()
    ensures { NumbersAreNew }
{}

/// The restore of a point that isn't kept changes nothing.
pub fn unknown_changes_nothing()
    ensures { UnknownChangesNothing }
{}

/// On every input reading ends: where the next event is asked for once more than the input has bytes, the end or a refusal
/// is answered.
pub fn ends_in_time()
    ensures { EndsInTime }
{}

/// What a new parser of any input answers that reads RFC 8259 alone. Where the input is a strict document, it answers every list of
/// calls as a cursor on the document's walk does from its start. Else it answers the next event alone with events, and then with
/// one refusal, never the end.
pub fn strict_headline()
    ensures { StrictHeadline }
{}

/// Whatever calls a strict parser answered, skips, captures and restores among them: where nothing comes any more, and so where a next
/// event or a peek answers the end or a batch is given fewer events than it asks for, the whole input is one balanced run of tokens.
/// Its brackets are closed in order, each by one of its own kind, no fault stands among its tokens, and nothing but a gap follows them.
///
/// So a strict parser that skips a value at the root, and then returns the end, has passed all of the input: `[1, {"a": 2}]` may end so,
/// but not `[1] 2`, `[1}`, `[1` or `[1, @]`. What it skipped may be a run that is no document, as `[1,]` is.
pub fn strict_ends_at_run()
    ensures ends { StrictEndsAtRun }
    ensures tells { StrictTellsRun }
{}

/// In either language, of more calls for the next event than the input has bytes one is answered with the end or a refusal.
pub fn ends_in_time_in()
    ensures { EndsInTimeIn }
{}
