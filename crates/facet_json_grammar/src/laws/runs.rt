//! Laws of runs: which tokens are passed where a value is, and how they break off.

ghost use Rattle.facet_json_grammar.specs.RunLaws.{NoRunBreaksOff, OneBreak, OneRun, RunsOrBreaksOff, SpelledIsRun};

/// At most one run begins with given tokens.
pub fn one_run()
    ensures { OneRun }
{}

/// The tokens of a value are a run, to the value's last token.
pub fn spelled_is_run()
    ensures { SpelledIsRun }
{}

/// Tokens that begin with an opening bracket begin with a run, or break off.
pub fn runs_or_breaks_off()
    ensures { RunsOrBreaksOff }
{}

/// No run breaks off.
pub fn no_run_breaks_off()
    ensures { NoRunBreaksOff }
{}

/// Tokens break off in one way.
pub fn one_break()
    ensures { OneBreak }
{}
