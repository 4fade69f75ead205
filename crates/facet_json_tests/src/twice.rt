//! Calls that are made twice: as one request for memory is refused in a run, memory runs out in one of the two at most.

/// Whether a call that was made twice gave its whole answer, but for one time at most in which memory ran out.
pub fn but_once(first: Option<bool>, again: Option<bool>) -> bool {
    first.unwrap_or(true) && again.unwrap_or(true) && (first.is_some() || again.is_some())
}
