//! What more bytes leave of what was cut, and of a scanner that needs them.

ghost use Rattle.facet_json_token.specs.Laws.{CutStays};
ghost use Rattle.facet_json_token.specs.OpenTest.{OpenIsTested};
ghost use Rattle.facet_json_scan.specs.Laws.{NeedMoreGoesOn};

/// What is cut where the buffer isn't open, a token or a fault, is cut alike from every longer buffer with that prefix:
/// bytes that come later don't change it.
pub fn cut_stays()
    ensures { CutStays }
{}

/// A test of the bytes that are left says exactly where a buffer that may grow is open.
pub fn open_is_tested()
    ensures { OpenIsTested }
{}

/// After `NeedMore` the scanner goes on in every longer buffer that begins with these bytes, from the byte that `consumed` names: by the
/// contract of `next_token` its next answer there is what is cut from that byte on, or that more bytes are needed. What is cut there is
/// what is cut from where it went on before.
pub fn need_more_goes_on()
    ensures { NeedMoreGoesOn }
{}
