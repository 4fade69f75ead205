//! Kinds whose texts hold characters past ASCII.

use crate::error_samples::{Row, Sample, Scan};

#[rattlefmt::skip]
pub static PAST_ASCII: [Row; 20] = [
    (Sample::Scan(Scan::Char('名')), "json::scan", "UnexpectedChar('名')", "unexpected '名'"),
    (Sample::Scan(Scan::Char('😀')), "json::scan", "UnexpectedChar('😀')", "unexpected '😀'"),
    (Sample::Scan(Scan::Char('\u{0}')), "json::scan", "UnexpectedChar('\\0')", "unexpected '\u{0}'"),
    (Sample::Scan(Scan::Char('\u{7f}')), "json::scan", "UnexpectedChar('\\u{7f}')", "unexpected '\u{7f}'"),
    (Sample::Scan(Scan::Char('\u{ff}')), "json::scan", "UnexpectedChar('ÿ')", "unexpected 'ÿ'"),
    (Sample::Scan(Scan::End("in größe")), "json::scan", "UnexpectedEof(\"in größe\")", "unexpected end of input in größe"),
    (Sample::ScanIn(Scan::Char('é'), "größe"), "json::scan", "UnexpectedChar('é') (while parsing größe)", "unexpected 'é', expected größe"),
    (Sample::ScanIn(Scan::End("in 名"), "größe"), "json::scan", "UnexpectedEof(\"in 名\") (while parsing größe)",
        "unexpected end of input, expected größe"),
    (Sample::Token("名", "größe"), "json::unexpected_token", "unexpected token: got 名, expected größe", "expected größe, got '名'"),
    (Sample::Expected("größe"), "json::unexpected_eof", "unexpected end of input, expected größe", "expected größe"),
    (Sample::Mismatch("größe", "名"), "json::type_mismatch", "type mismatch: expected größe, got 名", "expected größe, got 名"),
    (Sample::Unknown("名", &["größe"], None), "json::unknown_field", "unknown field `名`, expected one of: [\"größe\"]", "unknown field '名'"),
    (Sample::Unknown("名", &["a\"ö\\"], Some("größe")), "json::unknown_field",
        "unknown field `名`, expected one of: [\"a\\\"ö\\\\\"] (did you mean `größe`?)", "unknown field '名' - did you mean 'größe'?"),
    (Sample::Missing("größe"), "json::missing_field", "missing required field `größe`", "missing field 'größe'"),
    (Sample::Value("zu groß"), "json::invalid_value", "invalid value: zu groß", "invalid value"),
    (Sample::Key("é😀"), "json::duplicate_key", "duplicate key `é😀`", "duplicate key 'é😀'"),
    (Sample::Solver("größe"), "json::solver", "solver error: größe", "solver error"),
    (Sample::Io("名"), "json::io", "I/O error: 名", "I/O error"),
    (Sample::Io("a\n\u{7f}"), "json::io", "I/O error: a\n\u{7f}", "I/O error"),
    (Sample::Range("٣٠٠", "größe"), "json::number_out_of_range", "number `٣٠٠` out of range for größe", "out of range for größe"),
];
