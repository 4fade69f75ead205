//! Defaults and builders.

use crate::values::shows;
use facet_json_serializer::{BytesFormat, HexBytesOptions, SerializeOptions};
use std::alloc::Global;

const COMPACT: &str = "SerializeOptions { pretty: false, indent: \"  \", bytes_format: Array }";

const PRETTY: &str = "SerializeOptions { pretty: true, indent: \"  \", bytes_format: Array }";

const TABS: &str = "SerializeOptions { pretty: true, indent: \"\\t\", bytes_format: Array }";

const WHOLE_HEX: &str = "HexBytesOptions { truncate_above: None, head: 32, tail: 32 }";

const SHORT_HEX: &str = "HexBytesOptions { truncate_above: Some(6), head: 2, tail: 3 }";

/// Whether formats are kept: these digits, and all where digits alone are asked for.
fn are_kept(hex: HexBytesOptions) -> bool {
    let options = SerializeOptions::new().bytes_format(BytesFormat::Hex(hex));
    options.bytes_format == BytesFormat::Hex(hex)
        && options.bytes_as_hex().bytes_format == BytesFormat::Hex(HexBytesOptions::new())
}

/// Whether options and formats are shown as they are asked for.
fn are_shown(alloc: Global, hex: &HexBytesOptions) -> bool {
    shows(alloc, &SerializeOptions::default(), COMPACT) == Some(true)
        && shows(alloc, &BytesFormat::default(), "Array") == Some(true)
        && shows(alloc, &HexBytesOptions::default(), WHOLE_HEX) == Some(true)
        && shows(alloc, &SerializeOptions::new().indent("\t"), TABS) == Some(true)
        && shows(alloc, &SerializeOptions::new().pretty(), PRETTY) == Some(true)
        && shows(alloc, hex, SHORT_HEX) == Some(true)
}

#[test]
fn options_are_as_they_are_asked_for(rt: HostRuntime) {
    let hex = HexBytesOptions::new().truncate(6).head_tail(2, 3);
    assert!(rt; are_shown(rt.alloc(), &hex));
    assert!(rt; HexBytesOptions::default() == HexBytesOptions::new() && are_kept(hex));
}
