//! The escapes of the shell's `printf`.

/// How far an escape is read.
#[derive(Clone, Copy)]
enum Escape {
    /// None has begun.
    Outside,
    /// Its backslash.
    Backslash,
    /// `\x`
    Hex,
    /// `\x` and the first digit.
    Digit(u8),
}

/// Whether `printf` writes the text, and there is memory for its bytes, which are appended: it has no escapes but `\\`, `\n`, `\r`, `\t`
/// and `\xHH`, and no percent sign.
pub fn is_printed(text: &str, bytes: &mut Vec<u8>) -> bool {
    let mut escape = Escape::Outside;
    for byte in text.bytes() {
        match step(escape, byte, bytes) {
            Some(next) => escape = next,
            None => return false,
        }
    }
    matches!(escape, Escape::Outside)
}

/// How far an escape is read after this byte, where there is a byte to be printed appended to these.
fn step(escape: Escape, byte: u8, bytes: &mut Vec<u8>) -> Option<Escape> {
    let printed = match (escape, byte) {
        (Escape::Outside, b'%') => None,
        (Escape::Outside, b'\\') => return Some(Escape::Backslash),
        (Escape::Outside, byte) => Some(byte),
        (Escape::Backslash, b'x') => return Some(Escape::Hex),
        (Escape::Backslash, byte) => control(byte),
        (Escape::Hex, byte) => return Some(Escape::Digit(digit(byte)?)),
        (Escape::Digit(high), byte) => Some((high << 4) | digit(byte)?),
    };
    bytes.push(printed?).ok()?;
    Some(Escape::Outside)
}

/// What a backslash and this character stand for.
fn control(byte: u8) -> Option<u8> {
    match byte {
        b'\\' => Some(b'\\'),
        b'n' => Some(b'\n'),
        b'r' => Some(b'\r'),
        b't' => Some(b'\t'),
        _ => None,
    }
}

/// The value of a hexadecimal digit.
fn digit(byte: u8) -> Option<u8> {
    match byte {
        b'0'..=b'9' => Some(byte - b'0'),
        b'a'..=b'f' => Some(byte - b'a' + 10),
        _ => None,
    }
}
