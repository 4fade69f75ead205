//! Keys that come twice in an object (RFC 8259, section 4, says that they should not).

use facet_json::{DeserializeError, FormatParser, JsonParser, ParseEvent, ParseEventKind};
use std::alloc::{AllocError, Global};
use std::borrow::CowStr;

/// A key that its object had before: its offset in the source, in bytes, how many it has with its quotes, and the offset of the first such
/// key of the object. So repeats are in the order in which they come.
pub type Repeat = (usize, usize, usize);

/// The text between the quotes of a key at this offset of the source, of so many bytes, as it stands there.
pub fn key_text(source: &[u8], offset: usize, len: usize) -> &[u8] {
    let (_, rest) = source.split_at(offset.min(source.len()));
    let (key, _) = rest.split_at(len.min(rest.len()));
    match key {
        [b'"', inner @ .., b'"'] => inner,
        _ => key,
    }
}

/// A key: its text, decoded, its offset, and how many bytes it has.
type Key<'de> = (CowStr<'de>, usize, usize);

/// The keys of the objects that are open, and what was found.
#[derive(Drop)]
struct Search<'de> {
    /// The keys, those of the innermost object last.
    keys: Vec<Key<'de>>,
    /// For each open object, how many keys the others had.
    starts: Vec<usize>,
    repeats: Vec<Repeat>,
}

impl<'de> Search<'de> {
    /// Takes one more event.
    fn take(&mut self, event: ParseEvent<'de>) -> Result<(), AllocError> {
        let ParseEvent { kind, span } = event;
        match kind {
            ParseEventKind::StructStart(_) => self.starts.push(self.keys.len())?,
            ParseEventKind::StructEnd => self.close()?,
            ParseEventKind::FieldKey(key) => self.keys.push((key.name, span.offset, span.len))?,
            ParseEventKind::SequenceStart(_)
            | ParseEventKind::SequenceEnd
            | ParseEventKind::Scalar(_) => {}
        }
        Ok(())
    }

    /// Finds the repeats of the innermost object, which ends, and lets its keys go.
    fn close(&mut self) -> Result<(), AllocError> {
        let start = self.starts.pop().unwrap_or(0).min(self.keys.len());
        let keys = &mut self.keys[start..];
        keys.sort_unstable();
        find(keys, &mut self.repeats)?;
        self.keys.truncate(start);
        Ok(())
    }
}

/// Finds the repeats among sorted keys of an object.
fn find(keys: &[Key<'_>], repeats: &mut Vec<Repeat>) -> Result<(), AllocError> {
    let mut first: Option<&Key<'_>> = None;
    for key in keys {
        match first {
            Some(known) if known.0 == key.0 => repeats.push((key.1, key.2, known.1))?,
            _ => first = Some(key),
        }
    }
    Ok(())
}

/// The repeated keys of the parser's document, in the order in which they come.
///
/// # Errors
///
/// As the parser's `next_event`, and where there is no memory for the keys of the open objects.
pub fn repeats(
    alloc: Global,
    parser: &mut JsonParser<'_>,
) -> Result<Vec<Repeat>, DeserializeError<'static>> {
    let mut search = Search {
        keys: Vec::new(alloc),
        starts: Vec::new(alloc),
        repeats: Vec::new(alloc),
    };
    while let Some(event) = parser.next_event()? {
        search.take(event)?;
    }
    search.repeats.sort_unstable();
    Ok(search.repeats)
}
