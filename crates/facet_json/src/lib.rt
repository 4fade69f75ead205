//! JSON text (RFC 8259, with lenient readings) to values and back, proved: `from_slice`, `from_str` and their kin read a value of any type
//! with `Facet`, `to_vec`, `to_string`, `to_writer_std` and their kin write one; a `Tree` is a value of any document, and `tree_from_slice`
//! says exactly how none is refused. `from_slice_strict` and `tree_from_slice_strict` read texts of RFC 8259 alone. `read_fields` reads
//! structs, `Lines` JSON lines. A `Document` is an input read into one list of nodes, without recursion, and looked into by `Value`s.
//! `format_text` lays a text out anew, with its comments, and `check` says whether an input has a document. `JsonParser` reads by events,
//! `JsonSerializer` writes by calls, `transcode` passes a value from the one to the other, and `scanner` has tokens, strings' contents and
//! numbers by themselves. `JsonError` is what each refusal becomes by `?`, and `Report` shows it with its place in the source; a writer's
//! or a reader's own failure alone stays a `WriteError` or a `LineError`.
#![tactic(auto)]

mod documents;
mod fields;
mod find_error;
pub mod float;
pub mod laws;
mod lent;
mod line_pieces;
mod lines;
pub mod made;
mod nesting;
mod options;
mod pointer;
pub mod scanner;
pub mod steps;
mod writers;
mod writing;

pub use documents::Documents;
pub use facet_format::{
    ContainerKind, Decimal, DeserializeError, DeserializeErrorKind, FieldKey, FieldLocationHint,
    FormatParser, FormatSerializer, ParseError, ParseEvent, ParseEventKind, SavePoint, ScalarValue,
    Span,
};
pub use facet_json_core::{
    Answer, Call, Excerpt, JsonError, JsonErrorKind, Position, RawJson, Report, Result,
    TranscodeError, drive, pass_end, position_at, transcode,
};
pub use facet_json_document::{
    Document, FormatOptions, Indent, Items, Members, Value, ValueKind, check, check_jsonc,
    check_strict, check_whole, format_text, format_text_strict,
};
pub use facet_json_facet::{
    Facet, ReadResult, from_slice, from_slice_borrowed, from_slice_borrowed_jsonc,
    from_slice_jsonc, from_slice_prefix, from_slice_strict, from_str, from_str_borrowed,
    from_str_borrowed_jsonc, from_str_jsonc, from_str_prefix, from_str_strict,
};
pub use facet_json_parser::JsonParser;
pub use facet_json_reader::{Language, MaterializedToken, TokenKind};
pub use facet_json_serializer::{
    BytesFormat, HexBytesOptions, JsonSerializeError, JsonSerializer, SerializeOptions,
};
pub use facet_json_tree::{
    NotStored, OwnedDecimal, PointerError, Tree, WriteError, read_tree, tree_from_slice,
    tree_from_slice_jsonc, tree_from_slice_strict, tree_from_slice_within,
    tree_from_slice_within_jsonc, tree_from_slice_within_strict, write_tree,
};
pub use fields::{Done, Fields, Maybe, Need, read_fields};
pub use lent::{LentFields, write_fields};
pub use lines::{Line, LineError, Lines};
pub use options::{ReadOptions, from_slice_with_options, from_str_with_options};
pub use writers::{to_writer_std, to_writer_std_pretty, to_writer_std_with_options};
pub use writing::{
    to_string, to_string_pretty, to_string_with_options, to_vec, to_vec_pretty, to_vec_with_options,
};
