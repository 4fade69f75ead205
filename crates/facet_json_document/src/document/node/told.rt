//! What a node tells: which value it is of, of its bytes or of what the document holds beside its nodes.

ghost use Rattle.std.specs.Prelude.{◌≡◌, true, false, List, ◌∷◌, slice_get, IfSome, MatchOption};
ghost use Rattle.std.specs.Option.{unwrap_or};
ghost use Rattle.facet_format.specs.Event.{bytes_of};
ghost use Rattle.facet_format.specs.Views.{scalar_value_of};
ghost use Rattle.facet_format.specs.declared.event.ScalarValue.{ScalarValue as RustScalar};
ghost use Rattle.facet_json_token.specs.NumberViews.{number_of};
ghost use Rattle.facet_json_core.specs.Told.{tree_of_scalar};
ghost use Rattle.facet_json_grammar.specs.Tree.{Tree};
ghost use Rattle.facet_json_document.specs.Inner.Looking.{TellsLeaf, seen_in};
ghost use Rattle.facet_json_document.specs.Inner.PlainNumbers.{BeginsPlain, IsWrittenSo};
ghost use Rattle.facet_json_document.specs.OwnNumber.{is_small, own_number};
ghost use Rattle.facet_json_document.specs.QuotedText.{IsQuotedText, quoted};
ghost use Rattle.facet_json_document.specs.Nodes.{Node as SpecNode, leaf_view, value_kind, value_beginning, key, node_view, nothing, number_tree, small_number};
ghost use Rattle.facet_json_document.specs.Nodes.{held_leaf, held_name, is_key, is_list, is_object, is_closing_node, raw_text};
ghost use Rattle.facet_json_document.specs.Nodes.{inner_len as spec_inner};

use crate::document::Document;
use crate::document::node::{Leaf, Node, NodeKind, ValueKind};
use facet_format::numeral::parts_at;
use facet_format::{Decimal, ScalarValue};
use facet_json_token::{ParsedNumber, parse_number, plain_text_unchecked};
use std::str;

impl<'i> Node<'i> {
    /// What the value is that begins here, beside what the document holds.
    pub(crate) fn kind(&self, document: &Document<'i>) -> ValueKind
        ensures { (later : List (SpecNode × Tree)) → result ≡ value_kind (value_beginning (seen_in document.now self.now) later) }
    {
        match self.kind {
            NodeKind::True | NodeKind::False => ValueKind::Bool,
            NodeKind::Number => ValueKind::Number,
            NodeKind::Text => ValueKind::Text,
            NodeKind::Held => leaf_at(document, self.more as usize).kind(),
            NodeKind::List => ValueKind::List,
            NodeKind::Object => ValueKind::Object,
            NodeKind::Null | NodeKind::Key | NodeKind::HeldKey | NodeKind::End => ValueKind::Null,
        }
    }

    /// How many of the next nodes belong to this one.
    pub(crate) fn inner(&self) -> usize
        ensures { (held : List RustScalar) → result ≡ spec_inner (node_view held self.now) }
    {
        match self.kind {
            NodeKind::List | NodeKind::Object => self.more as usize,
            _ => 0,
        }
    }

    /// The bytes of the value that begins here: none where none does.
    pub(crate) fn raw(&self) -> &'i [u8]
        ensures { (held : List RustScalar) (later : List SpecNode) → result.now ≡ raw_text (node_view held self.now ∷ later) }
    {
        match self.kind {
            NodeKind::Key | NodeKind::HeldKey | NodeKind::End => &[],
            _ => self.text,
        }
    }

    /// The value, where it is one that holds no others, beside what the document holds.
    pub(crate) fn leaf<'d>(&self, document: &'d Document<'i>) -> Option<Leaf<'d>>
        ensures { TellsLeaf (seen_in document.now self.now) result }
    {
        match self.kind {
            NodeKind::Null => Some(Leaf::Null),
            NodeKind::True => Some(Leaf::Bool(true)),
            NodeKind::False => Some(Leaf::Bool(false)),
            NodeKind::Number => Some(number_leaf(self.text)),
            NodeKind::Text => Some(Leaf::Text(unquoted(self.text))),
            NodeKind::Held => Some(leaf_at(document, self.more as usize)),
            _ => None,
        }
    }

    /// A number that is written as it stands, where its first bytes tell so.
    pub(crate) fn plain_number(&self) -> Option<&'i str>
        ensures { IfSome result (λ s. (held : List RustScalar) → IsWrittenSo s.now (node_view held self.now)) }
    {
        match self.kind {
            NodeKind::Number => plain_number(self.text),
            _ => None,
        }
    }

    /// The name, where it is a key's, beside what the document holds.
    pub(crate) fn name<'d>(&self, document: &'d Document<'i>) -> Option<&'d str>
        ensures { MatchOption result (is_key (seen_in document.now self.now) ≡ false)
            (λ name. seen_in document.now self.now ≡ key name.now) }
    {
        match self.kind {
            NodeKind::Key => Some(unquoted(self.text)),
            NodeKind::HeldKey => Some(name_at(document, self.more as usize)),
            _ => None,
        }
    }

    /// Whether it is an array's.
    pub(crate) fn is_list(&self) -> bool
        ensures { (held : List RustScalar) → result ≡ is_list (node_view held self.now) }
    {
        matches!(self.kind, NodeKind::List)
    }

    /// Whether it is an object's.
    pub(crate) fn is_object(&self) -> bool
        ensures { (held : List RustScalar) → result ≡ is_object (node_view held self.now) }
    {
        matches!(self.kind, NodeKind::Object)
    }

    /// Whether it is a container's end.
    pub(crate) fn is_end(&self) -> bool
        ensures { (held : List RustScalar) → result ≡ is_closing_node (node_view held self.now) }
    {
        matches!(self.kind, NodeKind::End)
    }
}

/// The text between its quotes.
fn unquoted(text: &[u8]) -> &str
    requires { IsQuotedText text.now }
    ensures { result.now ≡ quoted text.now }
{
    plain_text_unchecked(text, 1, text.len() - 1)
}

/// A number's bytes as text, where `begins_plain` tells that it is written as it stands.
fn plain_number(text: &[u8]) -> Option<&str>
    requires { is_small (own_number text.now) ≡ true }
    ensures { IfSome result (λ s. (s.now ≡ text.now) × BeginsPlain text.now) }
{
    if begins_plain(text) {
        // All bytes of a number are ASCII.
        Some(unsafe { str::from_utf8_unchecked(text) })
    } else {
        None
    }
}

/// Whether the first digit of a number is no zero, or a point is behind that zero. A whole number with another zero in front is written
/// without it.
fn begins_plain(text: &[u8]) -> bool
    ensures { result ≡ true → BeginsPlain text.now }
{
    match text.first() {
        Some(b'1'..=b'9') => true,
        Some(b'-') => matches!(text.get(1), Some(b'1'..=b'9')),
        Some(b'0') => matches!(text.get(1), Some(b'.')),
        _ => false,
    }
}

/// The value of a number's bytes.
fn number_leaf(text: &[u8]) -> Leaf<'_>
    ensures { leaf_view result ≡ number_tree text.now }
{
    match parse_number(text, 0, text.len(), parts_at(text, 0).hint()) {
        Ok(number) => leaf_of_number(number),
        Err(_) => Leaf::Other,
    }
}

/// The value of a number, where a document has it as a number.
fn leaf_of_number(number: ParsedNumber<'_>) -> Leaf<'_>
    ensures { leaf_view result ≡ small_number (number_of number.entry) }
{
    match number {
        ParsedNumber::U64(n) => Leaf::U64(n),
        ParsedNumber::I64(n) => Leaf::I64(n),
        ParsedNumber::Decimal(decimal) => Leaf::Decimal(decimal),
        ParsedNumber::U128(_) | ParsedNumber::I128(_) => Leaf::Other,
    }
}

/// The value that is held at this index.
fn leaf_at<'d>(document: &'d Document<'_>, at: usize) -> Leaf<'d>
    ensures { leaf_view result ≡ held_leaf (slice_get document.now.held.items at) }
{
    match document.held.get(at) {
        Some(value) => leaf_of(value),
        None => Leaf::Other,
    }
}

/// The name that is held at this index.
fn name_at<'d>(document: &'d Document<'_>, at: usize) -> &'d str
    ensures { result.now ≡ held_name (slice_get document.now.held.items at) }
{
    match document.held.get(at) {
        Some(ScalarValue::Str(name)) => name.as_str(),
        _ => "",
    }
}

/// A value that holds no others.
fn leaf_of<'d>(value: &'d ScalarValue<'_>) -> Leaf<'d>
    ensures { leaf_view result ≡ unwrap_or (tree_of_scalar (scalar_value_of value.now)) nothing }
{
    match value {
        ScalarValue::Null => Leaf::Null,
        ScalarValue::Unit => Leaf::Null,
        ScalarValue::Bool(b) => Leaf::Bool(*b),
        ScalarValue::I64(n) => Leaf::I64(*n),
        ScalarValue::U64(n) => Leaf::U64(*n),
        ScalarValue::Decimal(decimal) => Leaf::Decimal(lent(decimal)),
        ScalarValue::Str(text) => Leaf::Text(text.as_str()),
        _ => Leaf::Other,
    }
}

/// The number, its text borrowed.
fn lent<'d>(decimal: &'d Decimal<'_>) -> Decimal<'d>
    ensures { bytes_of result ≡ bytes_of decimal.now }
{
    match Decimal::of_number(decimal.as_str()) {
        Some(lent) => lent,
        None => unreachable!(),
    }
}

impl Leaf<'_> {
    /// What the value is.
    fn kind(&self) -> ValueKind
        ensures { result ≡ value_kind (leaf_view self.now) }
    {
        match self {
            Leaf::Bool(_) => ValueKind::Bool,
            Leaf::I64(_) => ValueKind::Number,
            Leaf::U64(_) => ValueKind::Number,
            Leaf::Decimal(_) => ValueKind::Number,
            Leaf::Text(_) => ValueKind::Text,
            Leaf::Null | Leaf::Other => ValueKind::Null,
        }
    }
}
