//! What a value is: `null`, or its truth value, text, number, items or members (RFC 8259, section 3).

ghost use Rattle.std.specs.Prelude.{◌≡◌, option_map};
ghost use Rattle.std.specs.Int.{w64, w128};
ghost use Rattle.facet_format.specs.Event.{bytes_of};
ghost use Rattle.facet_json_tree.specs.Content as content;
ghost use Rattle.facet_json_tree.specs.Content.{TellsUnsigned, TellsSigned};
ghost use Rattle.facet_json_tree.specs.Views.{tree_view, trees_view, pairs_view};

use crate::tree::Tree;
use facet_format::Decimal;
use facet_json_core::RawJson;

impl Tree {
    /// Whether JSON has the value as `null` (RFC 8259, section 3), as it has `Null` and `Unit`.
    ///
    /// ```text
    /// Tree::Unit.is_null()                                    true
    /// Tree::Bool(false).is_null()                             false
    /// ```
    pub fn is_null(&self) -> bool
        ensures { result ≡ content.is_null (tree_view self.now) }
    {
        matches!(self, Tree::Null | Tree::Unit)
    }

    /// The truth value of a `Bool` (RFC 8259, section 3).
    ///
    /// ```text
    /// Tree::Bool(true).as_bool()                              Some(true)
    /// Tree::U64(1).as_bool()                                  None
    /// ```
    pub fn as_bool(&self) -> Option<bool>
        ensures { result ≡ content.as_bool (tree_view self.now) }
    {
        match self {
            Tree::Bool(b) => Some(*b),
            _ => None,
        }
    }

    /// The text of a `Text`, unescaped, in UTF-8 (RFC 8259, section 7).
    ///
    /// ```text
    /// of "a": as_str()                                        Some("a")
    /// Tree::Char('a').as_str()                                None
    /// ```
    pub fn as_str(&self) -> Option<&str>
        ensures { option_map (λ t. t.now) result ≡ content.as_str (tree_view self.now) }
    {
        match self {
            Tree::Text(text) => Some(text.as_str()),
            _ => None,
        }
    }

    /// The whole number that the value is, whichever variant holds it, where it is one of 64 bits without a sign
    /// (RFC 8259, section 6).
    ///
    /// ```text
    /// Tree::I128(5).as_u64()                                  Some(5)
    /// Tree::I64(-5).as_u64()                                  None
    /// ```
    pub fn as_u64(&self) -> Option<u64>
        ensures { TellsUnsigned w64 (tree_view self.now) result }
    {
        match self {
            Tree::I64(n) => u64::try_from(*n).ok(),
            Tree::U64(n) => Some(*n),
            Tree::I128(n) => u64::try_from(*n).ok(),
            Tree::U128(n) => u64::try_from(*n).ok(),
            _ => None,
        }
    }

    /// The whole number that the value is, whichever variant holds it, where it is one of 64 bits with a sign.
    ///
    /// ```text
    /// Tree::U64(5).as_i64()                                   Some(5)
    /// Tree::U64(9223372036854775808).as_i64()                 None
    /// ```
    pub fn as_i64(&self) -> Option<i64>
        ensures { TellsSigned w64 (tree_view self.now) result }
    {
        match self {
            Tree::I64(n) => Some(*n),
            Tree::U64(n) => i64::try_from(*n).ok(),
            Tree::I128(n) => i64::try_from(*n).ok(),
            Tree::U128(n) => i64::try_from(*n).ok(),
            _ => None,
        }
    }

    /// The whole number that the value is, whichever variant holds it, where it is one of 128 bits without a sign.
    ///
    /// ```text
    /// Tree::U64(5).as_u128()                                  Some(5)
    /// Tree::I64(-5).as_u128()                                 None
    /// ```
    pub fn as_u128(&self) -> Option<u128>
        ensures { TellsUnsigned w128 (tree_view self.now) result }
    {
        match self {
            Tree::I64(n) => u128::try_from(*n).ok(),
            Tree::U64(n) => Some(u128::from(*n)),
            Tree::I128(n) => u128::try_from(*n).ok(),
            Tree::U128(n) => Some(*n),
            _ => None,
        }
    }

    /// The whole number that the value is, whichever variant holds it, where it is one of 128 bits with a sign.
    ///
    /// ```text
    /// Tree::I64(-5).as_i128()                                 Some(-5)
    /// Tree::Null.as_i128()                                    None
    /// ```
    pub fn as_i128(&self) -> Option<i128>
        ensures { TellsSigned w128 (tree_view self.now) result }
    {
        match self {
            Tree::I64(n) => Some(i128::from(*n)),
            Tree::U64(n) => Some(i128::from(*n)),
            Tree::I128(n) => Some(*n),
            Tree::U128(n) => i128::try_from(*n).ok(),
            _ => None,
        }
    }

    /// The number of a `Decimal`, as its text: it has a fraction or an exponent (RFC 8259, section 6).
    ///
    /// ```text
    /// of 1.50: as_decimal()                                   Some: its text is "1.50"
    /// of 1: as_decimal()                                      None
    /// ```
    pub fn as_decimal(&self) -> Option<Decimal<'_>>
        ensures { option_map bytes_of result ≡ content.as_decimal (tree_view self.now) }
    {
        match self {
            Tree::Decimal(decimal) => Some(decimal.as_decimal()),
            _ => None,
        }
    }

    /// The JSON text of a `Raw`, unchecked.
    ///
    /// ```text
    /// Tree::Raw(copy of "[1]").as_raw()                       Some: its text is "[1]"
    /// of "[1]": as_raw()                                      None
    /// ```
    pub fn as_raw(&self) -> Option<RawJson<'_>>
        ensures { option_map bytes_of result ≡ content.as_raw (tree_view self.now) }
    {
        match self {
            Tree::Raw(json) => Some(RawJson::new(json.as_str())),
            _ => None,
        }
    }

    /// The items of a list, in order (RFC 8259, section 5).
    ///
    /// ```text
    /// of [7,8]: as_list()                                     Some: two items
    /// of {}: as_list()                                        None
    /// ```
    pub fn as_list(&self) -> Option<&[Tree]>
        ensures { option_map (λ items. trees_view items.now) result ≡ content.as_list (tree_view self.now) }
    {
        match self {
            Tree::List(items) => Some(items.as_slice()),
            _ => None,
        }
    }

    /// The members of an object, in order (RFC 8259, section 4). A name that comes twice stands twice.
    ///
    /// ```text
    /// of {"a":1,"a":2}: as_pairs()                            Some: two members
    /// of []: as_pairs()                                       None
    /// ```
    pub fn as_pairs(&self) -> Option<&[(String, Tree)]>
        ensures { option_map (λ members. pairs_view members.now) result ≡ content.as_pairs (tree_view self.now) }
    {
        match self {
            Tree::Pairs(members) => Some(members.as_slice()),
            _ => None,
        }
    }
}
