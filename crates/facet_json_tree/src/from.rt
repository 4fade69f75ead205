//! Values from what they hold: `Tree::from(7u64)` is `Tree::U64(7)`. Nothing is allocated or refused.

ghost use Rattle.std.specs.Prelude.{◌≡◌, string_bytes};
ghost use Rattle.facet_json_grammar.specs.Tree as tree;
ghost use Rattle.facet_json_tree.specs.Views.{tree_view, trees_view, pairs_view};

use crate::owned_decimal::OwnedDecimal;
use crate::tree::Tree;

/// `true` or `false`.
impl From<bool> for Tree {
    ghost from_gives = { λ b t. tree_view t ≡ tree.bool b };

    fn from(b: bool) -> Tree {
        Tree::Bool(b)
    }
}

/// The character, which is written as a text.
impl From<char> for Tree {
    ghost from_gives = { λ c t. tree_view t ≡ tree.char c };

    fn from(c: char) -> Tree {
        Tree::Char(c)
    }
}

/// The number, as `I64`.
impl From<i64> for Tree {
    ghost from_gives = { λ n t. tree_view t ≡ tree.i64 n };

    fn from(n: i64) -> Tree {
        Tree::I64(n)
    }
}

/// The number, as `U64`.
impl From<u64> for Tree {
    ghost from_gives = { λ n t. tree_view t ≡ tree.u64 n };

    fn from(n: u64) -> Tree {
        Tree::U64(n)
    }
}

/// The number, as `I128`.
impl From<i128> for Tree {
    ghost from_gives = { λ n t. tree_view t ≡ tree.i128 n };

    fn from(n: i128) -> Tree {
        Tree::I128(n)
    }
}

/// The number, as `U128`.
impl From<u128> for Tree {
    ghost from_gives = { λ n t. tree_view t ≡ tree.u128 n };

    fn from(n: u128) -> Tree {
        Tree::U128(n)
    }
}

/// The number, as its text.
impl From<OwnedDecimal> for Tree {
    ghost from_gives = { λ d t. tree_view t ≡ tree.decimal d };

    fn from(d: OwnedDecimal) -> Tree {
        Tree::Decimal(d)
    }
}

/// The text.
impl From<String> for Tree {
    ghost from_gives = { λ s t. tree_view t ≡ tree.text (string_bytes s) };

    fn from(text: String) -> Tree {
        Tree::Text(text)
    }
}

/// The array of these items.
impl From<Vec<Tree>> for Tree {
    ghost from_gives = { λ items t. tree_view t ≡ tree.list (trees_view items.items) };

    fn from(items: Vec<Tree>) -> Tree {
        Tree::List(items)
    }
}

/// The object of these members.
impl From<Vec<(String, Tree)>> for Tree {
    ghost from_gives = { λ members t. tree_view t ≡ tree.pairs (pairs_view members.items) };

    fn from(members: Vec<(String, Tree)>) -> Tree {
        Tree::Pairs(members)
    }
}
