//! Trees that are written down where they are needed: `tree!`, and what an expression in one may be.

ghost use Rattle.std.specs.Prelude.{◌≡◌, ◌++◌, ◌∷◌, [], OnOk, OnErr, IfOk, string_bytes};
ghost use Rattle.facet_json_grammar.specs.AsRead.{whole_number};
ghost use Rattle.facet_json_grammar.specs.Tree as tree;
ghost use Rattle.facet_json_tree.specs.Views.{tree_view, trees_view, pairs_view};
ghost use Rattle.facet_format.specs.Event.{bytes_of};
ghost use Rattle.facet_json.specs.Made.{tree_or_null};
ghost use Rattle.std.specs.declared.string.String.{String as RustString};

use facet_format::Decimal;
use facet_json_core::RawJson;
use facet_json_tree::{OwnedDecimal, Tree};
use std::alloc::{AllocError, Global};

/// A tree as JSON is written: `null`, lists and objects verbatim, and an expression where a value may stand, whose type has
/// `IntoTree`. The allocator comes first, and the answer is a `Result<Tree, AllocError>`. A name is a `&str`: a literal, or an expression
/// in parentheses. A name that comes twice stands twice.
///
/// ```text
/// let shown = tree!(in alloc; {"name": name, "tags": ["new", 1, true, null]})?;
/// ```
#[macro_export]
macro_rules! tree {
    (in $alloc:expr; $($json:tt)+) => {{
        let alloc = $alloc;
        let made: std::result::Result<$crate::Tree, std::alloc::AllocError> = 'made: {
            Ok($crate::tree_within!(alloc 'made; $($json)+))
        };
        made
    }};
    ($($rest:tt)*) => {
        compile_error!("`tree!` takes an allocator first: write `tree!(in alloc; [1, 2])?`")
    };
}

/// What `tree!` is made of.
#[macro_export]
macro_rules! tree_within {
    // `?`, which leaves the block `$out`, and not the caller's function.
    (@try $out:lifetime $step:expr) => {
        match $step {
            Ok(done) => done,
            Err(refused) => break $out Err(refused),
        }
    };

    (@items $alloc:ident $out:lifetime $list:ident) => {};
    (@items $alloc:ident $out:lifetime $list:ident null $(, $($rest:tt)*)?) => {
        $crate::tree_within!(@try $out $crate::made::push_item(&mut $list, $crate::Tree::Null));
        $crate::tree_within!(@items $alloc $out $list $($($rest)*)?);
    };
    (@items $alloc:ident $out:lifetime $list:ident [$($inner:tt)*] $(, $($rest:tt)*)?) => {
        let item = $crate::tree_within!($alloc $out; [$($inner)*]);
        $crate::tree_within!(@try $out $crate::made::push_item(&mut $list, item));
        $crate::tree_within!(@items $alloc $out $list $($($rest)*)?);
    };
    (@items $alloc:ident $out:lifetime $list:ident {$($inner:tt)*} $(, $($rest:tt)*)?) => {
        let item = $crate::tree_within!($alloc $out; {$($inner)*});
        $crate::tree_within!(@try $out $crate::made::push_item(&mut $list, item));
        $crate::tree_within!(@items $alloc $out $list $($($rest)*)?);
    };
    (@items $alloc:ident $out:lifetime $list:ident $next:expr $(, $($rest:tt)*)?) => {
        let item = $crate::tree_within!($alloc $out; $next);
        $crate::tree_within!(@try $out $crate::made::push_item(&mut $list, item));
        $crate::tree_within!(@items $alloc $out $list $($($rest)*)?);
    };

    (@members $alloc:ident $out:lifetime $members:ident) => {};
    (@members $alloc:ident $out:lifetime $members:ident $name:tt : null $(, $($rest:tt)*)?) => {
        $crate::tree_within!(@try $out $crate::made::push_member(&mut $members, $alloc, $name, $crate::Tree::Null));
        $crate::tree_within!(@members $alloc $out $members $($($rest)*)?);
    };
    (@members $alloc:ident $out:lifetime $members:ident $name:tt : [$($inner:tt)*] $(, $($rest:tt)*)?) => {
        let value = $crate::tree_within!($alloc $out; [$($inner)*]);
        $crate::tree_within!(@try $out $crate::made::push_member(&mut $members, $alloc, $name, value));
        $crate::tree_within!(@members $alloc $out $members $($($rest)*)?);
    };
    (@members $alloc:ident $out:lifetime $members:ident $name:tt : {$($inner:tt)*} $(, $($rest:tt)*)?) => {
        let value = $crate::tree_within!($alloc $out; {$($inner)*});
        $crate::tree_within!(@try $out $crate::made::push_member(&mut $members, $alloc, $name, value));
        $crate::tree_within!(@members $alloc $out $members $($($rest)*)?);
    };
    (@members $alloc:ident $out:lifetime $members:ident $name:tt : $value:expr $(, $($rest:tt)*)?) => {
        let value = $crate::tree_within!($alloc $out; $value);
        $crate::tree_within!(@try $out $crate::made::push_member(&mut $members, $alloc, $name, value));
        $crate::tree_within!(@members $alloc $out $members $($($rest)*)?);
    };

    ($alloc:ident $out:lifetime; null) => {
        $crate::Tree::Null
    };
    ($alloc:ident $out:lifetime; [$($items:tt)*]) => {{
        let mut list = Vec::new($alloc);
        $crate::tree_within!(@items $alloc $out list $($items)*);
        $crate::Tree::List(list)
    }};
    ($alloc:ident $out:lifetime; {$($members:tt)*}) => {{
        let mut members = Vec::new($alloc);
        $crate::tree_within!(@members $alloc $out members $($members)*);
        $crate::Tree::Pairs(members)
    }};
    ($alloc:ident $out:lifetime; $value:expr) => {
        $crate::tree_within!(@try $out $crate::made::IntoTree::into_tree($value, $alloc))
    };
}

/// Appends an item: a step of `tree!`.
pub fn push_item(list: &mut Vec<Tree>, item: Tree) -> Result<(), AllocError>
    ensures made { OnOk result (list.new.items ≡ list.old.items ++ item ∷ []) }
    ensures none { OnErr result (list.new.items ≡ list.old.items) }
{
    Ok(list.push(item)?)
}

/// Appends a member: a step of `tree!`.
pub fn push_member(
    members: &mut Vec<(String, Tree)>,
    alloc: Global,
    name: &str,
    value: Tree,
) -> Result<(), AllocError>
    ensures made { OnOk result
        ((key : RustString Global) × (string_bytes key ≡ name.now) × (members.new.items ≡ members.old.items ++ (key, value) ∷ [])) }
    ensures none { OnErr result (members.new.items ≡ members.old.items) }
{
    let name = String::from_str(alloc, name)?;
    Ok(members.push((name, value))?)
}

/// The whole number as it is read: with a sign only where it is below zero.
fn whole(n: i64) -> Tree
    ensures { tree_view result ≡ whole_number n }
{
    match u64::try_from(n) {
        Ok(n) => Tree::U64(n),
        Err(_) => Tree::I64(n),
    }
}

/// What an expression in `tree!` may be.
pub trait IntoTree: Sized + Drop {
    ghost use Rattle.facet_json_grammar.specs.Tree.{Tree};

    /// The value that it stands for.
    ghost tree: { Self → Tree };

    /// The value. It allocates for a text that is lent, and fails only where there is no memory for it.
    fn into_tree(self, alloc: Global) -> Result<Tree, AllocError>
        ensures { IfOk result (λ t. tree_view t ≡ tree self) };
}

/// The tree itself.
impl IntoTree for Tree {
    ghost tree = { tree_view };

    fn into_tree(self, _alloc: Global) -> Result<Tree, AllocError> {
        Ok(self)
    }
}

/// `true` or `false`.
impl IntoTree for bool {
    ghost tree = { tree.bool };

    fn into_tree(self, _alloc: Global) -> Result<Tree, AllocError> {
        Ok(Tree::Bool(self))
    }
}

/// The character, as a text.
impl IntoTree for char {
    ghost tree = { tree.char };

    fn into_tree(self, _alloc: Global) -> Result<Tree, AllocError> {
        Ok(Tree::Char(self))
    }
}

/// The number.
impl IntoTree for u8 {
    ghost tree = { tree.u64 };

    fn into_tree(self, _alloc: Global) -> Result<Tree, AllocError> {
        Ok(Tree::U64(u64::from(self)))
    }
}

/// The number.
impl IntoTree for u16 {
    ghost tree = { tree.u64 };

    fn into_tree(self, _alloc: Global) -> Result<Tree, AllocError> {
        Ok(Tree::U64(u64::from(self)))
    }
}

/// The number.
impl IntoTree for u32 {
    ghost tree = { tree.u64 };

    fn into_tree(self, _alloc: Global) -> Result<Tree, AllocError> {
        Ok(Tree::U64(u64::from(self)))
    }
}

/// The number.
impl IntoTree for u64 {
    ghost tree = { tree.u64 };

    fn into_tree(self, _alloc: Global) -> Result<Tree, AllocError> {
        Ok(Tree::U64(self))
    }
}

/// The number.
impl IntoTree for usize {
    ghost tree = { tree.u64 };

    fn into_tree(self, _alloc: Global) -> Result<Tree, AllocError> {
        Ok(Tree::U64(self as u64))
    }
}

/// The number.
impl IntoTree for u128 {
    ghost tree = { tree.u128 };

    fn into_tree(self, _alloc: Global) -> Result<Tree, AllocError> {
        Ok(Tree::U128(self))
    }
}

/// The number, as it is read.
impl IntoTree for i8 {
    ghost tree = { whole_number };

    fn into_tree(self, _alloc: Global) -> Result<Tree, AllocError> {
        Ok(whole(i64::from(self)))
    }
}

/// The number, as it is read.
impl IntoTree for i16 {
    ghost tree = { whole_number };

    fn into_tree(self, _alloc: Global) -> Result<Tree, AllocError> {
        Ok(whole(i64::from(self)))
    }
}

/// The number, as it is read.
impl IntoTree for i32 {
    ghost tree = { whole_number };

    fn into_tree(self, _alloc: Global) -> Result<Tree, AllocError> {
        Ok(whole(i64::from(self)))
    }
}

/// The number, as it is read.
impl IntoTree for i64 {
    ghost tree = { whole_number };

    fn into_tree(self, _alloc: Global) -> Result<Tree, AllocError> {
        Ok(whole(self))
    }
}

/// The number.
impl IntoTree for i128 {
    ghost tree = { tree.i128 };

    fn into_tree(self, _alloc: Global) -> Result<Tree, AllocError> {
        Ok(Tree::I128(self))
    }
}

/// A copy of the number's text.
impl IntoTree for Decimal<'_> {
    ghost tree = { λ d. tree.decimal (bytes_of d) };

    fn into_tree(self, alloc: Global) -> Result<Tree, AllocError> {
        Ok(Tree::Decimal(OwnedDecimal::new(alloc, &self)?))
    }
}

/// The number, as its text.
impl IntoTree for OwnedDecimal {
    ghost tree = { tree.decimal };

    fn into_tree(self, _alloc: Global) -> Result<Tree, AllocError> {
        Ok(Tree::Decimal(self))
    }
}

/// The text.
impl IntoTree for String {
    ghost tree = { λ s. tree.text (string_bytes s) };

    fn into_tree(self, _alloc: Global) -> Result<Tree, AllocError> {
        Ok(Tree::Text(self))
    }
}

/// A copy of the text.
impl IntoTree for &str {
    ghost tree = { λ s. tree.text s.now };

    fn into_tree(self, alloc: Global) -> Result<Tree, AllocError> {
        Ok(Tree::Text(String::from_str(alloc, self)?))
    }
}

/// A copy of the text.
impl IntoTree for &String {
    ghost tree = { λ s. tree.text (string_bytes s.now) };

    fn into_tree(self, alloc: Global) -> Result<Tree, AllocError> {
        self.as_str().into_tree(alloc)
    }
}

/// A copy of the tree.
impl IntoTree for &Tree {
    ghost tree = { λ t. tree_view t.now };

    fn into_tree(self, alloc: Global) -> Result<Tree, AllocError> {
        self.clone(alloc)
    }
}

/// The JSON text, copied where it is borrowed, which is written verbatim, unchecked.
impl IntoTree for RawJson<'_> {
    ghost tree = { λ json. tree.raw (bytes_of json) };

    fn into_tree(self, alloc: Global) -> Result<Tree, AllocError> {
        Ok(Tree::Raw(self.0.into_owned(alloc)?))
    }
}

/// The list of these items.
impl IntoTree for Vec<Tree> {
    ghost tree = { λ items. tree.list (trees_view items.items) };

    fn into_tree(self, _alloc: Global) -> Result<Tree, AllocError> {
        Ok(Tree::List(self))
    }
}

/// The object of these members.
impl IntoTree for Vec<(String, Tree)> {
    ghost tree = { λ members. tree.pairs (pairs_view members.items) };

    fn into_tree(self, _alloc: Global) -> Result<Tree, AllocError> {
        Ok(Tree::Pairs(self))
    }
}

/// What it holds, or `null`.
impl<T: IntoTree> IntoTree for Option<T> {
    ghost tree = { tree_or_null T.tree };

    fn into_tree(self, alloc: Global) -> Result<Tree, AllocError> {
        match self {
            Some(value) => value.into_tree(alloc),
            None => Ok(Tree::Null),
        }
    }
}
