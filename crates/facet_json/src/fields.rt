//! Fields of structs, in the order in which a table names them.

ghost use Rattle.std.specs.Prelude.{◌≡◌, ◌<◌, ◌∷◌, false, cond, List, None, Some, IfNone, IfOk, IfErr, OnOk};
ghost use Rattle.std.specs.Option.{option_map, IfSome};
ghost use Rattle.std.specs.Str.{bytes_eq};
ghost use Rattle.facet_format.specs.Event.{ContainerKind, object};
ghost use Rattle.facet_format.specs.Complaint.{missing_field, refusal_at};
ghost use Rattle.facet_format.specs.Views.{refusal_of, span_of};
ghost use Rattle.facet_json_grammar.specs.Now.{ahead};
ghost use Rattle.facet_json_grammar.specs.UnreadLaws.{RefusalWithin};
ghost use Rattle.facet_json_core.specs.Meaning.Nodes.{KeepsOn};
ghost use Rattle.facet_json_core.specs.Meaning.OneValue.{PassesValue, IsAfterKey};
ghost use Rattle.facet_json_core.specs.Meaning.Reading.{IsRead, IsUnread};
ghost use Rattle.facet_json_core.specs.Meaning.Scalars.{IsSeen};
ghost use Rattle.facet_json_core.specs.Refusing.{TellsRefusal};
ghost use Rattle.facet_json.specs.Fields.{field_step, keys, table, fields_of, begins_with, first_name, other_names, joined};
ghost use Rattle.facet_json.specs.Fields.{LacksField};
ghost use Rattle.facet_json.specs.Inner.MembersInSight.{PutsUpTo, PutsBefore};

use facet_format::{DeserializeError, DeserializeErrorKind, Span};
use facet_json_core::last_span;
use facet_json_core::steps::{begin_object, next_name, pass_value};
use facet_json_facet::{Facet, value_in};
use facet_json_parser::{JsonParser, front, stand};
use facet_json_reader::scalar_at;
use facet_json_token::cutting::common_len;
use std::alloc::Global;
use std::borrow::CowStr;

/// A list of fields, as `Need(name, Need(age, Done))`, that `read_fields` reads. The input lives for `'de`.
pub trait Fields<'de>: Sized + Drop {
    /// The values that were read so far.
    type Slots: Drop;

    ghost use Rattle.std.specs.Prelude.{ℕ, Bool, List, Option};
    ghost use Rattle.facet_json.specs.Fields.{Reading};

    /// What is known of the fields within an object.
    ghost Seen: { Type 0 };

    /// What is known of the fields by the values that were read so far.
    ghost seen: { Self.Slots → Seen };

    /// What is known of the fields before an object's first member.
    ghost start: { Seen };

    /// What is seen of the fields' values.
    ghost View: { Type 0 };

    /// What is seen of the fields' values.
    ghost view: { Self → View };

    /// What a member of this key adds, with fields of these names; the input may be borrowed or not.
    ghost step: { Bool → List (List ℕ) → List ℕ → Seen → Reading Seen };

    /// The fields after an object's last member, where none is missing.
    ghost ends: { Seen → Option View };

    /// The values that were read so far borrow nothing of the input.
    ghost owned_slots: { Self.Slots → Type 0 };

    /// The fields' values borrow nothing of the input.
    ghost owned: { Self → Type 0 };

    /// No value was read.
    fn none() -> Self::Slots
        ensures none { seen result ≡ start }
        ensures owned { owned_slots result };

    /// Reads the parser's next value, that of a member, as the field of the member's key, or passes it.
    ///
    /// # Errors
    ///
    /// As the field's type, and as the parser's `skip_value`.
    fn put<'t>(
        slots: &mut Self::Slots,
        names: &[&str],
        key: &str,
        alloc: Global,
        parser: &mut JsonParser<'de>,
        borrows: bool,
    ) -> Result<(), DeserializeError<'t>>
        ensures read { OnOk result
            (IsRead (step borrows (keys names.now) key.now (seen slots.old)) parser.old (seen slots.new) parser.new) }
        ensures unread { IfErr result (λ e. IsUnread (step borrows (keys names.now) key.now (seen slots.old)) parser.old (refusal_of e)) }
        ensures keeps { KeepsOn parser.old parser.new }
        ensures one_value { IsAfterKey parser.old → OnOk result (PassesValue parser.old parser.new) }
        ensures within { IfErr result (λ e. RefusalWithin parser.new.buffer (refusal_of e)) }
        ensures owned { borrows ≡ false → owned_slots slots.old → OnOk result (owned_slots slots.new) }
        ensures tells { IfErr result (λ e. TellsRefusal parser.old parser.new (refusal_of e)) };

    /// Reads the scalar at this offset as the field of this key, or passes it, and says how many bytes it takes, where a few bytes decide
    /// it, in a text without comments that is read leniently. Else nothing changes, and `put` reads it.
    fn put_in_sight(
        slots: &mut Self::Slots,
        names: &[&str],
        key: &str,
        alloc: Global,
        input: &'de [u8],
        at: usize,
        borrows: bool,
    ) -> Option<usize>
        ensures put { IfSome result
            (λ len. IsSeen (step borrows (keys names.now) key.now (seen slots.old)) input.now at len (seen slots.new)) }
        ensures same { IfNone result (seen slots.new ≡ seen slots.old) }
        ensures owned { borrows ≡ false → owned_slots slots.old → owned_slots slots.new };

    /// The fields of an object that ends with this bracket.
    ///
    /// # Errors
    ///
    /// `MissingField`, the first one that is missing, at the bracket.
    fn finish<'t>(
        slots: Self::Slots,
        names: &'t [&'t str],
        bracket: Span,
    ) -> Result<Self, DeserializeError<'t>>
        ensures full { IfOk result (λ fields. ends (seen slots) ≡ Some (view fields)) }
        ensures missing { IfErr result (λ e. ends (seen slots) ≡ None) }
        ensures span { IfErr result (λ e. e.span ≡ Some bracket) }
        ensures owned { owned_slots slots → IfOk result owned }
        ensures told { IfErr result (λ e. LacksField (span_of bracket) (refusal_of e)) };
}

/// The end of a list of fields.
#[derive(Drop)]
pub struct Done;

/// A field that has to be there, and the fields after it.
#[derive(Drop)]
pub struct Need<T, R>(pub T, pub R);

/// A field that may be missing or null, and the fields after it.
#[derive(Drop)]
pub struct Maybe<T, R>(pub Option<T>, pub R);

impl<'de> Fields<'de> for Done {
    type Slots = ();

    ghost use Rattle.facet_json.specs.Fields.{pass, done};

    ghost Seen = { Unit {0} };

    ghost seen = { λ _. tt };

    ghost start = { tt };

    ghost View = { Unit {0} };

    ghost view = { λ _. tt };

    ghost step = { λ _. pass };

    ghost ends = { done };

    ghost owned_slots = { λ _. Unit {0} };

    ghost owned = { λ _. Unit {0} };

    fn none() -> () {}

    fn put<'t>(
        _slots: &mut (),
        _names: &[&str],
        _key: &str,
        _alloc: Global,
        parser: &mut JsonParser<'de>,
        _borrows: bool,
    ) -> Result<(), DeserializeError<'t>> {
        pass_value(parser)
    }

    #[inline(always)]
    fn put_in_sight(
        _slots: &mut (),
        _names: &[&str],
        _key: &str,
        _alloc: Global,
        input: &'de [u8],
        at: usize,
        _borrows: bool,
    ) -> Option<usize> {
        scalar_at(input, at)
    }

    fn finish<'t>(
        _slots: (),
        _names: &'t [&'t str],
        _bracket: Span,
    ) -> Result<Done, DeserializeError<'t>> {
        Ok(Done)
    }
}

impl<'de, T: Facet<'de>, R: Fields<'de>> Fields<'de> for Need<T, R> {
    type Slots = (Option<T>, R::Slots);

    ghost use Rattle.std.specs.Prelude.{Option, None};
    ghost use Rattle.facet_json.specs.Fields.{need_ends};

    ghost Seen = { Option T.View × R.Seen };

    ghost seen = { λ s. (option_map T.view s.0, R.seen s.1) };

    ghost start = { (None, R.start) };

    ghost View = { T.View × R.View };

    ghost view = { λ v. (T.view v.0, R.view v.1) };

    ghost step = { λ b. field_step (cond b T.shape.reading_borrowed T.shape.reading) (R.step b) };

    ghost ends = { need_ends R.ends };

    ghost owned_slots = { λ s. IfSome s.0 T.owned × R.owned_slots s.1 };

    ghost owned = { λ v. T.owned v.0 × R.owned v.1 };

    fn none() -> (Option<T>, R::Slots) {
        (None, R::none())
    }

    #[inline(always)]
    fn put<'t>(
        slots: &mut (Option<T>, R::Slots),
        names: &[&str],
        key: &str,
        alloc: Global,
        parser: &mut JsonParser<'de>,
        borrows: bool,
    ) -> Result<(), DeserializeError<'t>> {
        put_first::<T, R>(slots, names, key, alloc, parser, borrows)
    }

    #[inline(always)]
    fn put_in_sight(
        slots: &mut (Option<T>, R::Slots),
        names: &[&str],
        key: &str,
        alloc: Global,
        input: &'de [u8],
        at: usize,
        borrows: bool,
    ) -> Option<usize> {
        put_first_in_sight::<T, R>(slots, names, key, alloc, input, at, borrows)
    }

    fn finish<'t>(
        slots: (Option<T>, R::Slots),
        names: &'t [&'t str],
        bracket: Span,
    ) -> Result<Need<T, R>, DeserializeError<'t>> {
        let (value, others) = slots;
        match value {
            Some(value) => {
                let others = R::finish(others, after_first(names), bracket)?;
                Ok(Need(value, others))
            }
            None => Err(missing(first(names), bracket)),
        }
    }
}

impl<'de, T: Facet<'de>, R: Fields<'de>> Fields<'de> for Maybe<T, R> {
    type Slots = (Option<Option<T>>, R::Slots);

    ghost use Rattle.std.specs.Prelude.{Option, None};
    ghost use Rattle.facet_json_core.specs.Meaning.Optional.{optional};
    ghost use Rattle.facet_json.specs.Fields.{maybe_ends};

    ghost Seen = { Option (Option T.View) × R.Seen };

    ghost seen = { λ s. (option_map (λ o. option_map T.view o) s.0, R.seen s.1) };

    ghost start = { (None, R.start) };

    ghost View = { Option T.View × R.View };

    ghost view = { λ v. (option_map T.view v.0, R.view v.1) };

    ghost step = { λ b. field_step (cond b (optional T.shape.reading_borrowed) (optional T.shape.reading)) (R.step b) };

    ghost ends = { maybe_ends R.ends };

    ghost owned_slots = { λ s. IfSome s.0 (λ o. IfSome o T.owned) × R.owned_slots s.1 };

    ghost owned = { λ v. IfSome v.0 T.owned × R.owned v.1 };

    fn none() -> (Option<Option<T>>, R::Slots) {
        (None, R::none())
    }

    #[inline(always)]
    fn put<'t>(
        slots: &mut (Option<Option<T>>, R::Slots),
        names: &[&str],
        key: &str,
        alloc: Global,
        parser: &mut JsonParser<'de>,
        borrows: bool,
    ) -> Result<(), DeserializeError<'t>> {
        put_first::<Option<T>, R>(slots, names, key, alloc, parser, borrows)
    }

    #[inline(always)]
    fn put_in_sight(
        slots: &mut (Option<Option<T>>, R::Slots),
        names: &[&str],
        key: &str,
        alloc: Global,
        input: &'de [u8],
        at: usize,
        borrows: bool,
    ) -> Option<usize> {
        put_first_in_sight::<Option<T>, R>(slots, names, key, alloc, input, at, borrows)
    }

    fn finish<'t>(
        slots: (Option<Option<T>>, R::Slots),
        names: &'t [&'t str],
        bracket: Span,
    ) -> Result<Maybe<T, R>, DeserializeError<'t>> {
        let (value, others) = slots;
        let others = R::finish(others, after_first(names), bracket)?;
        Ok(Maybe(flat(value), others))
    }
}

/// Reads the parser's next value, that of a member, as the first field where the member's key is that field's name, and else as
/// one of those after it.
#[inline(always)]
fn put_first<'t, 'de, T: Facet<'de>, R: Fields<'de>>(
    slots: &mut (Option<T>, R::Slots),
    names: &[&str],
    key: &str,
    alloc: Global,
    parser: &mut JsonParser<'de>,
    borrows: bool,
) -> Result<(), DeserializeError<'t>>
    ensures read { OnOk result (IsRead
        (field_step (cond borrows T.shape.reading_borrowed T.shape.reading) (R.step borrows) (keys names.now) key.now
        (option_map T.view slots.old.0, R.seen slots.old.1))
        parser.old (option_map T.view slots.new.0, R.seen slots.new.1) parser.new) }
    ensures unread { IfErr result (λ e. IsUnread
        (field_step (cond borrows T.shape.reading_borrowed T.shape.reading) (R.step borrows) (keys names.now) key.now
        (option_map T.view slots.old.0, R.seen slots.old.1))
        parser.old (refusal_of e)) }
    ensures keeps { KeepsOn parser.old parser.new }
    ensures one_value { IsAfterKey parser.old → OnOk result (PassesValue parser.old parser.new) }
    ensures within { IfErr result (λ e. RefusalWithin parser.new.buffer (refusal_of e)) }
    ensures owned { borrows ≡ false → IfSome slots.old.0 T.owned × R.owned_slots slots.old.1
        → OnOk result (IfSome slots.new.0 T.owned × R.owned_slots slots.new.1) }
    ensures tells { IfErr result (λ e. TellsRefusal parser.old parser.new (refusal_of e)) }
{
    if is_first(names, key) {
        slots.0 = Some(value_in::<T>(alloc, parser, borrows)?);
        return Ok(());
    }
    R::put(
        &mut slots.1,
        after_first(names),
        key,
        alloc,
        parser,
        borrows,
    )
}

/// Reads the scalar at this offset as the first field where the key is that field's name, and else as one of those after it.
#[inline(always)]
fn put_first_in_sight<'de, T: Facet<'de>, R: Fields<'de>>(
    slots: &mut (Option<T>, R::Slots),
    names: &[&str],
    key: &str,
    alloc: Global,
    input: &'de [u8],
    at: usize,
    borrows: bool,
) -> Option<usize>
    ensures put { IfSome result (λ len. IsSeen
        (field_step (cond borrows T.shape.reading_borrowed T.shape.reading) (R.step borrows) (keys names.now) key.now
        (option_map T.view slots.old.0, R.seen slots.old.1))
        input.now at len (option_map T.view slots.new.0, R.seen slots.new.1)) }
    ensures same { IfNone result
        ((option_map T.view slots.new.0 ≡ option_map T.view slots.old.0) × (R.seen slots.new.1 ≡ R.seen slots.old.1)) }
    ensures owned { borrows ≡ false → IfSome slots.old.0 T.owned × R.owned_slots slots.old.1
        → IfSome slots.new.0 T.owned × R.owned_slots slots.new.1 }
{
    if is_first(names, key) {
        let (value, len) = T::in_sight(alloc, input, at, borrows)?;
        slots.0 = Some(value);
        return Some(len);
    }
    R::put_in_sight(
        &mut slots.1,
        after_first(names),
        key,
        alloc,
        input,
        at,
        borrows,
    )
}

/// Reads members whose values are scalars, as long as a few bytes decide each of them. The parser is then behind the key that is returned,
/// whose value they don't decide, or before what is no key in sight.
#[inline(always)]
fn members_in_sight<'de, F: Fields<'de>>(
    slots: &mut F::Slots,
    names: &[&str],
    alloc: Global,
    parser: &mut JsonParser<'de>,
    borrows: bool,
) -> Option<&'de str>
    ensures put { (others : List ContainerKind) → parser.old.cursor.spot.place.stack ≡ object ∷ others
        → PutsUpTo (F.step borrows (keys names.now)) parser.old (F.seen slots.old) (option_map (λ name. name.now) result) parser.new (F.seen slots.new) }
    ensures owned { borrows ≡ false → F.owned_slots slots.old → F.owned_slots slots.new }
{
    let (input, from) = front(parser)?;
    let mut at = from;
    while let Some((key, value)) = at.key(input) {
        let Some(len) = F::put_in_sight(slots, names, key, alloc, input, value.at, borrows) else {
            stand(parser, value);
            return Some(key);
        };
        at = value.behind_member(input, len);
    }
    stand(parser, at);
    None
}

/// Reads members in sight, and returns the key of the next one, whose value is not read. It is none at the object's end, which is consumed.
///
/// # Errors
///
/// As `next_name`.
#[inline(always)]
fn next_unread<'t, 'de, F: Fields<'de>>(
    slots: &mut F::Slots,
    names: &[&str],
    alloc: Global,
    parser: &mut JsonParser<'de>,
    borrows: bool,
) -> Result<Option<CowStr<'de>>, DeserializeError<'t>>
    ensures put { (others : List ContainerKind) → parser.old.cursor.spot.place.stack ≡ object ∷ others
        → PutsBefore (F.step borrows (keys names.now)) parser.old (F.seen slots.old) result parser.new (F.seen slots.new) }
    ensures owned { borrows ≡ false → F.owned_slots slots.old → F.owned_slots slots.new }
    ensures within { IfErr result (λ e. RefusalWithin parser.new.buffer (refusal_of e)) }
{
    match members_in_sight::<F>(slots, names, alloc, parser, borrows) {
        Some(key) => Ok(Some(CowStr::Borrowed(key))),
        None => next_name(parser),
    }
}

/// Reads the parser's next value, that of a member, by a call, so that what reads members in sight is compiled with none of this in it.
///
/// # Errors
///
/// As `Fields::put`.
#[inline(never)]
fn put_apart<'t, 'de, F: Fields<'de>>(
    slots: &mut F::Slots,
    names: &[&str],
    key: &str,
    alloc: Global,
    parser: &mut JsonParser<'de>,
    borrows: bool,
) -> Result<(), DeserializeError<'t>>
    ensures read { OnOk result
        (IsRead (F.step borrows (keys names.now) key.now (F.seen slots.old)) parser.old (F.seen slots.new) parser.new) }
    ensures unread { IfErr result (λ e. IsUnread (F.step borrows (keys names.now) key.now (F.seen slots.old)) parser.old (refusal_of e)) }
    ensures keeps { KeepsOn parser.old parser.new }
    ensures one_value { IsAfterKey parser.old → OnOk result (PassesValue parser.old parser.new) }
    ensures within { IfErr result (λ e. RefusalWithin parser.new.buffer (refusal_of e)) }
    ensures owned { borrows ≡ false → F.owned_slots slots.old → OnOk result (F.owned_slots slots.new) }
    ensures tells { IfErr result (λ e. TellsRefusal parser.old parser.new (refusal_of e)) }
{
    F::put(slots, names, key, alloc, parser, borrows)
}

/// Reads an object as fields of these names (RFC 8259, section 4). The last member of a repeated key counts, and a member that no
/// name fits is skipped undecoded. What is read may borrow of the input where `borrows` says so.
///
/// ```text
/// struct Person { name: String, age: u8 }
///
/// let Need(name, Need(age, Done)) = read_fields(alloc, parser, false, &["name", "age"])?;
/// Ok(Person { name, age })
///
/// {"age":30,"is":[{}],"name":"Alice"}     name: Alice, age: 30
/// {"name":"Alice"}                        MissingField { field: "age" }, span 15+1
/// ```
///
/// # Errors
///
/// - `TypeMismatch`: what stands there is no object; with the span of its first token.
/// - `MissingField`: the first of the names that has to be there and isn't; with the span of the closing bracket.
/// - What a field's type says of its value, and what the parser says where no document goes on. Or out of memory.
#[inline(always)]
pub fn read_fields<'de, 't, F: Fields<'de>>(
    alloc: Global,
    parser: &mut JsonParser<'de>,
    borrows: bool,
    names: &'t [&'t str],
) -> Result<F, DeserializeError<'t>>
    ensures read { IfOk result
        (λ f. IsRead (fields_of (table F.start (F.step borrows) F.ends) (keys names.now)) parser.old (F.view f) parser.new) }
    ensures owned { borrows ≡ false → IfOk result F.owned }
    ensures unread { IfErr result
        (λ e. IsUnread (fields_of (table F.start (F.step borrows) F.ends) (keys names.now)) parser.old (refusal_of e)) }
    ensures one_value { OnOk result (PassesValue parser.old parser.new) }
    ensures tells { IfErr result (λ e. TellsRefusal parser.old parser.new (refusal_of e)) }
    ensures within { IfErr result (λ e. RefusalWithin parser.new.buffer (refusal_of e)) }
    ensures keeps { KeepsOn parser.old parser.new }
    ensures free { OnOk result (parser.new.cursor.refusal ≡ None) }
    ensures shorter { OnOk result (ahead parser.new < ahead parser.old) }
{
    begin_object(parser)?;
    let mut slots = F::none();
    while let Some(key) = next_unread::<F>(&mut slots, names, alloc, parser, borrows)? {
        put_apart::<F>(&mut slots, names, key.as_str(), alloc, parser, borrows)?;
    }
    F::finish(slots, names, last_span(parser))
}

/// Whether this is the first of the names.
#[inline(always)]
fn is_first(names: &[&str], key: &str) -> bool
    ensures { result ≡ begins_with (keys names.now) key.now }
{
    match names {
        [] => false,
        [first, ..] => is_same(*first, key),
    }
}

/// Whether a key is this name. Most differ in their lengths already. The letters of a short name that is a constant become constants,
/// without a loop or a call.
#[inline(always)]
fn is_same(name: &str, key: &str) -> bool
    ensures { result ≡ bytes_eq name.now key.now }
{
    if name.len() != key.len() {
        return false;
    }
    if name.len() > 16 {
        return is_same_long(name, key);
    }
    common_len(key.as_bytes(), 0, name.as_bytes()) == name.len()
}

/// Whether a key is this long name, by a call, so that no address of a short one is taken.
#[inline(never)]
fn is_same_long(name: &str, key: &str) -> bool
    ensures { result ≡ bytes_eq name.now key.now }
{
    name == key
}

/// The first of the names.
#[inline(always)]
pub(crate) fn first<'n, 't>(names: &'n [&'t str]) -> &'t str
    ensures { result.now ≡ first_name (keys names.now) }
{
    match names {
        [] => "",
        [first, ..] => *first,
    }
}

/// The names after the first.
#[inline(always)]
pub(crate) fn after_first<'n, 't>(names: &'n [&'t str]) -> &'n [&'t str]
    ensures { keys result.now ≡ other_names (keys names.now) }
{
    match names {
        [] => names,
        [_, others @ ..] => others,
    }
}

/// The value of a field that may be missing.
fn flat<T: Drop>(value: Option<Option<T>>) -> Option<T>
    ensures { result ≡ joined value }
{
    match value {
        Some(value) => value,
        None => None,
    }
}

/// The refusal of an object without this field.
fn missing<'t>(field: &'t str, bracket: Span) -> DeserializeError<'t>
    ensures span { result.span ≡ Some bracket }
    ensures told { refusal_of result ≡ refusal_at (missing_field field.now) (span_of bracket) }
{
    DeserializeError {
        kind: DeserializeErrorKind::MissingField { field },
        span: Some(bracket),
    }
}
