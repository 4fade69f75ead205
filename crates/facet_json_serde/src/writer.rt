//! JSON as a `Serializer` of `serde`'s: each event is a call of one value's, so all that is written is one value.

ghost use Rattle.std.specs.Prelude.{◌≡◌, ℕ, List, true, string_bytes, IfOk, OnOk};
ghost use Rattle.serde.specs.Spelling.{spelled};
ghost use Rattle.facet_json_serializer.specs.OptionsViews.{options_of};
ghost use Rattle.facet_format.specs.Views.{scalar_value_of};
ghost use Rattle.facet_json_serde.specs.OneValue.{IsTextOfTree, IsTree};
ghost use Rattle.facet_format.specs.Event.{decimal, borrowed};

use crate::fault::{Refusal, WriteFault};
use crate::one_value::OneValue;
use facet_format::ScalarValue;
use facet_json_serializer::SerializeOptions;
use serde::{Case, NameKind, Serializer};
use std::alloc::{AllocError, Global};
use std::borrow::CowStr;
use std::fmt;
use std::fmt::Write;

/// JSON as a `Serializer` of `serde`'s, in the layout of options, which are lent for `'i`. `to_vec` and its kin make one.
///
/// ```text
/// let options = SerializeOptions::new();
/// let mut writer = JsonWriter::new(alloc, options);
/// value.serialize(&mut writer)?;
/// writer.finish(&options)
/// ```
///
/// # Errors
///
/// A call that no value goes on with is refused as not one value, and a container or null as a key: so a value stands after a key or in a
/// list, and there is one root alone. After a refusal, out of memory too, nothing is given out.
pub struct JsonWriter<'i> {
    alloc: Global,
    value: OneValue<'i>,
    /// Room for a name in another case, and for printed text.
    room: String,
    /// The next value is the key of a map's entry.
    at_key: bool,
    /// How many maps are open.
    depth: usize,
    /// Those of them whose members stand in the map around them.
    flat: Vec<usize>,
    /// The next map is such a one.
    flattens: bool,
    /// The first fault, for which nothing is given out.
    failed: Option<Refusal>,
}

/// By a call, so that a proof about a function that owns a writer need not take it apart.
impl Drop for JsonWriter<'_> {
    fn drop(self) {
        let JsonWriter {
            alloc: _,
            value: _,
            room: _,
            at_key: _,
            depth: _,
            flat: _,
            flattens: _,
            failed: _,
        } = self;
    }
}

impl<'i> JsonWriter<'i> {
    /// Nothing is written. It does not allocate.
    pub fn new(alloc: Global, options: SerializeOptions<'i>) -> JsonWriter<'i> {
        JsonWriter {
            alloc,
            value: OneValue::new(alloc, options),
            room: String::new(alloc),
            at_key: false,
            depth: 0,
            flat: Vec::new(alloc),
            flattens: false,
            failed: None,
        }
    }

    /// The text of the value, in the layout of these options, which have to be those that it began with: that it still has them is
    /// compared, since no contract says what a type does to its writer.
    ///
    /// # Errors
    ///
    /// The first fault that a call was refused with, even if the type passed over it. Not one value, where nothing was written or a
    /// container is open, or where the options are others.
    pub fn finish(self, options: &SerializeOptions<'_>) -> Result<Vec<u8>, Refusal>
        ensures { IfOk result (λ v. IsTextOfTree (options_of options.now) v.items) }
    {
        let JsonWriter {
            alloc: _,
            value,
            room: _,
            at_key: _,
            depth: _,
            flat: _,
            flattens: _,
            failed,
        } = self;
        if let Some(why) = failed {
            return Err(why);
        }
        if !value.has_options(options) {
            return Err(Refusal::NotOneValue);
        }
        value.finish()
    }

    /// Nothing is given out from now on.
    #[cold]
    #[inline(never)]
    fn fail(&mut self, why: Refusal) -> WriteFault {
        let first = self.failed.unwrap_or(why);
        self.failed = Some(first);
        WriteFault::Refused(why)
    }

    /// What an answer becomes.
    #[inline(always)]
    fn settle(&mut self, answer: Result<(), Refusal>) -> Result<(), WriteFault> {
        match answer {
            Ok(()) => Ok(()),
            Err(why) => Err(self.fail(why)),
        }
    }

    /// A map alone can lose its braces.
    #[inline(always)]
    fn not_flat(&mut self) -> Result<(), WriteFault> {
        if self.flattens {
            Err(self.fail(Refusal::InvalidValue))
        } else {
            Ok(())
        }
    }

    /// A container or null is no key.
    #[inline(always)]
    fn no_key(&mut self) -> Result<(), WriteFault> {
        if self.at_key {
            Err(self.fail(Refusal::KeyMustBeAString))
        } else {
            Ok(())
        }
    }

    /// Writes a value that holds no others, and is no key.
    #[inline(always)]
    fn scalar(&mut self, value: ScalarValue<'_>) -> Result<(), WriteFault>
        requires { IsTree (scalar_value_of value) }
    {
        let answer = self.value.scalar(value);
        self.settle(answer)
    }

    /// Writes a value that holds no others; as a key, what is displayed of it.
    #[inline(always)]
    fn shown<T: fmt::Display>(&mut self, key: &T, value: ScalarValue<'_>) -> Result<(), WriteFault>
        requires { IsTree (scalar_value_of value) }
    {
        self.not_flat()?;
        if self.at_key {
            self.printed(key)?;
            return Ok(());
        }
        self.scalar(value)
    }

    /// Writes the room's text, as a key or as a value.
    fn room_text(&mut self, is_key: bool) -> Result<(), WriteFault> {
        let text = self.room.as_str();
        let answer = if is_key {
            self.value.key(text)
        } else {
            self.value.scalar(ScalarValue::Str(CowStr::Borrowed(text)))
        };
        self.settle(answer)
    }

    /// Writes what is printed, as a key or as a value.
    fn printed<T: fmt::Display>(&mut self, shown: &T) -> Result<(), WriteFault> {
        self.room.clear();
        if write!(self.room, "{shown}").is_err() {
            return Err(self.fail(Refusal::OutOfMemory));
        }
        self.room_text(self.at_key)
    }

    /// Writes a key.
    #[inline(always)]
    fn key_text(&mut self, key: &str) -> Result<(), WriteFault> {
        let answer = self.value.key(key);
        self.settle(answer)
    }

    /// Writes a text, as a key or as a value.
    #[inline(always)]
    fn text(&mut self, text: &str, is_key: bool) -> Result<(), WriteFault> {
        if is_key {
            return self.key_text(text);
        }
        self.scalar(ScalarValue::Str(CowStr::Borrowed(text)))
    }

    /// Writes a name, as a key or as a value.
    #[inline(always)]
    fn name(
        &mut self,
        name: &str,
        case: Case,
        kind: NameKind,
        is_key: bool,
    ) -> Result<(), WriteFault> {
        if stands(case, kind) {
            return self.text(name, is_key);
        }
        match self.spell(name, case, kind) {
            Ok(()) => self.room_text(is_key),
            Err(AllocError) => Err(self.fail(Refusal::OutOfMemory)),
        }
    }

    /// Puts the name in this case into the room. Small letters, which are asked for most, come all at once.
    #[inline(never)]
    #[tactic(auto, using(crate::proofs::Spellings::lowered))]
    fn spell(&mut self, name: &str, case: Case, kind: NameKind) -> Result<(), AllocError>
        ensures { OnOk result (string_bytes self.new.room ≡ spelled case kind name.now) }
    {
        self.room.clear();
        match (case, kind) {
            (Case::Lower, NameKind::Variant) => {
                self.room.push_str(name)?;
                self.room.make_ascii_lowercase();
                Ok(())
            }
            _ => case.append(kind, name, &mut self.room),
        }
    }

    /// Writes the text of a number with a fraction or an exponent.
    #[inline(always)]
    fn number(&mut self, text: &str) -> Result<(), WriteFault>
        requires { IsTree (decimal (borrowed text.now)) }
    {
        if self.at_key {
            return self.key_text(text);
        }
        let answer = self.value.number(text);
        self.settle(answer)
    }
}

/// Whether such a name stands for itself in this case.
#[inline(always)]
#[tactic(auto, using(crate::proofs::Spellings::as_it_is, crate::proofs::Spellings::small_field, crate::proofs::Spellings::snake_field))]
fn stands(case: Case, kind: NameKind) -> bool
    ensures { result ≡ true → (name : List ℕ) → spelled case kind name ≡ name }
{
    matches!(
        (case, kind),
        (Case::AsIs, _) | (Case::Lower | Case::Snake, NameKind::Field)
    )
}

impl<'i> Serializer for JsonWriter<'i> {
    type Error = WriteFault;

    #[inline(always)]
    fn bool(&mut self, v: bool) -> Result<(), WriteFault> {
        self.shown(&v, ScalarValue::Bool(v))
    }

    #[inline(always)]
    fn i64(&mut self, v: i64) -> Result<(), WriteFault> {
        self.shown(&v, ScalarValue::I64(v))
    }

    #[inline(always)]
    fn u64(&mut self, v: u64) -> Result<(), WriteFault> {
        self.shown(&v, ScalarValue::U64(v))
    }

    fn i128(&mut self, v: i128) -> Result<(), WriteFault> {
        self.shown(&v, ScalarValue::I128(v))
    }

    fn u128(&mut self, v: u128) -> Result<(), WriteFault> {
        self.shown(&v, ScalarValue::U128(v))
    }

    #[tactic(auto, using(crate::proofs::FloatTexts::plain_has_value))]
    fn f32(&mut self, v: f32) -> Result<(), WriteFault> {
        self.not_flat()?;
        if !v.is_finite() {
            return self.unit();
        }
        self.number(ryu::Buffer::new().format_finite(v))
    }

    #[inline(always)]
    #[tactic(auto, using(crate::proofs::FloatTexts::plain_has_value))]
    fn f64(&mut self, v: f64) -> Result<(), WriteFault> {
        self.not_flat()?;
        if !v.is_finite() {
            return self.unit();
        }
        self.number(ryu::Buffer::new().format_finite(v))
    }

    fn char(&mut self, v: char) -> Result<(), WriteFault> {
        self.shown(&v, ScalarValue::Char(v))
    }

    #[inline(always)]
    fn str(&mut self, v: &str) -> Result<(), WriteFault> {
        self.not_flat()?;
        self.text(v, self.at_key)
    }

    fn bytes(&mut self, v: &[u8]) -> Result<(), WriteFault> {
        self.not_flat()?;
        self.no_key()?;
        self.scalar(ScalarValue::Bytes(v))
    }

    #[inline(always)]
    fn unit(&mut self) -> Result<(), WriteFault> {
        self.no_key()?;
        if self.flattens {
            self.flattens = false;
            return Ok(());
        }
        self.scalar(ScalarValue::Null)
    }

    fn str_cased(&mut self, name: &str, case: Case) -> Result<(), WriteFault> {
        self.not_flat()?;
        self.name(name, case, NameKind::Variant, self.at_key)
    }

    #[inline(always)]
    fn begin_seq(&mut self, _len: Option<usize>) -> Result<(), WriteFault> {
        self.not_flat()?;
        self.no_key()?;
        let answer = self.value.begin_list();
        self.settle(answer)
    }

    #[inline(always)]
    fn end_seq(&mut self) -> Result<(), WriteFault> {
        let answer = self.value.end_list();
        self.settle(answer)
    }

    #[inline(always)]
    fn begin_map(&mut self, _len: Option<usize>) -> Result<(), WriteFault> {
        self.no_key()?;
        let level = self.depth;
        self.depth = level.saturating_add(1);
        if self.flattens {
            self.flattens = false;
            return match self.flat.push(level) {
                Ok(()) => Ok(()),
                Err(_) => Err(self.fail(Refusal::OutOfMemory)),
            };
        }
        let answer = self.value.begin_struct();
        self.settle(answer)
    }

    #[inline(always)]
    fn end_map(&mut self) -> Result<(), WriteFault> {
        self.depth = self.depth.saturating_sub(1);
        if self.flat.last() == Some(&self.depth) {
            self.flat.pop();
            return Ok(());
        }
        let answer = self.value.end_struct();
        self.settle(answer)
    }

    #[inline(always)]
    fn key_cased(&mut self, name: &str, case: Case) -> Result<(), WriteFault> {
        self.name(name, case, NameKind::Field, true)
    }

    fn variant_key(&mut self, name: &str, case: Case) -> Result<(), WriteFault> {
        self.name(name, case, NameKind::Variant, true)
    }

    fn begin_key(&mut self) -> Result<(), WriteFault> {
        self.at_key = true;
        Ok(())
    }

    fn end_key(&mut self) -> Result<(), WriteFault> {
        self.at_key = false;
        Ok(())
    }

    fn flatten_next(&mut self) -> Result<(), WriteFault> {
        self.flattens = true;
        Ok(())
    }

    fn collect_str<T: fmt::Display>(&mut self, value: &T) -> Result<(), WriteFault> {
        self.not_flat()?;
        self.printed(value)
    }

    fn custom(&self, message: &str) -> WriteFault {
        WriteFault::custom(self.alloc, message)
    }
}
