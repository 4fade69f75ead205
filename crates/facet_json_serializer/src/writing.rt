//! A text that is written while memory suffices: what each call appends, and what it leaves open.

ghost use Rattle.std.specs.Prelude.{◌≡◌, [], ◌∷◌, true, cond, Ok, OnOk, IfOk, ◌<◌, ◌^◌, length};
ghost use Rattle.facet_format.specs.Bytes.{comma};
ghost use Rattle.facet_format.specs.Event as event;
ghost use Rattle.facet_format.specs.HeldText.{text_of};
ghost use Rattle.facet_format.specs.Views.{scalar_value_of};
ghost use Rattle.facet_format.specs.SerializerCall as calls;
ghost use Rattle.facet_json_serializer.specs.Serializer.{container_added};
ghost use Rattle.facet_json_serializer.specs.OptionsViews.{options_of};
ghost use Rattle.facet_json_serializer.specs.Views.{call_of, writing_of, call_answer_of};
ghost use Rattle.facet_json_serializer.specs.Inner.Writes.{Adds, Writes, innermost_ended, value_begun, with_text};
ghost use Rattle.facet_json_serializer.specs.Inner.Open.{opened_of, struct_mark, list_mark, around_innermost, with_first_passed};

use crate::append::push_bytes;
use crate::bytes_text::push_bytes_text;
use crate::error::JsonSerializeError;
use crate::options::{SerializeOptions, push_key, push_line, push_line_at_end, push_separator};
use crate::quote::push_framed;
use crate::scalar_text::push_scalar;
use crate::sink::Sink;
use facet_format::ScalarValue;
use std::alloc::{AllocError, Global};
use std::borrow::CowStr;
use std::marker::Model;

/// A call that is compiled out of line: any but a key, and a value that holds no others.
#[derive(Clone, Copy)]
pub(crate) enum Call<'a> {
    /// Begins a struct.
    BeginStruct,
    /// Ends the innermost struct.
    EndStruct,
    /// Begins a list.
    BeginSeq,
    /// Ends the innermost list.
    EndSeq,
    /// Writes a value whose JSON text is given.
    RawScalar(&'a str),
    /// Writes bytes by their format.
    Bytes(&'a [u8]),
}

/// The options, the containers that are open, and the text so far.
#[derive(Drop)]
pub(crate) struct Writing<'i> {
    pub(crate) options: SerializeOptions<'i>,
    pub(crate) stack: Containers,
    pub(crate) out: Sink,
}

impl<'i> Writing<'i> {
    /// Nothing is written, and nothing is open. It does not allocate.
    pub(crate) fn new(alloc: Global, options: SerializeOptions<'i>) -> Writing<'i>
        ensures { writing_of result ≡ record { options = options_of options.entry; stack = []; written = [] } }
    {
        Writing {
            options,
            stack: Containers::new(alloc),
            out: Sink::new(alloc),
        }
    }

    /// A value would stand after a comma alone: in a list that holds others, on one line.
    #[inline(always)]
    fn follows_a_comma(&self) -> bool
        ensures { result ≡ true → value_begun (writing_of self.now) ≡ with_text (writing_of self.now) (comma ∷ []) }
    {
        !self.options.pretty && matches!(self.stack.list_mark(), Some(false))
    }

    /// Appends what stands before a value.
    #[inline(always)]
    fn begin_value(&mut self) -> Result<(), AllocError>
        ensures { OnOk result (writing_of self.new ≡ value_begun (writing_of self.old)) }
    {
        if self.follows_a_comma() {
            self.out.push(b',')?;
            return Ok(());
        }
        if self.stack.list_mark().is_none() {
            return Ok(());
        }
        self.begin_out_of_line()
    }

    /// Appends what stands before a value, out of line: for the first value, outside a list, and where the text is indented.
    #[inline(never)]
    fn begin_out_of_line(&mut self) -> Result<(), AllocError>
        ensures { OnOk result (writing_of self.new ≡ value_begun (writing_of self.old)) }
    {
        let Some(is_empty) = self.stack.list_mark() else {
            return Ok(());
        };
        let depth = self.stack.around() + 1;
        push_separator(&mut self.out, is_empty)?;
        push_line(&mut self.out, &self.options, depth)?;
        if is_empty {
            self.stack.pass_first();
        }
        Ok(())
    }

    /// Appends what stands before a value, unless that is a comma alone: then it is left to the caller.
    #[inline(always)]
    fn begin_before_comma(&mut self) -> Result<bool, AllocError>
        ensures { IfOk result (λ after_comma.
            value_begun (writing_of self.old) ≡ with_text (writing_of self.new) (cond after_comma (comma ∷ []) [])) }
    {
        if self.follows_a_comma() {
            return Ok(true);
        }
        self.begin_value()?;
        Ok(false)
    }

    /// Makes a call.
    #[inline(always)]
    pub(crate) fn make(&mut self, call: Call<'_>) -> Result<(), JsonSerializeError>
        ensures { Writes (writing_of self.old) (call_of call.entry) (call_answer_of result) (writing_of self.new) }
    {
        match call {
            Call::BeginStruct => self.begin(Container::Struct { first: true }, b'{'),
            Call::EndStruct => self.end_struct(),
            Call::BeginSeq => self.begin(Container::List { first: true }, b'['),
            Call::EndSeq => self.end_seq(),
            Call::RawScalar(json) => self.raw_scalar(json),
            Call::Bytes(bytes) => self.bytes(bytes),
        }
    }

    /// Begins a container by its bracket.
    #[inline(always)]
    fn begin(&mut self, container: Container, bracket: u8) -> Result<(), JsonSerializeError>
        ensures { Adds (writing_of self.old)
            (container_added (options_of self.old.options) self.old.stack (opened_of container) (bracket ∷ []))
            (call_answer_of result) (writing_of self.new) }
    {
        self.begin_value()?;
        self.stack.push(container)?;
        self.out.push(bracket)?;
        Ok(())
    }

    /// Writes a key of the innermost struct.
    #[inline(always)]
    pub(crate) fn field_key(&mut self, key: &str) -> Result<(), JsonSerializeError>
        ensures { Writes (writing_of self.old) (calls.field_key key.now) (call_answer_of result) (writing_of self.new) }
    {
        let Some(first) = self.stack.struct_mark() else {
            return Err(JsonSerializeError::KeyOutsideStruct);
        };
        let depth = self.stack.around() + 1;
        push_key(&mut self.out, &self.options, depth, first, key)?;
        self.stack.pass_first();
        Ok(())
    }

    /// Ends the innermost struct.
    #[inline(always)]
    pub(crate) fn end_struct(&mut self) -> Result<(), JsonSerializeError>
        ensures { Writes (writing_of self.old) calls.end_struct (call_answer_of result) (writing_of self.new) }
    {
        let Some(first) = self.stack.struct_mark() else {
            return Err(JsonSerializeError::NoStructToEnd);
        };
        self.end(first, b'}')
    }

    /// Ends the innermost list.
    #[inline(always)]
    pub(crate) fn end_seq(&mut self) -> Result<(), JsonSerializeError>
        ensures { Writes (writing_of self.old) calls.end_seq (call_answer_of result) (writing_of self.new) }
    {
        let Some(first) = self.stack.list_mark() else {
            return Err(JsonSerializeError::NoListToEnd);
        };
        self.end(first, b']')
    }

    /// Ends the innermost container by its bracket.
    #[inline(always)]
    fn end(&mut self, first: bool, bracket: u8) -> Result<(), JsonSerializeError>
        ensures { Adds (writing_of self.old)
            (Ok (innermost_ended (options_of self.old.options) self.old.stack first (bracket ∷ [])))
            (call_answer_of result) (writing_of self.new) }
    {
        let depth = self.stack.around();
        push_line_at_end(&mut self.out, &self.options, depth, first)?;
        self.out.push(bracket)?;
        self.stack.pop();
        Ok(())
    }

    /// Writes a value that holds no others.
    #[inline(always)]
    pub(crate) fn scalar(&mut self, value: &ScalarValue<'_>) -> Result<(), JsonSerializeError>
        ensures { Writes (writing_of self.old) (calls.scalar (scalar_value_of value.now)) (call_answer_of result) (writing_of self.new) }
    {
        match value {
            ScalarValue::U64(n) => self.unsigned(*n),
            ScalarValue::I64(n) => self.signed(*n),
            ScalarValue::Str(text) => self.text(text),
            _ => self.scalar_out_of_line(value),
        }
    }

    /// Writes a text between quotes.
    #[inline(always)]
    fn text(&mut self, text: &CowStr<'_>) -> Result<(), JsonSerializeError>
        ensures { Writes (writing_of self.old) (calls.scalar (event.text (text_of text.now))) (call_answer_of result)
            (writing_of self.new) }
    {
        let after_comma = self.begin_before_comma()?;
        push_framed(&mut self.out, after_comma, text.as_str(), false)?;
        Ok(())
    }

    /// Writes a whole number without a sign.
    #[inline(always)]
    fn unsigned(&mut self, n: u64) -> Result<(), JsonSerializeError>
        ensures { Writes (writing_of self.old) (calls.scalar (event.u64 n)) (call_answer_of result) (writing_of self.new) }
    {
        let after_comma = self.begin_before_comma()?;
        self.out.push_unsigned(after_comma, n)?;
        Ok(())
    }

    /// Writes a whole number that may have a sign.
    #[inline(always)]
    fn signed(&mut self, n: i64) -> Result<(), JsonSerializeError>
        ensures { Writes (writing_of self.old) (calls.scalar (event.i64 n)) (call_answer_of result) (writing_of self.new) }
    {
        let after_comma = self.begin_before_comma()?;
        self.out.push_signed(after_comma, n)?;
        Ok(())
    }

    /// Writes a value of any kind that holds no others.
    #[inline(never)]
    fn scalar_out_of_line(&mut self, value: &ScalarValue<'_>) -> Result<(), JsonSerializeError>
        ensures { Writes (writing_of self.old) (calls.scalar (scalar_value_of value.now)) (call_answer_of result) (writing_of self.new) }
    {
        self.begin_value()?;
        push_scalar(&mut self.out, &self.options, value)?;
        Ok(())
    }

    /// Writes a value whose JSON text is given.
    #[inline(always)]
    pub(crate) fn raw_scalar(&mut self, json: &str) -> Result<(), JsonSerializeError>
        ensures { Writes (writing_of self.old) (calls.raw_scalar json.now) (call_answer_of result) (writing_of self.new) }
    {
        self.begin_value()?;
        push_bytes(&mut self.out, json.as_bytes())?;
        Ok(())
    }

    /// Writes bytes by their format.
    pub(crate) fn bytes(&mut self, bytes: &[u8]) -> Result<(), JsonSerializeError>
        ensures { Writes (writing_of self.old) (calls.byte_sequence bytes.now) (call_answer_of result) (writing_of self.new) }
    {
        self.begin_value()?;
        push_bytes_text(&mut self.out, self.options.bytes_format, bytes)?;
        Ok(())
    }
}

/// An open container, and whether nothing stands in it yet.
#[derive(Clone, Copy)]
pub(crate) enum Container {
    /// Of keys and values.
    Struct {
        /// No key was written.
        first: bool,
    },
    /// Of values.
    List {
        /// No value was written.
        first: bool,
    },
}

/// The containers that are open.
#[derive(Drop)]
pub(crate) struct Containers {
    innermost: Option<Container>,
    /// Those around it, the outermost first; none where nothing is open.
    others: Vec<Container>,
}

impl Model for Containers {
    ghost use Rattle.std.specs.Prelude.{List};
    ghost use Rattle.facet_json_serializer.specs.Serializer.{Opened};
    ghost use Rattle.facet_json_serializer.specs.Inner.Open.{all_open, IsPlaced};

    ghost Value = { List Opened };

    ghost view = { λ c. all_open c.innermost c.others.items };

    ghost invariant = { λ c. IsPlaced c.innermost c.others.items };
}

impl Containers {
    /// None. It does not allocate.
    pub(crate) fn new(alloc: Global) -> Containers
        ensures { result ≡ [] }
    {
        Containers {
            innermost: None,
            others: Vec::new(alloc),
        }
    }

    /// Whether the innermost one is still without a key, if it is a struct.
    #[inline(always)]
    pub(crate) fn struct_mark(&self) -> Option<bool>
        ensures { result ≡ struct_mark self.now }
    {
        match self.innermost {
            Some(Container::Struct { first }) => Some(first),
            _ => None,
        }
    }

    /// Whether the innermost one is still without a value, if it is a list.
    #[inline(always)]
    pub(crate) fn list_mark(&self) -> Option<bool>
        ensures { result ≡ list_mark self.now }
    {
        match self.innermost {
            Some(Container::List { first }) => Some(first),
            _ => None,
        }
    }

    /// How many stand around the innermost one.
    #[inline(always)]
    pub(crate) fn around(&self) -> usize
        ensures value { result ≡ length (around_innermost self.now) }
        ensures small { result < 2 ^ 63 }
    {
        self.others.len()
    }

    /// Opens one within the innermost one.
    #[inline(always)]
    pub(crate) fn push(&mut self, container: Container) -> Result<(), AllocError>
        ensures { OnOk result (self.new ≡ opened_of container ∷ self.old) }
    {
        if let Some(outer) = self.innermost {
            self.others.push(outer)?;
        }
        self.innermost = Some(container);
        Ok(())
    }

    /// Closes the innermost one.
    #[inline(always)]
    pub(crate) fn pop(&mut self)
        ensures { self.new ≡ around_innermost self.old }
    {
        self.innermost = self.others.pop();
    }

    /// The first key or value of the innermost one is written, or a later one.
    #[inline(always)]
    pub(crate) fn pass_first(&mut self)
        ensures { self.new ≡ with_first_passed self.old }
    {
        self.innermost = match self.innermost {
            Some(Container::Struct { .. }) => Some(Container::Struct { first: false }),
            Some(Container::List { .. }) => Some(Container::List { first: false }),
            None => None,
        };
    }
}
