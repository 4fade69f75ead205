//! Writes JSON call by call.

ghost use Rattle.std.specs.Prelude.{◌≡◌, [], Some, None, Ok, true, codes, MatchResult, IfOk, IfSome, IsSome};
ghost use Rattle.facet_format.specs.Views.{scalar_value_of};
ghost use Rattle.facet_json_grammar.specs.Text.{default_options};
ghost use Rattle.facet_format.specs.SerializerCall.{begin_struct, field_key, end_struct, begin_seq, end_seq, scalar, raw_scalar};
ghost use Rattle.facet_format.specs.SerializerCall.{byte_sequence, byte_array, IsServed, IsServedOrLeft};
ghost use Rattle.facet_json_serializer.specs.Serializer.{Writing as SpecWriting, out_of_memory, Appends, Takes, IsSpent};
ghost use Rattle.facet_json_serializer.specs.OptionsViews.{options_of};
ghost use Rattle.facet_json_serializer.specs.Views.{call_of, call_answer_of, bytes_answer_of, write_refusal_of};
ghost use Rattle.facet_json_serializer.specs.Inner.Writes.{settled};

use crate::error::JsonSerializeError;
use crate::options::SerializeOptions;
use crate::writing::{Call, Writing};
use facet_format::{FormatSerializer, ScalarValue};
use std::alloc::Global;
use std::fmt;
use std::marker::Model;

/// Writes JSON (RFC 8259) call by call, in the layout of its options, which are lent for `'i`.
///
/// Commas, new lines and indents are written by the calls themselves. What was written stands in the order of the calls; a
/// text is JSON where they are those of one value, with a key before each value in a struct.
///
/// ```text
/// let mut serializer = JsonSerializer::new(alloc);
/// serializer.begin_struct()                       Ok
/// serializer.field_key("a")                       Ok
/// serializer.begin_seq()                          Ok
/// serializer.scalar(ScalarValue::U64(1))          Ok
/// serializer.end_struct()                         Err: NoStructToEnd, and nothing changes
/// serializer.end_seq()                            Ok
/// serializer.end_struct()                         Ok
/// serializer.finish()                             Ok: {"a":[1]}
/// ```
///
/// # Errors
///
/// Every call is refused with `OutOfMemory` where an allocation fails, and from then on, `finish` too. The other refusals
/// change nothing.
pub struct JsonSerializer<'i> {
    writing: Writing<'i>,
    failed: bool,
}

/// Its name alone.
impl fmt::Debug for JsonSerializer<'_> {
    fn fmt<W: fmt::Write>(&self, f: &mut fmt::Formatter<W>) -> fmt::Result {
        f.debug_struct("JsonSerializer").finish_non_exhaustive()
    }
}

/// By a call, so that a proof about a function that owns a serializer need not take it apart.
impl Drop for JsonSerializer<'_> {
    fn drop(self) {
        let JsonSerializer {
            writing: _,
            failed: _,
        } = self;
    }
}

impl<'i> Model for JsonSerializer<'i> {
    ghost use Rattle.std.specs.Prelude.{cond, Option, Some, None};
    ghost use Rattle.facet_json_serializer.specs.Serializer.{Writing as SpecWriting};
    ghost use Rattle.facet_json_serializer.specs.Views.{writing_of};

    ghost Value = { Option SpecWriting };

    ghost view = { λ s. cond s.failed None (Some (writing_of s.writing)) };
}

impl<'i> JsonSerializer<'i> {
    /// A serializer of compact text, with bytes as lists of numbers. It does not allocate.
    pub fn new(alloc: Global) -> JsonSerializer<'i>
        ensures { result ≡ Some (record { options = default_options; stack = []; written = [] }) }
    {
        JsonSerializer::with_options(alloc, SerializeOptions::new())
    }

    /// A serializer of a text of these options. It does not allocate.
    pub fn with_options(alloc: Global, options: SerializeOptions<'i>) -> JsonSerializer<'i>
        ensures { result ≡ Some (record { options = options_of options.entry; stack = []; written = [] }) }
    {
        JsonSerializer {
            writing: Writing::new(alloc, options),
            failed: false,
        }
    }

    /// All that was written, whether or not containers are open. It does not allocate.
    ///
    /// # Errors
    ///
    /// `OutOfMemory`, where a call was refused so.
    pub fn finish(self) -> Result<Vec<u8>, JsonSerializeError>
        ensures { MatchResult result
            (λ v. (w : SpecWriting) × (self.entry ≡ Some w) × (v.items ≡ w.written))
            (λ e. (self.entry ≡ None) × (write_refusal_of e ≡ out_of_memory)) }
    {
        let JsonSerializer { writing, failed } = self;
        if failed {
            return Err(JsonSerializeError::OutOfMemory);
        }
        Ok(writing.out.into_vec())
    }

    /// Makes a call, unless an allocation failed before.
    #[inline(always)]
    fn make(&mut self, call: Call<'_>) -> Result<(), JsonSerializeError>
        ensures serves { IsServed Takes IsSpent self.old (call_of call.entry) result self.new }
        ensures appends { Appends self.old (call_of call.entry) (call_answer_of result) self.new }
    {
        if self.failed {
            return Err(JsonSerializeError::OutOfMemory);
        }
        let answer = self.writing.make(call);
        self.settle(answer)
    }

    /// Passes an answer on, and marks where memory ran out.
    #[inline(always)]
    fn settle(&mut self, answer: Result<(), JsonSerializeError>) -> Result<(), JsonSerializeError>
        ensures answer { result ≡ answer }
        ensures now { self.new ≡ settled self.old (call_answer_of answer) }
    {
        if let Err(JsonSerializeError::OutOfMemory) = &answer {
            self.failed = true;
        }
        answer
    }
}

impl<'i> FormatSerializer for JsonSerializer<'i> {
    type Error = JsonSerializeError;

    ghost takes = { Takes };

    ghost spent = { IsSpent };

    /// Begins a struct: a comma before it in a list, unless it is the first there, and a bracket.
    ///
    /// # Errors
    ///
    /// `OutOfMemory`.
    #[inline(always)]
    fn begin_struct(&mut self) -> Result<(), JsonSerializeError>
        ensures serves { IsServed Takes IsSpent self.old begin_struct result self.new }
        ensures appends { Appends self.old begin_struct (call_answer_of result) self.new }
    {
        self.make(Call::BeginStruct)
    }

    /// Writes a key of the innermost open struct. It is compiled in line: where the key is known then, it is written by a few stores.
    ///
    /// # Errors
    ///
    /// `KeyOutsideStruct`, where the innermost open container is a list, or none is open. `OutOfMemory`.
    #[inline(always)]
    fn field_key(&mut self, key: &str) -> Result<(), JsonSerializeError>
        ensures serves { IsServed Takes IsSpent self.old (field_key key.now) result self.new }
        ensures appends { Appends self.old (field_key key.now) (call_answer_of result) self.new }
    {
        if self.failed {
            return Err(JsonSerializeError::OutOfMemory);
        }
        let answer = self.writing.field_key(key);
        self.settle(answer)
    }

    /// Ends the innermost open struct.
    ///
    /// # Errors
    ///
    /// `NoStructToEnd`, where the innermost open container is a list, or none is open. `OutOfMemory`.
    #[inline(always)]
    fn end_struct(&mut self) -> Result<(), JsonSerializeError>
        ensures serves { IsServed Takes IsSpent self.old end_struct result self.new }
        ensures appends { Appends self.old end_struct (call_answer_of result) self.new }
    {
        self.make(Call::EndStruct)
    }

    /// Begins a list: a comma before it in a list, unless it is the first there, and a bracket.
    ///
    /// # Errors
    ///
    /// `OutOfMemory`.
    #[inline(always)]
    fn begin_seq(&mut self) -> Result<(), JsonSerializeError>
        ensures serves { IsServed Takes IsSpent self.old begin_seq result self.new }
        ensures appends { Appends self.old begin_seq (call_answer_of result) self.new }
    {
        self.make(Call::BeginSeq)
    }

    /// Ends the innermost open list.
    ///
    /// # Errors
    ///
    /// `NoListToEnd`, where the innermost open container is a struct, or none is open. `OutOfMemory`.
    #[inline(always)]
    fn end_seq(&mut self) -> Result<(), JsonSerializeError>
        ensures serves { IsServed Takes IsSpent self.old end_seq result self.new }
        ensures appends { Appends self.old end_seq (call_answer_of result) self.new }
    {
        self.make(Call::EndSeq)
    }

    /// Writes a value that holds no others.
    ///
    /// # Errors
    ///
    /// `OutOfMemory`.
    #[inline(always)]
    fn scalar(&mut self, value: ScalarValue<'_>) -> Result<(), JsonSerializeError>
        ensures serves { IsServed Takes IsSpent self.old (scalar (scalar_value_of value.entry)) result self.new }
        ensures appends { Appends self.old (scalar (scalar_value_of value.entry)) (call_answer_of result) self.new }
    {
        if self.failed {
            return Err(JsonSerializeError::OutOfMemory);
        }
        let answer = self.writing.scalar(&value);
        self.settle(answer)
    }

    /// Writes a value by its JSON text, verbatim.
    ///
    /// # Errors
    ///
    /// `OutOfMemory`.
    #[inline(always)]
    fn raw_scalar(&mut self, json: &str) -> Result<(), JsonSerializeError>
        ensures serves { IsServed Takes IsSpent self.old (raw_scalar json.now) result self.new }
        ensures appends { Appends self.old (raw_scalar json.now) (call_answer_of result) self.new }
    {
        self.make(Call::RawScalar(json))
    }

    /// Writes bytes in the format of the options. It answers that it has written them: a serializer of a format without
    /// bytes would leave them to the caller.
    ///
    /// # Errors
    ///
    /// `OutOfMemory`.
    fn serialize_byte_sequence(&mut self, bytes: &[u8]) -> Result<bool, JsonSerializeError>
        ensures serves { IsServedOrLeft Takes IsSpent self.old (byte_sequence bytes.now) result self.new }
        ensures appends { Appends self.old (byte_sequence bytes.now) (bytes_answer_of result) self.new }
        ensures written { IfOk result (λ done. done ≡ true) }
    {
        match self.make(Call::Bytes(bytes)) {
            Ok(()) => Ok(true),
            Err(refused) => Err(refused),
        }
    }

    /// Writes bytes of a fixed number in the format of the options. It answers that it has written them.
    ///
    /// # Errors
    ///
    /// `OutOfMemory`.
    fn serialize_byte_array(&mut self, bytes: &[u8]) -> Result<bool, JsonSerializeError>
        ensures serves { IsServedOrLeft Takes IsSpent self.old (byte_array bytes.now) result self.new }
        ensures appends { Appends self.old (byte_array bytes.now) (bytes_answer_of result) self.new }
        ensures written { IfOk result (λ done. done ≡ true) }
    {
        self.serialize_byte_sequence(bytes)
    }

    /// The name of the format: `json`.
    fn format_namespace<'t>(&self) -> Option<&'t str>
        ensures name { IfSome result (λ name. name.now ≡ codes "json") }
        ensures given { IsSome result }
    {
        Some("json")
    }
}
