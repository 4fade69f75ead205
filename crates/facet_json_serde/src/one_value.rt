//! Writes the calls of one value, and no others: so what is written is the text of a tree, whatever is asked.

ghost use Rattle.std.specs.Prelude.{◌≡◌, true, IfOk};
ghost use Rattle.facet_format.specs.Event.{decimal, borrowed};
ghost use Rattle.facet_format.specs.Views.{scalar_value_of};
ghost use Rattle.facet_json_serializer.specs.OptionsViews.{options_of};
ghost use Rattle.facet_json_serde.specs.OneValue.{IsBegun, IsTextOfTree, IsTree};

use crate::due::Due;
use crate::fault::Refusal;
use facet_format::{FormatSerializer, ScalarValue};
use facet_json_serializer::{JsonSerializer, SerializeOptions};
use std::alloc::Global;

/// A serializer that takes only calls of one value, and refuses the others.
#[derive(Drop)]
pub(crate) struct OneValue<'i> {
    options: SerializeOptions<'i>,
    calls: JsonSerializer<'i>,
    stage: Due,
    around: Vec<Due>,
    ghost begun: { IsBegun (options_of options) calls stage around.items },
}

impl<'i> OneValue<'i> {
    /// Nothing is written.
    pub(crate) fn new(alloc: Global, options: SerializeOptions<'i>) -> OneValue<'i> {
        OneValue {
            options,
            calls: JsonSerializer::with_options(alloc, options),
            stage: Due::Value,
            around: Vec::new(alloc),
        }
    }

    /// Writes a value that holds no others.
    #[inline(always)]
    pub(crate) fn scalar(&mut self, value: ScalarValue<'_>) -> Result<(), Refusal>
        requires { IsTree (scalar_value_of value) }
    {
        if !self.stage.takes_value() {
            return Err(Refusal::NotOneValue);
        }
        match self.calls.scalar(value) {
            Ok(()) => {
                self.stage = self.stage.after_value();
                Ok(())
            }
            Err(_) => Err(Refusal::OutOfMemory),
        }
    }

    /// Writes a number with a fraction or an exponent, by its text.
    #[inline(always)]
    pub(crate) fn number(&mut self, text: &str) -> Result<(), Refusal>
        requires { IsTree (decimal (borrowed text.now)) }
    {
        if !self.stage.takes_value() {
            return Err(Refusal::NotOneValue);
        }
        match self.calls.raw_scalar(text) {
            Ok(()) => {
                self.stage = self.stage.after_value();
                Ok(())
            }
            Err(_) => Err(Refusal::OutOfMemory),
        }
    }

    /// Writes a key.
    #[inline(always)]
    pub(crate) fn key(&mut self, key: &str) -> Result<(), Refusal> {
        let Due::Key = self.stage else {
            return Err(Refusal::NotOneValue);
        };
        match self.calls.field_key(key) {
            Ok(()) => {
                self.stage = Due::Named;
                Ok(())
            }
            Err(_) => Err(Refusal::OutOfMemory),
        }
    }

    /// Begins a list.
    #[inline(always)]
    pub(crate) fn begin_list(&mut self) -> Result<(), Refusal> {
        if !self.stage.takes_value() {
            return Err(Refusal::NotOneValue);
        }
        if self.around.reserve(1).is_err() {
            return Err(Refusal::OutOfMemory);
        }
        match self.calls.begin_seq() {
            Ok(()) => {
                self.around.push_reserved(self.stage);
                self.stage = Due::Item;
                Ok(())
            }
            Err(_) => Err(Refusal::OutOfMemory),
        }
    }

    /// Begins a struct.
    #[inline(always)]
    pub(crate) fn begin_struct(&mut self) -> Result<(), Refusal> {
        if !self.stage.takes_value() {
            return Err(Refusal::NotOneValue);
        }
        if self.around.reserve(1).is_err() {
            return Err(Refusal::OutOfMemory);
        }
        match self.calls.begin_struct() {
            Ok(()) => {
                self.around.push_reserved(self.stage);
                self.stage = Due::Key;
                Ok(())
            }
            Err(_) => Err(Refusal::OutOfMemory),
        }
    }

    /// Ends the innermost list.
    #[inline(always)]
    pub(crate) fn end_list(&mut self) -> Result<(), Refusal> {
        let Due::Item = self.stage else {
            return Err(Refusal::NotOneValue);
        };
        match self.calls.end_seq() {
            Ok(()) => {
                let outer = self.around.pop().unwrap_or(Due::Value);
                self.stage = outer.after_value();
                Ok(())
            }
            Err(_) => Err(Refusal::OutOfMemory),
        }
    }

    /// Ends the innermost struct.
    #[inline(always)]
    pub(crate) fn end_struct(&mut self) -> Result<(), Refusal> {
        let Due::Key = self.stage else {
            return Err(Refusal::NotOneValue);
        };
        match self.calls.end_struct() {
            Ok(()) => {
                let outer = self.around.pop().unwrap_or(Due::Value);
                self.stage = outer.after_value();
                Ok(())
            }
            Err(_) => Err(Refusal::OutOfMemory),
        }
    }

    /// Whether it writes by these options.
    pub(crate) fn has_options(&self, options: &SerializeOptions<'_>) -> bool
        ensures { result ≡ true → options_of self.now.options ≡ options_of options.now }
    {
        self.options.pretty == options.pretty
            && self.options.indent == options.indent
            && self.options.bytes_format == options.bytes_format
    }

    /// The text of the value, which has to be whole.
    pub(crate) fn finish(self) -> Result<Vec<u8>, Refusal>
        ensures { IfOk result (λ v. IsTextOfTree (options_of self.entry.options) v.items) }
    {
        let OneValue { calls, stage, .. } = self;
        let Due::Whole = stage else {
            return Err(Refusal::NotOneValue);
        };
        match calls.finish() {
            Ok(text) => Ok(text),
            Err(_) => Err(Refusal::OutOfMemory),
        }
    }
}
