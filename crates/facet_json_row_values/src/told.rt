//! What is told: a text to which all is appended, so that only its last reader learns whether memory was lacking for some of it.

use facet_json::Span;
use std::alloc::{AllocError, Global};
use std::fmt::{Debug, Display};

/// A text that grows, as long as there is memory for it.
#[derive(Drop)]
pub struct Told {
    text: String,
    lacks_memory: bool,
}

impl Told {
    /// Nothing so far.
    pub fn new(alloc: Global) -> Told {
        Told {
            text: String::new(alloc),
            lacks_memory: false,
        }
    }

    /// All that is told, unless memory was lacking.
    pub fn whole(&self) -> Result<&str, AllocError> {
        if self.lacks_memory {
            Err(AllocError)
        } else {
            Ok(self.text.as_str())
        }
    }

    /// What is told, or that memory was lacking, which is like nothing else that is told.
    pub fn as_str(&self) -> &str {
        self.whole().unwrap_or("OUT OF MEMORY")
    }

    /// How many bytes are told.
    pub fn len(&self) -> usize {
        self.text.len()
    }

    /// Keeps that memory was lacking.
    pub fn lack(&mut self) {
        self.lacks_memory = true;
    }

    /// Appends the text.
    pub fn say(&mut self, text: &str) {
        if self.text.push_str(text).is_err() {
            self.lack();
        }
    }

    /// Appends the text and a line feed.
    pub fn line(&mut self, text: &str) {
        self.say(text);
        self.say("\n");
    }

    /// Appends the value as it is shown to programmers.
    pub fn show<T: Debug>(&mut self, value: &T) {
        if write!(self.text, "{value:?}").is_err() {
            self.lack();
        }
    }

    /// Appends the value as it is shown to programmers, and a line feed.
    pub fn show_line<T: Debug>(&mut self, value: &T) {
        self.show(value);
        self.say("\n");
    }

    /// Appends the value as it is shown to everyone, and a line feed.
    pub fn display_line<T: Display>(&mut self, value: &T) {
        if writeln!(self.text, "{value}").is_err() {
            self.lack();
        }
    }

    /// Appends the text so often.
    pub fn repeat(&mut self, text: &str, count: usize) {
        for _ in 0..count {
            self.say(text);
        }
    }

    /// Appends the value as it is shown to programmers, and the span that it is of.
    pub fn show_at<T: Debug>(&mut self, value: &T, span: Span) {
        self.show(value);
        self.say(" ");
        self.span(span);
    }

    /// Appends where a span begins and how many bytes it has.
    pub fn span(&mut self, span: Span) {
        if write!(self.text, "{}+{}", span.offset, span.len).is_err() {
            self.lack();
        }
    }

    /// Appends the span, where there is one.
    pub fn place(&mut self, span: Option<Span>) {
        match span {
            Some(span) => self.span(span),
            None => self.say("no place"),
        }
    }

    /// Appends the text, and a line feed where its last line lacks one.
    pub fn lines(&mut self, text: &[u8]) {
        self.say(str::from_utf8(text).unwrap_or("NO TEXT"));
        if !(text.is_empty() || text.ends_with(b"\n")) {
            self.say("\n");
        }
    }
}
