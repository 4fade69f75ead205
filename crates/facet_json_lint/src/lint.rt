//! Checks files, one after another, and reports what is wrong with them.

use crate::advice::{Surroundings, advice};
use crate::arguments::{Layout, Options};
use crate::check::{Finding, check, formatted};
use crate::files;
use crate::repeats::{Repeat, key_text, repeats};
use crate::report::{Aside, Colours, Report, write_report};
use crate::shown::shown;
use crate::tally::{Tally, Verdict};
use facet_json::scanner::Trust;
use facet_json::{DeserializeError, DeserializeErrorKind, JsonErrorKind, JsonParser, Span};
use std::alloc::AllocError;
use std::io;
use std::io::{ErrorKind, Write};

/// The most repeated keys of a file that are reported one by one.
const MOST_REPEATS: usize = 20;

/// How files are checked.
#[derive(Clone, Copy)]
pub struct Lint<'a> {
    /// What the files are read with.
    pub rt: &'a HostRuntime,
    /// What is asked for.
    pub options: Options,
    /// How reports are coloured.
    pub colours: Colours,
}

/// A source that is checked.
#[derive(Clone, Copy)]
struct Source<'a> {
    /// The file's name, as it is called.
    name: &'a str,
    /// The file's name as it is shown.
    shown: &'a str,
    text: &'a [u8],
}

impl Lint<'_> {
    /// Checks the files of these names, or the standard input where there are none, and returns the status.
    pub fn all<W: Write>(self, names: &[&str], output: &mut W) -> io::Result<u8> {
        let mut tally = Tally::new();
        if names.is_empty() {
            tally.add(self.file("-", output)?);
        }
        for name in names {
            tally.add(self.file(name, output)?);
        }
        if names.len() > 1 && !self.options.is_quiet {
            writeln!(output, "{tally}")?;
        }
        output.flush()?;
        Ok(tally.status())
    }

    /// Checks a file.
    fn file<W: Write>(self, name: &str, output: &mut W) -> io::Result<Verdict> {
        let shown = self.shown_name(name)?;
        match files::read(self.rt, name) {
            Ok(text) => self.source(
                Source {
                    name,
                    shown: shown.as_str(),
                    text: text.as_slice(),
                },
                output,
            ),
            Err(error) => self.fail(shown.as_str(), &error, output),
        }
    }

    /// The name of a file as it is shown.
    fn shown_name(self, name: &str) -> Result<String, AllocError> {
        let name = if name == "-" { "<stdin>" } else { name };
        shown(self.rt.alloc(), name.as_bytes())
    }

    /// Checks a source.
    fn source<W: Write>(self, source: Source<'_>, output: &mut W) -> io::Result<Verdict> {
        if let Err(fault) = check(self.rt.alloc(), self.options.language, source.text) {
            return self.tell_fault(source, fault, output);
        }
        if matches!(self.options.layout, Layout::Kept) {
            return self.keys(source, output);
        }
        match formatted(self.rt.alloc(), self.options.language, source.text) {
            Ok(text) => self.lay_out(source, text.as_slice(), output),
            Err(error) => self.tell_error(source, error, output),
        }
    }

    /// Tells that a file can't be read or written.
    fn fail<W: Write>(self, name: &str, error: &io::Error, output: &mut W) -> io::Result<Verdict> {
        output.flush()?;
        if error.kind() == ErrorKind::IsADirectory {
            eprintln!(self.rt; "{name}: is a folder, not a file")?;
        } else {
            eprintln!(self.rt; "{name}: {error}")?;
        }
        Ok(Verdict::Failed)
    }

    /// Has a source be laid out so, or tells that it would be.
    fn lay_out<W: Write>(
        self,
        source: Source<'_>,
        text: &[u8],
        output: &mut W,
    ) -> io::Result<Verdict> {
        let is_made = matches!(self.options.layout, Layout::Made);
        if is_made && source.name == "-" {
            self.rt.stdout().write_all(text)?;
        } else if text == source.text {
            return self.keys(source, output);
        } else if !is_made {
            return self.tell_unlike(source, output);
        } else if let Err(error) = files::replace(self.rt, source.name, text) {
            return self.fail(source.shown, &error, output);
        }
        self.keys_of_changed(Source { text, ..source }, output)
    }

    /// Tells that the formatter would change a source, and which of its keys come twice.
    fn tell_unlike<W: Write>(self, source: Source<'_>, output: &mut W) -> io::Result<Verdict> {
        if !self.options.is_quiet {
            writeln!(output, "{}: would change", source.shown)?;
        }
        self.keys_of_changed(source, output)
    }

    /// Tells which keys of a source come twice that is changed, or would be.
    fn keys_of_changed<W: Write>(self, source: Source<'_>, output: &mut W) -> io::Result<Verdict> {
        match self.keys(source, output)? {
            Verdict::Fine if matches!(self.options.layout, Layout::Made) => Ok(Verdict::Changed),
            Verdict::Fine => Ok(Verdict::Unlike),
            verdict => Ok(verdict),
        }
    }

    /// Tells which keys of a document come twice, where that is asked for.
    fn keys<W: Write>(self, source: Source<'_>, output: &mut W) -> io::Result<Verdict> {
        if !self.options.repeated_keys {
            return Ok(Verdict::Fine);
        }
        let alloc = self.rt.alloc();
        let language = self.options.language;
        let mut parser = JsonParser::in_language(alloc, source.text, language, Trust::Nothing);
        match repeats(alloc, &mut parser) {
            Ok(found) => self.tell_repeats(source, found.as_slice(), output),
            Err(error) => self.tell_error(source, error, output),
        }
    }

    /// Tells of the keys that come twice: of some, and how many there are more.
    fn tell_repeats<W: Write>(
        self,
        source: Source<'_>,
        found: &[Repeat],
        output: &mut W,
    ) -> io::Result<Verdict> {
        if found.is_empty() {
            return Ok(Verdict::Fine);
        }
        if self.options.is_quiet {
            return Ok(Verdict::Reported);
        }
        for repeat in &found[..found.len().min(MOST_REPEATS)] {
            self.tell_repeat(source, *repeat, output)?;
        }
        if found.len() > MOST_REPEATS {
            let more = found.len() - MOST_REPEATS;
            writeln!(output, "{}: {more} more keys come twice", source.shown)?;
        }
        Ok(Verdict::Reported)
    }

    /// Tells of a key that comes twice.
    fn tell_repeat<W: Write>(
        self,
        source: Source<'_>,
        repeat: Repeat,
        output: &mut W,
    ) -> io::Result<()> {
        let alloc = self.rt.alloc();
        let (offset, len, first) = repeat;
        let key = shown(alloc, key_text(source.text, offset, len))?;
        let report = Report {
            name: source.shown,
            source: source.text,
            span: Span::new(offset, len),
            kind: &JsonErrorKind::DuplicateKey { key },
            advice: "remove one of the two, or rename it",
            aside: Some(Aside {
                what: "first here",
                offset: first,
            }),
        };
        write_report(alloc, &report, self.colours, output)
    }

    /// Tells of an error that no open bracket is to blame for.
    fn tell_error<W: Write>(
        self,
        source: Source<'_>,
        error: DeserializeError<'static>,
        output: &mut W,
    ) -> io::Result<Verdict> {
        let fault = Finding {
            error,
            opened: None,
        };
        self.tell_fault(source, fault, output)
    }

    /// Tells why a source is no document, or that there is not enough memory for it.
    fn tell_fault<W: Write>(
        self,
        source: Source<'_>,
        fault: Finding,
        output: &mut W,
    ) -> io::Result<Verdict> {
        if matches!(fault.error.kind, DeserializeErrorKind::OutOfMemory) {
            return self.fail(
                source.shown,
                &io::Error::from(ErrorKind::OutOfMemory),
                output,
            );
        }
        if self.options.is_quiet {
            return Ok(Verdict::Reported);
        }
        let span = fault.told_at(source.text);
        let place = Surroundings::new(source.text, span, self.options.language);
        let report = Report {
            name: source.shown,
            source: source.text,
            span,
            kind: &JsonErrorKind::Read(fault.error.kind),
            advice: advice(&fault.error.kind, place),
            aside: opened_at(fault.unclosed()),
        };
        write_report(self.rt.alloc(), &report, self.colours, output)?;
        Ok(Verdict::Reported)
    }
}

/// What a report tells of a bracket that is open.
fn opened_at(bracket: Option<Span>) -> Option<Aside> {
    match bracket {
        Some(Span { offset, .. }) => Some(Aside {
            what: "opened here",
            offset,
        }),
        None => None,
    }
}
