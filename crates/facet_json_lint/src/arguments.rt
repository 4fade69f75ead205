//! What the arguments after the program's name ask for.

use facet_json::Language;
use std::alloc::Global;
use std::fmt;

/// What the program is asked to do.
#[derive(Drop)]
pub enum Request<'a> {
    /// Say how it is called.
    Help,
    /// Say which version it is.
    Version,
    /// Check the files of these names, or the standard input where there are none.
    Lint(Options, Vec<&'a str>),
}

/// How it is done.
#[derive(Clone, Copy)]
pub struct Options {
    /// How the files are read.
    pub language: Language,
    /// Whether keys that come twice are reported.
    pub repeated_keys: bool,
    /// What becomes of the layout.
    pub layout: Layout,
    /// Whether only the status tells.
    pub is_quiet: bool,
}

/// What becomes of a file's layout.
#[derive(Clone, Copy)]
pub enum Layout {
    /// It stays.
    Kept,
    /// It is made that of the formatter.
    Made,
    /// It is compared with that of the formatter.
    Compared,
}

/// What is wrong with the arguments.
#[derive(Clone, Copy)]
pub enum Misuse<'a> {
    /// No option is called so.
    Unknown(&'a str),
    /// Two options that exclude each other.
    Both(&'static str, &'static str),
    /// A word is not UTF-8.
    NoText,
    /// There is no memory for the list of files.
    Memory,
}

impl fmt::Display for Misuse<'_> {
    fn fmt<W: fmt::Write>(&self, f: &mut fmt::Formatter<W>) -> fmt::Result {
        match self {
            Misuse::Unknown(word) => write!(f, "there is no option {word}"),
            Misuse::Both(one, other) => write!(f, "{one} and {other} exclude each other"),
            Misuse::NoText => f.write_str("a word is not UTF-8"),
            Misuse::Memory => f.write_str("out of memory"),
        }
    }
}

impl Options {
    /// What is done where no option says otherwise.
    fn new() -> Options {
        Options {
            language: Language::Plain,
            repeated_keys: false,
            layout: Layout::Kept,
            is_quiet: false,
        }
    }

    /// With one more option.
    fn with<'a>(self, option: &'a str) -> Result<Options, Misuse<'a>> {
        match option {
            "--strict" => self.in_language(Language::Strict),
            "--jsonc" => self.in_language(Language::Jsonc),
            "--format" => self.with_layout(Layout::Made),
            "--check" => self.with_layout(Layout::Compared),
            "--repeated-keys" => Ok(Options {
                repeated_keys: true,
                ..self
            }),
            "--quiet" => Ok(Options {
                is_quiet: true,
                ..self
            }),
            _ => Err(Misuse::Unknown(option)),
        }
    }

    /// With an option that asks for this language.
    fn in_language<'a>(self, language: Language) -> Result<Options, Misuse<'a>> {
        match (self.language, language) {
            (Language::Plain, _)
            | (Language::Jsonc, Language::Jsonc)
            | (Language::Strict, Language::Strict) => Ok(Options { language, ..self }),
            _ => Err(Misuse::Both("--strict", "--jsonc")),
        }
    }

    /// With an option that asks for this layout.
    fn with_layout<'a>(self, layout: Layout) -> Result<Options, Misuse<'a>> {
        match (self.layout, layout) {
            (Layout::Kept, _)
            | (Layout::Made, Layout::Made)
            | (Layout::Compared, Layout::Compared) => Ok(Options { layout, ..self }),
            _ => Err(Misuse::Both("--format", "--check")),
        }
    }
}

/// Whether the word is an option: it begins with a minus, and is more than that.
fn is_option(word: &str) -> bool {
    word.len() > 1 && word.starts_with('-')
}

/// What the arguments ask for.
pub fn request_of<'a>(alloc: Global, args: &'a [String]) -> Result<Request<'a>, Misuse<'a>> {
    let mut options = Options::new();
    let mut files = Vec::new(alloc);
    let mut are_files = false;
    for arg in args {
        match arg.as_str() {
            word if are_files || !is_option(word) => {
                if files.push(word).is_err() {
                    return Err(Misuse::Memory);
                }
            }
            "--" => are_files = true,
            "--help" => return Ok(Request::Help),
            "--version" => return Ok(Request::Version),
            word => options = options.with(word)?,
        }
    }
    Ok(Request::Lint(options, files))
}
