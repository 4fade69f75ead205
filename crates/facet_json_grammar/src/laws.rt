//! What the definitions of `specs/` mean, in the subject's own words: each law is the contract of a function without effect.

mod documents;
mod parsers;
mod parts;
mod prefixes;
mod runs;
mod texts;
mod written;

pub use documents::{one_document, one_spelling, plain_is_jsonc};
pub use parsers::{
    alone_is_given, capture_passes_run, ends_in_time, ends_in_time_in, headline, move_is_step,
    moves_agree, new_stands, numbers_are_new, peek_is_next, refusal_repeats, restore_brings_back,
    save_is_numbered, skip_passes_run, strict_ends_at_run, strict_headline,
    unknown_changes_nothing,
};
pub use parts::{one_part, parts_on_walk, parts_within, walk_is_one_value};
pub use prefixes::{
    begun_is_prefix, input_comes, one_given, prefix_gives_walk, prefix_is_begun, refused_has_none,
    refused_in_one_way, strict_input_comes, strict_is_plain,
};
pub use runs::{no_run_breaks_off, one_break, one_run, runs_or_breaks_off, spelled_is_run};
pub use texts::quoted_by_characters;
pub use written::{
    indent_is_not_read, one_reading, quoted_decodes_alone, quoted_is_rfc_string, readable_is_rfc,
    strict_is_rfc, written_is_read, written_is_rfc_text, written_is_strict,
};
