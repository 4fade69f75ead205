//! What the definitions mean, in the subject's own words: each law is the contract of a function without effect. Laws of tokens, growing
//! buffers and strings' contents stand in `scanner`, and those of numbers, refusals and cursors, which hold of every format, in `formats`.

ghost use Rattle.facet_json.specs.Nesting.{BeyondInDocument};

pub use facet_format::laws as formats;
pub use facet_json_core::laws::{
    alone_is_given, begun_is_prefix, capture_passes_run, document_comes_back, document_is_readable,
    document_nodes_are_spelled, ends_in_time, ends_in_time_in, headline, input_comes, move_is_step,
    moves_agree, new_stands, no_run_breaks_off, numbers_are_new, one_break, one_document,
    one_given, one_part, one_run, one_spelling, parts_on_walk, parts_within, peek_is_next,
    plain_is_jsonc, prefix_gives_walk, prefix_is_begun, refusal_repeats, refused_has_none,
    refused_in_one_way, restore_brings_back, runs_or_breaks_off, same_bytes_same_text,
    save_is_numbered, skip_passes_run, spelled_is_run, strict_ends_at_run, strict_headline,
    strict_input_comes, strict_is_plain, strict_reads_texts, taken_in_order, tree_by_calls,
    tree_taken, trusted_agrees, unknown_changes_nothing, walk_is_one_value,
};
pub use facet_json_facet::laws::same_bytes_read_alike;
pub use facet_json_grammar::laws::{
    indent_is_not_read, one_reading, quoted_by_characters, quoted_decodes_alone,
    quoted_is_rfc_string, readable_is_rfc, strict_is_rfc, written_is_read, written_is_rfc_text,
    written_is_strict,
};
pub use facet_json_scan::laws as scanner;
pub use facet_json_tree::laws::{
    changes_are_found, first_beyond_is_deeper, sorted_members_are_found,
};

/// Of a document the first bracket beyond a depth, as its tokens are counted, is the value's.
pub fn first_beyond_by_tokens()
    ensures { BeyondInDocument }
{}
