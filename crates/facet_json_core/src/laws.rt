//! What the definitions of documents, parsers and serializers mean, in the subject's own words: each law is the contract of a function
//! without effect.

mod meaning;
mod trust;

pub use facet_json_grammar::laws::{
    alone_is_given, begun_is_prefix, capture_passes_run, ends_in_time, ends_in_time_in, headline,
    input_comes, move_is_step, moves_agree, new_stands, no_run_breaks_off, numbers_are_new,
    one_break, one_document, one_given, one_part, one_run, one_spelling, parts_on_walk,
    parts_within, peek_is_next, plain_is_jsonc, prefix_gives_walk, prefix_is_begun,
    refusal_repeats, refused_has_none, refused_in_one_way, restore_brings_back, runs_or_breaks_off,
    save_is_numbered, skip_passes_run, spelled_is_run, strict_ends_at_run, strict_headline,
    strict_input_comes, strict_is_plain, unknown_changes_nothing, walk_is_one_value,
};
pub use facet_json_serializer::laws::{taken_in_order, tree_by_calls, tree_taken};
pub use meaning::{
    document_comes_back, document_is_readable, document_nodes_are_spelled, same_bytes_same_text,
    strict_reads_texts,
};
pub use trust::trusted_agrees;
