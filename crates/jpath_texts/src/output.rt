//! How selected values are written as text: as JSON, over lines or in colours, as items of an array, as fields of CSV
//! and TSV; and what the line of a match is to look like.

pub(crate) mod arranged;
pub(crate) mod array_items;
pub(crate) mod colored_or_indented_value;
pub(crate) mod csv_and_tsv;
pub(crate) mod entry_lines;
pub(crate) mod look;
pub(crate) mod match_line;
pub(crate) mod names_once;
pub(crate) mod quoted_text;
pub(crate) mod value_text;
