//! JSONPath: values of a JSON document selected, replaced, nulled and removed by a path.
//!
//! The crate re-exports what the crates below it offer to callers: compiled paths, documents, and the selectors. The
//! module `layers` has what these are made of. `docs/PATHS.md` has each form of a path, `docs/LIBRARY.md` more samples.
//!
//! # Guide
//!
//! Each sample and each example at an item runs as a test. Calls that take memory have an allocator as first argument
//! and return a `Result`. `text` is a JSON text; `document` and `message` are a `Value`, as `read_document` makes it.
//!
//! Columns are extracted as text, or typed:
//!
//! ```text
//! let prices = select_as_str(alloc, text, "$.store..price")?;
//! assert!(rt; prices.as_str() == "[1995,895,1299]");
//! let books = select_as::<Book>(alloc, text, "$.store.book[*]")?;
//! assert_eq!(rt; books[1].price, 1299);
//! ```
//!
//! Values are masked by several paths, each applied to the original document. An error gives the document back:
//!
//! ```text
//! let masked = match mask(alloc, document, &["$.a.b", "$.c[0]"]) {
//!     Ok(masked) => masked,
//!     Err(refused) => refused.value,
//! };
//! ```
//!
//! Messages are routed by paths that are compiled once and stored:
//!
//! ```text
//! let texts = ["$[?(@.kind == 'order')]", "$.items[?(@.price > 9)]"];
//! let rules = compile_paths(alloc, &texts)?;
//! let mut route = None;
//! for (number, rule) in rules.iter().enumerate() {
//!     if rule.exists(alloc, &message)? {
//!         route = Some(number);
//!     }
//! }
//! ```
//!
//! A selector has a path and a value, and its calls chain:
//!
//! ```text
//! let mut held = SelectorMut::new();
//! held.str_path(alloc, "$.a")?.value(document);
//! held.delete(alloc)?.str_path(alloc, "$.b")?.remove(alloc)?;
//! let changed = held.take();
//! ```
#![tactic(auto)]

mod compiled;
mod functions;
pub mod laws;
pub mod layers;
mod selectors;
mod step_lists;
mod stream;
mod text;
mod update;

pub use compiled::kept_path::KeptPath;
pub use compiled::owned_path::Compiled;
pub use compiled::path_compiled::PathCompiled;
pub use compiled::path_or_refusal::{CompiledPath, compile};
pub use compiled::path_texts::{PathsFault, compile_paths};
pub use functions::selecting::{select, select_as, select_as_str};
pub use functions::updates::{delete, replace_with};
pub use selectors::path_selector::{PathSelector, PathSelectorAs, selector, selector_as};
pub use stream::document_fault::{DocumentFault, FaultKind};
pub use stream::documents::Documents;
pub use text::Text;
pub use update::masking::{mask, mask_at_paths};
pub use update::removing_by_several_paths::{remove_at_paths, remove_by_path_texts};
pub use update::several_paths::MaskFault;

// What the crates below give out to callers; `layers` has what one builds on them.
pub use json::Scratch;
pub use json_trees::TextValue;
pub use jsonpath_nodes::{LocStep, Location, NoMemory, PathStep, Spot, Steps, StepsFromRoot};
pub use jsonpath_paths::{
    Decimal, Expected, ExpectedTokens, Kind, PathParser, TokenError, expected_tokens,
};
pub use jsonpath_select::{
    AnyPath, HeldPair, JsonPathError, JsonSelector, JsonSelectorMut, Node, ParseFault, Parser,
    PathParts, Selector, SelectorMut, TryFault, compile_path, document_to_text,
    error_of_parse_fault, list_to_text, list_to_typed, path_error, read_document, select_path,
    select_path_in_any_order,
};
