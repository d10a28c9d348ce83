//! Compiled paths for many documents: `Compiled` owns its text, `PathCompiled` borrows it, `CompiledPath` stores an
//! error in place of the path if the text is no path; `compile_paths` compiles several path texts in order.

pub(crate) mod kept_path;
pub(crate) mod owned_path;
pub(crate) mod path_compiled;
pub(crate) mod path_or_refusal;
pub(crate) mod path_texts;
