//! The results of the calls on a stream. They are known to proofs alone, and take no memory.
ghost use Rattle.std.specs.Prelude.{◌≡◌, List, [], ◌∷◌, ◌++◌};
ghost use Rattle.std.specs.Coded.{coded_ℕ, coded_bool, coded_list, coded_result};
ghost use Rattle.jsonpath_streams.specs.Answers.{CallAnswer};
ghost use base.Fml.{ftrue};

use std::marker::Model;

/// The results of all calls on a reader or writer, in order. Only proofs use them: at run time the type is zero-sized.
#[derive(Drop)]
pub struct History {
    ghost answers: { List CallAnswer } by { coded_list (coded_result (coded_list coded_ℕ) coded_bool) },
}

impl Model for History {
    ghost also_owns = { λ _. ftrue };
}

// What a call on a stream answered.
#[derive(Clone, Copy, Drop)]
pub(super) enum Answer<'a> {
    // These bytes went through.
    Bytes(&'a [u8]),
    // It was interrupted, so it may be tried again.
    Interrupted,
    // It was refused.
    Refused,
}

impl History {
    ghost use Rattle.jsonpath_streams.specs.History.{answered};

    // The history of a stream before its first call.
    pub(super) fn new() -> History
        ensures { result.answers ≡ [] }
    {
        History {}
    }

    // The history with this answer behind those that it has.
    #[inline(always)]
    pub(super) fn with_answer(&self, _answer: &Answer<'_>) -> History
        ensures { result.answers ≡ self.now.answers ++ answered _answer.now ∷ [] }
    {
        History {}
    }
}
