//! The files of an edit in place as contracts see them. They are known to proofs alone, and take no memory.

ghost use Rattle.std.specs.Prelude.{◌≡◌, true};
ghost use Rattle.jpath_files.specs.DiskState.{DiskState};
ghost use base.Fml.{ftrue};

use crate::disk::{Call, Place};
use crate::file_facts::FileFacts;
use std::marker::Model;

/// What is known of the edited file and of the new file beside it during an edit in place. It is for proofs alone: at
/// run time the type has no size.
#[derive(Drop)]
pub struct DiskModel {
    ghost state: { DiskState },
}

impl Model for DiskModel {
    ghost also_owns = { λ _. ftrue };
}

// What was done to the files, or told of them.
#[derive(Clone, Copy, Drop)]
pub(crate) enum Event<'a> {
    // A call, and whether it succeeded.
    Called(Call<'a>, bool),
    Known(Place, FileFacts),
    Read(&'a [u8]),
}

impl DiskModel {
    ghost use Rattle.jpath_files.specs.Events.{Leads};

    // Some files, of which nothing was told.
    pub(crate) fn new() -> DiskModel
        ensures { result.state.agrees ≡ true }
    {
        DiskModel {}
    }

    // The files behind an event.
    #[inline(always)]
    pub(crate) fn behind(&self, _event: &Event<'_>) -> DiskModel
        ensures { Leads _event.now self.now.state result.state }
    {
        DiskModel {}
    }
}
