ghost use Rattle.std.specs.Prelude.{◌≡◌};
ghost use Rattle.meta_file_declare.specs.declared.refused.DeclareError.TheVariants.{Memory};
ghost use Rattle.meta_file_declare.specs.Errors.{error_at};

use meta_file_types::{ItemError, Reason};
use std::alloc::AllocError;

/// Why items don't make declarations.
#[derive(Drop)]
pub enum DeclareError<'i> {
    /// Memory ran out.
    Memory,
    /// An item is wrong. It is the first such item, by its place from 0, with what is wrong.
    Refused(usize, Reason<'i>),
}

impl<'i> From<AllocError> for DeclareError<'i> {
    ghost from_gives = { λ _ e. e ≡ Memory };

    fn from(_e: AllocError) -> DeclareError<'i> {
        DeclareError::Memory
    }
}

impl<'i> DeclareError<'i> {
    pub(crate) fn at(place: usize, error: ItemError<'i>) -> DeclareError<'i>
        ensures { result ≡ error_at place error.entry }
    {
        match error {
            ItemError::Memory => DeclareError::Memory,
            ItemError::Wrong(reason) => DeclareError::Refused(place, reason),
        }
    }
}
