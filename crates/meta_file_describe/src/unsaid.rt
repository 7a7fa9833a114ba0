ghost use Rattle.std.specs.Prelude.{◌≡◌};
ghost use Rattle.meta_file_describe.specs.declared.unsaid.Unsaid.TheVariants.{Memory};

use std::alloc::{AllocError, AllocFailed};

/// Why no items are made.
#[derive(Drop)]
pub(crate) enum Unsaid {
    /// Memory ran out.
    Memory,
    /// Something that is declared has no word, or is of another registry.
    Unsayable,
}

impl From<AllocError> for Unsaid {
    ghost from_gives = { λ _ e. e ≡ Memory };

    fn from(_e: AllocError) -> Unsaid {
        Unsaid::Memory
    }
}

impl<T: Drop> From<AllocFailed<T>> for Unsaid {
    ghost from_gives = { λ _ e. e ≡ Memory };

    fn from(_e: AllocFailed<T>) -> Unsaid {
        Unsaid::Memory
    }
}
