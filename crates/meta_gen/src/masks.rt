ghost use Rattle.std.specs.Prelude.{IfOk};
ghost use Rattle.meta_build.specs.Needed.{StandForSets};

use meta_typevar::{Masks, TypeSet};
use meta_unique::UniqueTable;
use std::alloc::{AllocError, Global};

pub(crate) fn masks_of(
    alloc: Global,
    type_sets: &UniqueTable<TypeSet>,
) -> Result<Vec<Masks>, AllocError>
    ensures { IfOk result (λ masks. StandForSets masks.items type_sets.now) }
{
    let mut masks = Vec::new(alloc);
    for set in type_sets.iter() {
        masks.push(set.masks())?;
    }
    Ok(masks)
}
