ghost use Rattle.std.specs.Prelude.{◌≡◌, slice_get, Some, IfOk, IfSome, IfNone};
ghost use Rattle.meta_gen.specs.WholeTables.{HasNoGroup};
ghost use Rattle.meta_flags.specs.Served.{served_in, initial};

use super::held::Flags;
use meta_gen::Tables;
use std::alloc::{AllocError, Global};

impl<'t> Flags<'t> {
    /// Makes the values of the group with this number, from 0, each with its default. It is `None` exactly if the tables have no such
    /// group.
    pub fn new(
        alloc: Global,
        tables: &'t Tables,
        group: usize,
    ) -> Result<Option<Flags<'t>>, AllocError>
        ensures state { IfOk result (λ o. IfSome o (λ f. f.state ≡ initial (served_in f.group))) }
        ensures group { IfOk result (λ o. IfSome o (λ f. slice_get tables.now.groups group ≡ Some f.group)) }
        ensures none { IfOk result (λ o. IfNone o (HasNoGroup tables.now group)) }
    {
        match tables.group(group) {
            Some(group) => Ok(Some(Flags::of(alloc, group)?)),
            None => Ok(None),
        }
    }
}
