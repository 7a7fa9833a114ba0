ghost use Rattle.std.specs.Prelude.{◌≡◌, IsOkAnd};
ghost use Rattle.meta_typevar.specs.Registry.{coded_set};

use super::chain::Chain;
use super::type_set::TypeSet;
use super::typevar::TypeVar;
use meta_types::{DerivedFunc, Text};
use std::alloc::{AllocError, Global};

/// What a derived type variable is derived from, as in the crate's `cdsl/typevar.rs`.
#[derive(Clone, Copy, Debug, PartialEq, Eq, Hash)]
pub struct TypeVarParent {
    /// The variable from which it is derived.
    pub type_var: TypeVar,
    /// The function by which it is derived.
    pub derived_func: DerivedFunc,
}

/// What a registry keeps of a type variable, as in the crate's `cdsl/typevar.rs`.
#[derive(Drop)]
pub struct TypeVarContent {
    /// The short name, which descriptions of instructions use, such as `Int` or `lane_of(Int)`.
    pub name: Text,
    /// The documentation, which is empty for a derived variable.
    pub doc: Text,
    /// What the variable is derived from. `None` for a root.
    pub base: Option<TypeVarParent>,
    // The type set of a root; of a derived variable, the coded image of its parent.
    pub(crate) type_set: TypeSet,
    // The number of the root, and the chain from there.
    pub(crate) root: TypeVar,
    pub(crate) chain: Chain,
}

impl TypeVarContent {
    /// The coded image of the variable: the type set of a root, and else the image of the parent's under the last function.
    pub(crate) fn coded(&self, alloc: Global) -> Result<TypeSet, AllocError>
        ensures { IsOkAnd result (λ s. s ≡ coded_set self.now) }
    {
        match &self.base {
            Some(parent) => self.type_set.image(alloc, parent.derived_func),
            None => self.type_set.copy(alloc),
        }
    }
}
