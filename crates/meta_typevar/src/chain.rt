ghost use Rattle.std.specs.Prelude.{◌≡◌, [], ◌∷◌, ◌++◌, IfOk};
ghost use Rattle.meta_types.specs.DerivedFunc.{function_of};
ghost use Rattle.meta_typevar.specs.Chained.{functions_of};

use meta_types::DerivedFunc;
use std::alloc::{AllocError, Global};
use std::marker::Model;

/// A chain: the derived functions that lead from a root to a variable, in order from the root.
#[derive(Drop)]
pub(crate) struct Chain {
    functions: Vec<DerivedFunc>,
}

impl Model for Chain {
    ghost use Rattle.std.specs.Prelude.{List};
    ghost use Rattle.meta_types.specs.Function.{Function};
    ghost use Rattle.meta_typevar.specs.Chained.{functions_of};

    ghost Value = { List Function };

    ghost view = { λ c. functions_of c.functions.items };
}

impl Chain {
    pub(crate) fn new(alloc: Global) -> Chain
        ensures { result ≡ [] }
    {
        Chain {
            functions: Vec::new(alloc),
        }
    }

    pub(crate) fn as_slice(&self) -> &[DerivedFunc]
        ensures { functions_of result.now ≡ self.now }
    {
        self.functions.as_slice()
    }

    pub(crate) fn with(&self, alloc: Global, derived_func: DerivedFunc) -> Result<Chain, AllocError>
        ensures { IfOk result (λ c. c ≡ self.now ++ function_of derived_func ∷ []) }
    {
        let mut functions = Vec::new(alloc);
        functions.extend_from_slice(self.functions.as_slice())?;
        functions.push(derived_func)?;
        Ok(Chain { functions })
    }
}
