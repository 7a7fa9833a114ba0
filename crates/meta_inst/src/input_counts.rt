ghost use Rattle.std.specs.Prelude.{◌≡◌, ◌↔◌, IsTrue, IfOk, Some};
ghost use Rattle.std.specs.Ordering.{nat_cmp};
ghost use Rattle.std.specs.BTreeMap.{get};
ghost use Rattle.meta_inst.specs.Operands.{AreInputCounts};

use meta_typevar::TypeVar;
use std::alloc::{AllocError, Global};
use std::collections::BTreeMap;

/// How often each type variable stands at the value inputs of an instruction.
#[derive(Drop)]
pub(crate) struct InputCounts {
    counts: BTreeMap<TypeVar, usize>,
}

impl InputCounts {
    pub(crate) fn of(alloc: Global, inputs: &[TypeVar]) -> Result<InputCounts, AllocError>
        ensures { IfOk result (λ c. AreInputCounts inputs.now (get nat_cmp c.counts)) }
    {
        let mut counts = BTreeMap::new(alloc);
        for tv in inputs {
            let before = counts.get(tv).copied().unwrap_or(0);
            counts.insert(*tv, before + 1)?;
        }
        Ok(InputCounts { counts })
    }

    pub(crate) fn is_once(&self, tv: TypeVar) -> bool
        ensures { IsTrue result ↔ (get nat_cmp self.now.counts tv ≡ Some 1) }
    {
        match self.counts.get(&tv) {
            Some(count) => *count == 1,
            None => false,
        }
    }
}
