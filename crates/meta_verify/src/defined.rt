ghost use Rattle.std.specs.Prelude.{◌≡◌, ℕ, map, All, None, Some, is_some, if◌then◌else◌, IfOk, OnOk, OnErr};
ghost use Rattle.meta_types.specs.TypeNumber.{type_with, IsTypeNumber};
ghost use Rattle.meta_verify.specs.Environment.{with_values, first_undefined, first_redefined, HaveTypes};
ghost use Rattle.meta_verify.specs.Numbers.{typed_value_of, IsTypedNumber};
ghost use Rattle.meta_verify.specs.Defined.{environment_of, AreTypeNumbers};

use super::known::KnownTypes;
use super::statement::TypedNumber;
use std::alloc::{AllocError, Global};
use std::collections::BTreeSet;

/// Puts the numbers of the types of the values into the list, in place of what it had. Answers the first value that isn't defined.
pub(crate) fn look_up(
    types: &KnownTypes,
    values: &[u32],
    numbers: &mut Vec<u16>,
) -> Result<Option<u32>, AllocError>
    requires known { AreTypeNumbers types.now }
    ensures undefined { IfOk result (λ o. o ≡ first_undefined (environment_of types.now) values.now) }
    ensures types { IfOk result (λ o. o ≡ None → HaveTypes (environment_of types.now) values.now (map type_with numbers.new.items)) }
    ensures known { All IsTypeNumber numbers.new.items }
{
    numbers.clear();
    for value in values {
        match types.get(*value) {
            Some(number) => numbers.push(number)?,
            None => return Ok(Some(*value)),
        }
    }
    Ok(None)
}

pub(crate) fn defined_before(types: &KnownTypes, value: u32) -> Option<u32>
    ensures { result ≡ (if is_some (environment_of types.now value) then Some value else None) }
{
    types.get(value).is_some().then_some(value)
}

/// The first of the results that is defined before, or further left in the list. For a single result it takes no memory.
pub(crate) fn redefined(
    alloc: Global,
    types: &KnownTypes,
    results: &[TypedNumber],
) -> Result<Option<u32>, AllocError>
    ensures { IfOk result (λ o. o ≡ first_redefined (environment_of types.now) (map typed_value_of results.now)) }
{
    if let [result] = results {
        return Ok(defined_before(types, result.value));
    }
    let mut seen = BTreeSet::new(alloc);
    for r in results {
        let before = defined_before(types, r.value);
        if before.is_some() {
            return Ok(before);
        }
        let is_new = seen.insert(r.value)?;
        if !is_new {
            return Ok(Some(r.value));
        }
    }
    Ok(None)
}

/// Defines the results, none of which is defined before, or twice. If memory runs out, those that were put in are taken back. The calls
/// nest as deep as there are results, at most seven for an instruction that accepts them.
pub(crate) fn define_all(types: &mut KnownTypes, results: &[TypedNumber]) -> Result<(), AllocError>
    requires fresh { first_redefined (environment_of types.old) (map typed_value_of results.now) ≡ None }
    requires numbered { All IsTypedNumber results.now }
    ensures defined { OnOk result ((v : ℕ)
        → environment_of types.new v ≡ with_values (environment_of types.old) (map typed_value_of results.now) v) }
    ensures kept { OnErr result ((v : ℕ) → environment_of types.new v ≡ environment_of types.old v) }
    ensures known { AreTypeNumbers types.old → AreTypeNumbers types.new }
{
    let [first, others @ ..] = results else {
        return Ok(());
    };
    types.insert(first.value, first.number)?;
    let defined = define_all(types, others);
    if defined.is_err() {
        types.remove(first.value);
    }
    defined
}
