ghost use Rattle.std.specs.Prelude.{[], ◌≡◌, ◌↔◌, ◌≤◌, IsTrue, IfSome, IfNone};
ghost use Rattle.meta_types.specs.TypeParts.{TypeParts, number_of};
ghost use Rattle.meta_types.specs.ValueTypes.{type_parts_of};
ghost use Rattle.meta_typevar.specs.TypeSetParts.{IsMember};
ghost use Rattle.meta_typevar.specs.Chain.{IsFixed, IsFixedNowhere};
ghost use Rattle.meta_typevar.specs.Chained.{functions_of};
ghost use Rattle.meta_typevar.specs.Reaching.{Reaches};

use super::type_set::TypeSet;
use meta_types::{DerivedFunc, ValueType};

/// The numbers of types run from the first up to, but not including, the last.
const FIRST_NUMBER: u16 = 0x74;

const END_OF_NUMBERS: u16 = 0x17d;

/// The type to which the chain leads from each member of the set. `None` exactly if there is no one such type. Members are looked at up to
/// the first from which the chain leads elsewhere.
pub(crate) fn fixed_along(set: &TypeSet, chain: &[DerivedFunc]) -> Option<ValueType>
    ensures found { IfSome result (λ t. IsFixed set.now (functions_of chain.now) (type_parts_of t)) }
    ensures none { IfNone result (IsFixedNowhere set.now (functions_of chain.now)) }
{
    if chain.is_empty() {
        return only_member(set);
    }
    let first = first_member(set)?;
    let t = reached(chain, first)?;
    if set.size() == 1 {
        return Some(t);
    }
    if !all_reach(set, chain, first.number(), t) {
        return None;
    }
    Some(t)
}

fn only_member(set: &TypeSet) -> Option<ValueType>
    ensures found { IfSome result (λ t. IsFixed set.now [] (type_parts_of t)) }
    ensures none { IfNone result (IsFixedNowhere set.now []) }
{
    if set.size() != 1 {
        return None;
    }
    first_member(set)
}

fn first_member(set: &TypeSet) -> Option<ValueType>
    ensures found { IfSome result (λ r. IsMember set.now (type_parts_of r)) }
    ensures least { IfSome result (λ r. (m : TypeParts) → IsMember set.now m → number_of (type_parts_of r) ≤ number_of m) }
    ensures none { IfNone result ((r : TypeParts) → IsMember set.now r → ⊥) }
{
    for number in FIRST_NUMBER..END_OF_NUMBERS {
        if let Some(r) = set.member(number) {
            return Some(r);
        }
    }
    None
}

/// Whether the functions lead to the type from each member whose number is at least `from`.
fn all_reach(set: &TypeSet, chain: &[DerivedFunc], from: u16, t: ValueType) -> bool
    ensures { IsTrue result ↔ ((r : TypeParts) → IsMember set.now r → from ≤ number_of r
        → Reaches (functions_of chain.now) r (type_parts_of t)) }
{
    for number in from..END_OF_NUMBERS {
        if !member_reaches(set, chain, number, t) {
            return false;
        }
    }
    true
}

fn member_reaches(set: &TypeSet, chain: &[DerivedFunc], number: u16, t: ValueType) -> bool
    ensures { IsTrue result ↔ ((r : TypeParts) → IsMember set.now r → number_of r ≡ number
        → Reaches (functions_of chain.now) r (type_parts_of t)) }
{
    match set.member(number) {
        Some(r) => reaches(chain, r, t),
        None => true,
    }
}

fn reaches(chain: &[DerivedFunc], r: ValueType, t: ValueType) -> bool
    ensures { IsTrue result ↔ Reaches (functions_of chain.now) (type_parts_of r) (type_parts_of t) }
{
    match reached(chain, r) {
        Some(x) => x.number() == t.number(),
        None => false,
    }
}

/// The type to which the functions lead, in order from the root, if none of them is a relation and each gives a type.
fn reached(chain: &[DerivedFunc], r: ValueType) -> Option<ValueType>
    ensures found { IfSome result (λ t. Reaches (functions_of chain.now) (type_parts_of r) (type_parts_of t)) }
    ensures none { IfNone result ((t : TypeParts) → Reaches (functions_of chain.now) (type_parts_of r) t → ⊥) }
{
    let mut t = r;
    for &derived_func in chain {
        t = derived_func.apply(t)?;
    }
    Some(t)
}
