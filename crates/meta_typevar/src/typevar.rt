ghost use Rattle.std.specs.Prelude.{◌≡◌, ◌+◌, ◌-◌, ◌^◌, ◌<◌, ◌↔◌, [], ◌∷◌, ◌++◌, length, IsTrue, IfOk, IsOkAnd, OnOk, OnErr, IfSome};
ghost use Rattle.std.specs.Prelude.{IfNone};
ghost use Rattle.meta_types.specs.TypeParts.{name_of};
ghost use Rattle.meta_types.specs.TypeText.{type_doc};
ghost use Rattle.meta_types.specs.Function.{LaneOf, AsTruthy, HalfWidth, DoubleWidth, SplitLanes, MergeLanes, DynamicToVector, Narrower};
ghost use Rattle.meta_types.specs.Function.{Wider};
ghost use Rattle.meta_types.specs.DerivedFunc.{function_of};
ghost use Rattle.meta_types.specs.ValueTypes.{type_parts_of};
ghost use Rattle.meta_typevar.specs.TypeSetParts.{IsOnlyMember, HasOne};
ghost use Rattle.meta_typevar.specs.Chain.{IsFixed};
ghost use Rattle.meta_typevar.specs.Chained.{functions_of};
ghost use Rattle.meta_typevar.specs.Image.{can_derive};
ghost use Rattle.meta_typevar.specs.Variable.{IsOpen, underived};
ghost use Rattle.meta_typevar.specs.Registry.{root_content, sets_of, variable_at, coded_at, IsRaw};
ghost use Rattle.meta_typevar.specs.Derivation.{singleton_sets, Derives, GrowsByOne};

use super::fixed::fixed_along;
use super::registry::TypeVars;
use super::type_set::TypeSet;
use meta_types::{DerivedFunc, Text, ValueType};
use std::alloc::{AllocError, Global};
use std::marker::Model;

/// A type variable, by its number in a registry. Variables are ordered by their numbers. In the crate's `cdsl/typevar.rs` it is a pointer.
#[derive(Clone, Copy, Debug, PartialEq, Eq, Hash, PartialOrd, Ord)]
pub struct TypeVar {
    number: u32,
}

impl Model for TypeVar {
    ghost use Rattle.std.specs.Prelude.{ℕ};

    ghost Value = { ℕ };

    ghost view = { λ v. v.number };

    ghost inverse = { λ n. record { number = n } };
}

impl From<&TypeVar> for TypeVar {
    ghost use Rattle.std.specs.Prelude.{◌≡◌};

    ghost from_gives = { λ tv result. result ≡ tv.now };

    fn from(tv: &TypeVar) -> TypeVar {
        *tv
    }
}

impl TypeVar {
    /// Adds a new root with this name, documentation and type set to the registry, which must have room. After an error the registry is as
    /// it was.
    pub fn new(
        vars: &mut TypeVars,
        name: Text,
        doc: Text,
        type_set: TypeSet,
    ) -> Result<TypeVar, AllocError>
        requires { length vars.old < 2 ^ 32 - 1 }
        ensures number { IfOk result (λ v. v ≡ length vars.old) }
        ensures added { OnOk result (vars.new ≡ vars.old ++ root_content name doc type_set (length vars.old) ∷ []) }
        ensures err { OnErr result (vars.new ≡ vars.old) }
    {
        vars.add_root(name, doc, type_set)
    }

    /// Adds a new root that stands for a type to the registry, which must have room. It has the type's name and documentation. Its set has
    /// the type alone; or, if the type has several lanes, the fixed and the dynamic vector with this lane count. After an error the
    /// registry is as it was.
    pub fn new_singleton(vars: &mut TypeVars, value_type: ValueType) -> Result<TypeVar, AllocError>
        requires { length vars.old < 2 ^ 32 - 1 }
        ensures number { IfOk result (λ v. v ≡ length vars.old) }
        ensures added { let t = type_parts_of value_type in
            OnOk result (vars.new ≡ vars.old ++ root_content (name_of t) (type_doc t) (singleton_sets t) (length vars.old) ∷ []) }
        ensures err { OnErr result (vars.new ≡ vars.old) }
    {
        let alloc = vars.allocator();
        let name = value_type.to_string(alloc)?;
        let name = Text::new(alloc, name.as_str())?;
        let doc = value_type.doc(alloc)?;
        vars.add_root(name, doc, TypeSet::singleton(value_type))
    }

    /// Adds a new root with this name, no documentation, and the type set of another root to the registry, which must have room. After an
    /// error the registry is as it was.
    pub fn copy_from(vars: &mut TypeVars, other: TypeVar, name: Text) -> Result<TypeVar, AllocError>
        requires room { length vars.old < 2 ^ 32 - 1 }
        requires of { other < length vars.old }
        requires underived { (variable_at vars.old other).chain ≡ [] }
        ensures number { IfOk result (λ v. v ≡ length vars.old) }
        ensures added { OnOk result (vars.new ≡ vars.old ++ root_content name [] (sets_of vars.old other) (length vars.old) ∷ []) }
        ensures err { OnErr result (vars.new ≡ vars.old) }
    {
        let alloc = vars.allocator();
        let type_set = vars.content(other).type_set.copy(alloc)?;
        let doc = Text::new(alloc, "")?;
        vars.add_root(name, doc, type_set)
    }

    /// The type variable that is derived from this one by a function. It is added if the registry doesn't have it; there must be room.
    /// `can_derive` tests whether the function is allowed. After an error the registry is as it was.
    pub fn derived(
        self,
        vars: &mut TypeVars,
        derived_func: DerivedFunc,
    ) -> Result<TypeVar, AllocError>
        requires room { length vars.old < 2 ^ 32 - 1 }
        requires of { self < length vars.old }
        requires can { IsTrue (can_derive (function_of derived_func) (coded_at vars.old self)) }
        ensures derives { Derives vars.old self derived_func result vars.new }
        ensures grows { GrowsByOne vars.old vars.new }
    {
        if let Some(known) = vars.find(self, derived_func) {
            return Ok(known);
        }
        let alloc = vars.allocator();
        let type_set = self.get_typeset(alloc, vars)?;
        let content = vars.derive(self, derived_func, type_set)?;
        vars.add_derived(self, derived_func, content)
    }

    /// The lane of this variable. It is `derived` by `DerivedFunc::LaneOf`.
    pub fn lane_of(self, vars: &mut TypeVars) -> Result<TypeVar, AllocError>
        requires room { length vars.old < 2 ^ 32 - 1 }
        requires of { self < length vars.old }
        ensures derives { Derives vars.old self DerivedFunc.LaneOf result vars.new }
        ensures grows { GrowsByOne vars.old vars.new }
    {
        self.derived(vars, DerivedFunc::LaneOf)
    }

    /// What a comparison of values of this variable gives. It is `derived` by `DerivedFunc::AsTruthy`.
    pub fn as_truthy(self, vars: &mut TypeVars) -> Result<TypeVar, AllocError>
        requires room { length vars.old < 2 ^ 32 - 1 }
        requires of { self < length vars.old }
        ensures derives { Derives vars.old self DerivedFunc.AsTruthy result vars.new }
        ensures grows { GrowsByOne vars.old vars.new }
    {
        self.derived(vars, DerivedFunc::AsTruthy)
    }

    /// This variable with lanes of half the width. It is `derived` by `DerivedFunc::HalfWidth`.
    pub fn half_width(self, vars: &mut TypeVars) -> Result<TypeVar, AllocError>
        requires room { length vars.old < 2 ^ 32 - 1 }
        requires of { self < length vars.old }
        requires can { IsTrue (can_derive HalfWidth (coded_at vars.old self)) }
        ensures derives { Derives vars.old self DerivedFunc.HalfWidth result vars.new }
        ensures grows { GrowsByOne vars.old vars.new }
    {
        self.derived(vars, DerivedFunc::HalfWidth)
    }

    /// This variable with lanes of twice the width. It is `derived` by `DerivedFunc::DoubleWidth`.
    pub fn double_width(self, vars: &mut TypeVars) -> Result<TypeVar, AllocError>
        requires room { length vars.old < 2 ^ 32 - 1 }
        requires of { self < length vars.old }
        requires can { IsTrue (can_derive DoubleWidth (coded_at vars.old self)) }
        ensures derives { Derives vars.old self DerivedFunc.DoubleWidth result vars.new }
        ensures grows { GrowsByOne vars.old vars.new }
    {
        self.derived(vars, DerivedFunc::DoubleWidth)
    }

    /// This variable with twice the lanes, each of half the width. It is `derived` by `DerivedFunc::SplitLanes`.
    pub fn split_lanes(self, vars: &mut TypeVars) -> Result<TypeVar, AllocError>
        requires room { length vars.old < 2 ^ 32 - 1 }
        requires of { self < length vars.old }
        requires can { IsTrue (can_derive SplitLanes (coded_at vars.old self)) }
        ensures derives { Derives vars.old self DerivedFunc.SplitLanes result vars.new }
        ensures grows { GrowsByOne vars.old vars.new }
    {
        self.derived(vars, DerivedFunc::SplitLanes)
    }

    /// This variable with half the lanes, each of twice the width. It is `derived` by `DerivedFunc::MergeLanes`.
    pub fn merge_lanes(self, vars: &mut TypeVars) -> Result<TypeVar, AllocError>
        requires room { length vars.old < 2 ^ 32 - 1 }
        requires of { self < length vars.old }
        requires can { IsTrue (can_derive MergeLanes (coded_at vars.old self)) }
        ensures derives { Derives vars.old self DerivedFunc.MergeLanes result vars.new }
        ensures grows { GrowsByOne vars.old vars.new }
    {
        self.derived(vars, DerivedFunc::MergeLanes)
    }

    /// The fixed vector of this variable. It is `derived` by `DerivedFunc::DynamicToVector`.
    pub fn dynamic_to_vector(self, vars: &mut TypeVars) -> Result<TypeVar, AllocError>
        requires room { length vars.old < 2 ^ 32 - 1 }
        requires of { self < length vars.old }
        ensures derives { Derives vars.old self DerivedFunc.DynamicToVector result vars.new }
        ensures grows { GrowsByOne vars.old vars.new }
    {
        self.derived(vars, DerivedFunc::DynamicToVector)
    }

    /// A variable for the types with fewer bits than this one. It is `derived` by `DerivedFunc::Narrower`.
    pub fn narrower(self, vars: &mut TypeVars) -> Result<TypeVar, AllocError>
        requires room { length vars.old < 2 ^ 32 - 1 }
        requires of { self < length vars.old }
        requires can { IsTrue (can_derive Narrower (coded_at vars.old self)) }
        ensures derives { Derives vars.old self DerivedFunc.Narrower result vars.new }
        ensures grows { GrowsByOne vars.old vars.new }
    {
        self.derived(vars, DerivedFunc::Narrower)
    }

    /// A variable for the types with more bits than this one. It is `derived` by `DerivedFunc::Wider`.
    pub fn wider(self, vars: &mut TypeVars) -> Result<TypeVar, AllocError>
        requires room { length vars.old < 2 ^ 32 - 1 }
        requires of { self < length vars.old }
        requires can { IsTrue (can_derive Wider (coded_at vars.old self)) }
        ensures derives { Derives vars.old self DerivedFunc.Wider result vars.new }
        ensures grows { GrowsByOne vars.old vars.new }
    {
        self.derived(vars, DerivedFunc::Wider)
    }

    /// Whether the function can be applied to the coded image of the variable, which must be of this registry. For example, each width that
    /// is halved must be above the least one, and each that is doubled below 128. Memory never runs out here. The crate asserts this.
    pub fn can_derive(
        self,
        alloc: Global,
        vars: &TypeVars,
        derived_func: DerivedFunc,
    ) -> Result<bool, AllocError>
        requires { self < length vars.now }
        ensures { IsOkAnd result (λ can. can ≡ can_derive (function_of derived_func) (coded_at vars.now self)) }
    {
        Ok(self.get_typeset(alloc, vars)?.can_derive(derived_func))
    }

    /// The coded image of the variable, which must be of this registry: what the chain makes of the root's type set. Memory never runs out
    /// here.
    pub fn get_typeset(self, alloc: Global, vars: &TypeVars) -> Result<TypeSet, AllocError>
        requires { self < length vars.now }
        ensures { IsOkAnd result (λ s. s ≡ coded_at vars.now self) }
    {
        vars.content(self).coded(alloc)
    }

    /// Whether the stored type set is the variable's own coded image, and not that of the variable it is derived from. It is true for a
    /// root. The variable must be of this registry. Memory never runs out here. In the crate `get_raw_typeset` asserts this.
    pub fn is_raw(self, alloc: Global, vars: &TypeVars) -> Result<bool, AllocError>
        requires { self < length vars.now }
        ensures { IsOkAnd result (λ raw. IsTrue raw ↔ IsRaw vars.now self) }
    {
        let coded = self.get_typeset(alloc, vars)?.masks();
        Ok(vars.content(self).type_set.masks() == coded)
    }

    /// The stored type set of the variable, which must be of this registry. That set must be the variable's own, which `is_raw` tests.
    pub fn get_raw_typeset(self, vars: &TypeVars) -> &TypeSet
        requires of { self < length vars.now }
        requires raw { IsRaw vars.now self }
        ensures { result.now ≡ coded_at vars.now self }
    {
        &vars.content(self).type_set
    }

    /// The only type in the coded image of the variable, which must be of this registry. `None` exactly if the image doesn't have exactly
    /// one type. Memory never runs out here.
    pub fn singleton_type(
        self,
        alloc: Global,
        vars: &TypeVars,
    ) -> Result<Option<ValueType>, AllocError>
        requires { self < length vars.now }
        ensures found { IsOkAnd result (λ o. IfSome o (λ t. IsOnlyMember (coded_at vars.now self) (type_parts_of t))) }
        ensures none { IfOk result (λ o. IfNone o (¬ HasOne (coded_at vars.now self))) }
    {
        Ok(self.get_typeset(alloc, vars)?.only_type())
    }

    /// The root of the variable, which must be of this registry. `None` exactly if the root's type set has exactly one type. Memory never
    /// runs out here.
    pub fn free_typevar(
        self,
        _alloc: Global,
        vars: &TypeVars,
    ) -> Result<Option<TypeVar>, AllocError>
        requires { self < length vars.now }
        ensures found { IsOkAnd result (λ o. IfSome o (λ v. v ≡ (variable_at vars.now self).root)) }
        ensures free { let v = variable_at vars.now self in IfOk result (λ o. IfSome o (λ _. ¬ HasOne (sets_of vars.now v.root))) }
        ensures none { let v = variable_at vars.now self in IfOk result (λ o. IfNone o (HasOne (sets_of vars.now v.root))) }
    {
        let root = self.root(vars);
        if vars.content(root).type_set.size() == 1 {
            return Ok(None);
        }
        Ok(Some(root))
    }

    /// The root of the variable, which must be of this registry. A root is its own root.
    pub fn root(self, vars: &TypeVars) -> TypeVar
        requires { self < length vars.now }
        ensures root { result ≡ (variable_at vars.now self).root }
        ensures underived { variable_at vars.now result ≡ underived result }
        ensures of { result < length vars.now }
    {
        vars.content(self).root
    }

    /// The chain of the variable, which must be of this registry: the derived functions from the root to it, in order from the root.
    pub fn chain(self, alloc: Global, vars: &TypeVars) -> Result<Vec<DerivedFunc>, AllocError>
        requires { self < length vars.now }
        ensures { IfOk result (λ v. functions_of v.items ≡ (variable_at vars.now self).chain) }
    {
        vars.content(self).chain.as_slice().to_vec(alloc)
    }

    /// The only type that the variable can have, whichever type of its set the root has. The variable must be of this registry. `None`
    /// exactly if there is no one such type, or the chain has a relation.
    pub fn fixed_type(self, vars: &TypeVars) -> Option<ValueType>
        requires { self < length vars.now }
        ensures found { let v = variable_at vars.now self in
            IfSome result (λ t. IsFixed (sets_of vars.now v.root) v.chain (type_parts_of t)) }
        ensures none { let v = variable_at vars.now self in IfNone result (IsOpen (sets_of vars.now) v) }
    {
        let set = &vars.content(self.root(vars)).type_set;
        fixed_along(set, vars.content(self).chain.as_slice())
    }

    pub(crate) fn of(number: u32) -> TypeVar
        ensures { result ≡ number }
    {
        TypeVar { number }
    }

    pub(crate) fn number(self) -> u32
        ensures { result ≡ self }
    {
        self.number
    }

    pub(crate) fn index(self) -> usize
        ensures { result ≡ self }
    {
        self.number as usize
    }
}
