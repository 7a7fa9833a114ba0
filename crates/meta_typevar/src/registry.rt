ghost use Rattle.std.specs.Prelude.{◌≡◌, ◌≢◌, ◌-◌, ◌+◌, ◌^◌, ◌<◌, ◌↔◌, [], ◌∷◌, ◌++◌, length, IsTrue, slice_get, Some, ℕ, Ok, OnOk, OnErr};
ghost use Rattle.std.specs.Prelude.{IfOk, IfSome, IfNone};
ghost use Rattle.std.specs.List.{filter};
ghost use Rattle.meta_types.specs.DerivedFunc.{function_of};
ghost use Rattle.meta_typevar.specs.Registry.{is_root, root_content, coded_at, derived_name, IsDerivation, IsRegistry};
ghost use Rattle.meta_typevar.specs.Children.{IsChild, no_children};

use super::chain::Chain;
use super::children::Children;
use super::content::{TypeVarContent, TypeVarParent};
use super::type_set::TypeSet;
use super::typevar::TypeVar;
use meta_types::{DerivedFunc, Text};
use std::alloc::{AllocError, Global};
use std::marker::Model;

/// A registry of type variables. Variables are numbered from 0, in the order in which they were added.
#[derive(Drop)]
pub struct TypeVars {
    contents: Vec<TypeVarContent>,
    // What is derived from each of them.
    children: Vec<Children>,
}

impl Model for TypeVars {
    ghost use Rattle.std.specs.Prelude.{List};
    ghost use Rattle.meta_typevar.specs.declared.content.TypeVarContent.{TypeVarContent};

    ghost Value = { List TypeVarContent };

    ghost use Rattle.meta_typevar.specs.Registry.{IsRegistry};
    ghost use Rattle.meta_typevar.specs.Children.{AreKnown};

    ghost view = { λ v. v.contents.items };

    ghost invariant = { λ v. IsRegistry v.contents.items × AreKnown v.contents.items v.children.items };
}

impl TypeVars {
    /// Makes a registry without variables.
    pub fn new(alloc: Global) -> TypeVars
        ensures { result ≡ [] }
    {
        TypeVars {
            contents: Vec::new(alloc),
            children: Vec::new(alloc),
        }
    }

    /// How many variables there are, below 2^32.
    pub fn len(&self) -> usize
        ensures count { result ≡ length self.now }
        ensures registry { IsRegistry self.now }
    {
        self.contents.len()
    }

    /// How many variables are roots.
    pub fn root_count(&self) -> usize
        ensures { result ≡ length (filter is_root self.now) }
    {
        self.contents.iter().filter(|c| c.base.is_none()).count()
    }

    /// Whether a variable can be added: there are fewer than 2^32 - 1.
    pub fn has_room(&self) -> bool
        ensures { IsTrue result ↔ (length self.now < 2 ^ 32 - 1) }
    {
        self.contents.len() < u32::MAX as usize
    }

    /// Whether the variable is of this registry: its number is below `len`.
    pub fn is_of(&self, tv: TypeVar) -> bool
        ensures { IsTrue result ↔ (tv < length self.now) }
    {
        tv.index() < self.contents.len()
    }

    /// What the registry keeps of a variable, which must be of this registry.
    pub fn content(&self, tv: TypeVar) -> &TypeVarContent
        requires { tv < length self.now }
        ensures kept { slice_get self.now tv ≡ Some result.now }
        ensures registry { IsRegistry self.now }
    {
        &self.contents[tv.index()]
    }

    pub(crate) fn allocator(&self) -> Global {
        *self.contents.allocator()
    }

    pub(crate) fn find(&self, tv: TypeVar, derived_func: DerivedFunc) -> Option<TypeVar>
        requires { tv < length self.now }
        ensures registry { IsRegistry self.now }
        ensures found { IfSome result (λ m. IsChild self.now tv derived_func m) }
        ensures none { IfNone result ((m : ℕ) → IsChild self.now tv derived_func m → ⊥) }
    {
        match self.children[tv.index()].get(derived_func) {
            Some(number) => Some(TypeVar::of(number)),
            None => None,
        }
    }

    pub(crate) fn add_root(
        &mut self,
        name: Text,
        doc: Text,
        type_set: TypeSet,
    ) -> Result<TypeVar, AllocError>
        requires { length self.old < 2 ^ 32 - 1 }
        ensures number { IfOk result (λ v. v ≡ length self.old) }
        ensures added { OnOk result (self.new ≡ self.old ++ root_content name doc type_set (length self.old) ∷ []) }
        ensures err { OnErr result (self.new ≡ self.old) }
    {
        // The clause of this call says that the set is one of types, which the registry keeps.
        let _masks = type_set.masks();
        let chain = Chain::new(self.allocator());
        let tv = TypeVar::of(self.contents.len() as u32);
        let content = TypeVarContent {
            name,
            doc,
            base: None,
            type_set,
            root: tv,
            chain,
        };
        push_both(&mut self.contents, &mut self.children, content)?;
        Ok(tv)
    }

    /// What to keep of the variable that is derived from `tv`, of this registry, by the function. Its type set is its coded image.
    pub(crate) fn derive(
        &self,
        parent: TypeVar,
        derived_func: DerivedFunc,
        type_set: TypeSet,
    ) -> Result<TypeVarContent, AllocError>
        requires parent { parent < length self.now }
        requires set { type_set ≡ coded_at self.now parent }
        ensures { IfOk result (IsDerivation self.now parent derived_func) }
    {
        let alloc = self.allocator();
        let content = self.content(parent);
        Ok(TypeVarContent {
            name: derived_name(alloc, derived_func, &content.name)?,
            doc: Text::new(alloc, "")?,
            base: Some(TypeVarParent {
                type_var: parent,
                derived_func,
            }),
            type_set,
            root: content.root,
            chain: content.chain.with(alloc, derived_func)?,
        })
    }

    pub(crate) fn add_derived(
        &mut self,
        parent: TypeVar,
        derived_func: DerivedFunc,
        content: TypeVarContent,
    ) -> Result<TypeVar, AllocError>
        requires room { length self.old < 2 ^ 32 - 1 }
        requires derived { IsDerivation self.old parent derived_func content }
        requires new { (m : ℕ) → IsChild self.old parent derived_func m → ⊥ }
        ensures number { IfOk result (λ v. v ≡ length self.old) }
        ensures added { OnOk result (self.new ≡ self.old ++ content ∷ []) }
        ensures err { OnErr result (self.new ≡ self.old) }
    {
        // The clause of this call says that the set is one of types, which the registry keeps.
        let _masks = content.type_set.masks();
        let tv = TypeVar::of(self.contents.len() as u32);
        push_both(&mut self.contents, &mut self.children, content)?;
        self.children[parent.index()].set(derived_func, tv.number());
        Ok(tv)
    }
}

fn push_both(
    contents: &mut Vec<TypeVarContent>,
    children: &mut Vec<Children>,
    content: TypeVarContent,
) -> Result<(), AllocError>
    ensures content { OnOk result (contents.new.items ≡ contents.old.items ++ content ∷ []) }
    ensures children { OnOk result (children.new.items ≡ children.old.items ++ no_children ∷ []) }
    ensures content_stays { OnErr result (contents.new.items ≡ contents.old.items) }
    ensures children_stay { OnErr result (children.new.items ≡ children.old.items) }
{
    children.push(Children::new())?;
    match contents.push(content) {
        Ok(()) => Ok(()),
        Err(_) => {
            children.pop();
            Err(AllocError)
        }
    }
}

/// The name of the variable that is derived by the function from one with this name, such as `lane_of(X)`.
fn derived_name(alloc: Global, derived_func: DerivedFunc, parent: &Text) -> Result<Text, AllocError>
    ensures { IfOk result (λ t. t ≡ derived_name (function_of derived_func) parent.now) }
{
    let function = derived_func.name();
    let name = format!(in alloc; "{function}({})", parent.as_str())?;
    Text::new(alloc, name.as_str())
}
