ghost use Rattle.std.specs.Prelude.{◌≡◌, ◌<◌, ◌≤◌, ◌^◌, ◌-◌, ℕ, length, nat_lt, IfOk, OnOk, OnErr, IfSome, IfNone, Ok, None};
ghost use Rattle.meta_types.specs.ValueTypes.{type_parts_of};
ghost use Rattle.meta_file_types.specs.Meant.{MeantType, plain};
ghost use Rattle.meta_file_types.specs.Plain.{plain_type, given_kind};
ghost use Rattle.meta_file_types.specs.Depth.{depth_at, IsAfter, root_name_at};
ghost use Rattle.meta_file_types.specs.Words.{most_functions, longest_name, derive_at, derived_from, type_named, type_of};
ghost use Rattle.meta_file_types.specs.Said.{Said, nothing_said, mentioning, after_type};
ghost use Rattle.meta_file_types.specs.Telling.{Tells};
ghost use Rattle.meta_file_types.specs.Registered.{IsTypeIn, Extends};
ghost use Rattle.meta_file_types.specs.Held.{StandsFor, registered, vars_in, Holds, IsMentioned};

use super::given::GivenKind;
use super::plain::{PlainRoot, add_plain_root, plain_type, variable_for};
use super::refused::{ItemError, Reason};
use super::spelled::Spelled;
use super::words::Words;
use meta_file_syntax::TypeExpr;
use meta_types::{DerivedFunc, ValueType};
use meta_typevar::{TypeVar, TypeVars};
use std::alloc::{AllocError, Global};

/// The most functions that a type can have after its root.
const MOST_FUNCTIONS: usize = 64;

/// The most bytes that the name of a root can have if a type is derived from it.
const LONGEST_NAME: usize = 4_096;

/// The variable from which this one is derived, if it is derived. It must be of the registry.
#[tactic(auto, using(crate::proofs::After::at_root))]
fn parent(vars: &TypeVars, variable: TypeVar) -> Option<TypeVar>
    requires { variable < length vars.now }
    ensures some { IfSome result (IsAfter vars.now variable) }
    ensures none { IfNone result (depth_at vars.now variable ≡ 0) }
{
    match &vars.content(variable).base {
        Some(parent) => Some(parent.type_var),
        None => None,
    }
}

fn may_be_derived_from(vars: &TypeVars, variable: TypeVar) -> bool
    requires { variable < length vars.now }
    ensures { result ≡ nat_lt (depth_at vars.now variable) most_functions }
{
    let mut at = variable;
    for _step in 0..MOST_FUNCTIONS {
        match parent(vars, at) {
            Some(next) => at = next,
            None => return true,
        }
    }
    false
}

/// Whether the name of the variable's root is too long to derive a type from it. Each variable keeps its whole name: with 64 functions, a
/// name of half a megabyte would take 32 megabytes.
fn has_long_name(vars: &TypeVars, variable: TypeVar) -> bool
    requires { variable < length vars.now }
    ensures { result ≡ nat_lt longest_name (length (root_name_at vars.now variable)) }
{
    vars.content(variable.root(vars)).name.as_bytes().len() > LONGEST_NAME
}

/// The declarations of the items so far: the registry of their type variables, and what their words stand for.
#[derive(Drop)]
pub struct Types {
    pub(crate) vars: TypeVars,
    /// The plain types that are in use, in the order of their first use.
    pub(crate) plain: Vec<PlainRoot>,
    pub(crate) words: Words,
}

impl Types {
    /// Makes the declarations of no items.
    pub fn new(alloc: Global) -> Types
        ensures { Holds result nothing_said }
    {
        Types {
            vars: TypeVars::new(alloc),
            plain: Vec::new(alloc),
            words: Words::new(alloc),
        }
    }

    /// The registry of the type variables.
    pub fn vars(&self) -> &TypeVars
        ensures { result.now ≡ vars_in self.now }
    {
        &self.vars
    }

    /// Takes out the registry of the type variables. No word can be looked up any more.
    pub fn into_vars(self) -> TypeVars
        ensures { result ≡ vars_in self }
    {
        self.vars
    }

    pub(crate) fn check_room(&self) -> Result<(), AllocError>
        ensures room { OnOk result (length (vars_in self.now) < 2 ^ 32 - 1) }
        ensures full { OnErr result (2 ^ 32 - 1 ≤ length (vars_in self.now)) }
    {
        if self.vars.has_room() {
            return Ok(());
        }
        Err(AllocError)
    }

    fn new_plain(&mut self, value_type: ValueType) -> Result<TypeVar, AllocError>
        ghost said: { Said }
        requires held { Holds self.old said }
        requires new { (n : ℕ) → StandsFor self.old.plain.items (type_parts_of value_type) n → ⊥ }
        ensures means { let t = plain (type_parts_of value_type) in IfOk result (IsTypeIn (registered self.new (mentioning said
            (Ok t))) t) }
        ensures holds { OnOk result (Holds self.new (mentioning said (Ok (plain (type_parts_of value_type))))) }
        ensures extends { OnOk result
            (Extends (registered self.old said) (registered self.new (mentioning said (Ok (plain (type_parts_of value_type)))))) }
    {
        self.check_room()?;
        let alloc = *self.plain.allocator();
        let variable = add_plain_root(alloc, &mut self.vars, value_type)?;
        self.plain.push(PlainRoot {
            value_type,
            variable,
        })?;
        Ok(variable)
    }

    /// The variable that stands for a plain type. It is added where the type is first used.
    #[tactic(auto, using(crate::proofs::Fresh::known_held, crate::proofs::Fresh::known_extends, crate::proofs::Fresh::known_is))]
    fn plain_type(&mut self, value_type: ValueType) -> Result<TypeVar, AllocError>
        ghost said: { Said }
        requires { Holds self.old said }
        ensures means { let t = plain (type_parts_of value_type) in IfOk result (IsTypeIn (registered self.new (mentioning said
            (Ok t))) t) }
        ensures holds { OnOk result (Holds self.new (mentioning said (Ok (plain (type_parts_of value_type))))) }
        ensures extends { OnOk result
            (Extends (registered self.old said) (registered self.new (mentioning said (Ok (plain (type_parts_of value_type)))))) }
    {
        match variable_for(&self.plain, value_type) {
            Some(known) => Ok(known),
            None => self.new_plain(value_type),
        }
    }

    #[tactic(auto, using(crate::proofs::Naming::named_kept, crate::proofs::Naming::named_none))]
    fn kept_type<'i>(&self, word: &'i [u8]) -> Result<TypeVar, ItemError<'i>>
        ghost said: { Said }
        requires held { Holds self.now said }
        requires not_plain { plain_type word.now ≡ None }
        requires not_given { given_kind word.now ≡ None }
        ensures { Tells (IsTypeIn (registered self.now said)) result (type_named said.words word.now) }
    {
        match self.words.get(word) {
            Some(kept) => kept.variable(word),
            None => Err(ItemError::Wrong(Reason::Unknown(Spelled::of(word)))),
        }
    }

    #[tactic(auto, using(crate::proofs::Naming::named_given))]
    pub(crate) fn type_named<'i>(&mut self, word: &'i [u8]) -> Result<TypeVar, ItemError<'i>>
        ghost said: { Said }
        requires { Holds self.old said }
        ensures means { let meant = type_named said.words word.now in Tells (IsTypeIn (registered self.new
            (mentioning said meant))) result meant }
        ensures holds { OnOk result (Holds self.new (mentioning said (type_named said.words word.now))) }
        ensures extends { OnOk result
            (Extends (registered self.old said) (registered self.new (mentioning said (type_named said.words word.now)))) }
    {
        if let Some(value_type) = plain_type(word) {
            return Ok(self.plain_type(value_type)?);
        }
        if GivenKind::of(word).is_some() {
            return Err(ItemError::Wrong(Reason::NoType(Spelled::of(word))));
        }
        self.kept_type(word)
    }

    /// Applies a function to a type with this variable, which further functions and a word spell.
    #[tactic(auto, using(crate::proofs::Deriving::derive_refused, crate::proofs::Deriving::derive_deep, crate::proofs::Deriving::derive_long))]
    fn derive<'i>(
        &mut self,
        alloc: Global,
        variable: TypeVar,
        function: DerivedFunc,
        after: &'i [DerivedFunc],
        word: &'i [u8],
    ) -> Result<TypeVar, ItemError<'i>>
        requires { variable < length (vars_in self.old) }
        ensures means { (s : Said) (m : MeantType) → IsMentioned self.old s m variable
            → Tells (IsMentioned self.new s) result (derive_at word.now after.now function m) }
        ensures extends { (s : Said) (m : MeantType) → IsMentioned self.old s m variable
            → OnOk result (Extends (registered self.old (mentioning s (Ok m))) (registered self.new (mentioning s
            (derive_at word.now after.now function m)))) }
        ensures of { IfOk result (λ v. v < length (vars_in self.new)) }
    {
        if !may_be_derived_from(&self.vars, variable) {
            return Err(ItemError::Wrong(Reason::TooDeep(function, Spelled::of(word))));
        }
        if has_long_name(&self.vars, variable) {
            return Err(ItemError::Wrong(Reason::LongName(Spelled::of(word))));
        }
        self.check_room()?;
        if !variable.can_derive(alloc, &self.vars, function)? {
            let (after, word) = (Spelled::of(after), Spelled::of(word));
            return Err(ItemError::Wrong(Reason::CannotDerive(function, after, word)));
        }
        Ok(variable.derived(&mut self.vars, function)?)
    }

    /// Applies the functions to a type with this variable, the last one first.
    #[tactic(auto, using(crate::proofs::Deriving::along_start, crate::proofs::Deriving::along_next, crate::proofs::Deriving::along_means, crate::proofs::Deriving::along_extends))]
    fn derive_all<'i>(
        &mut self,
        alloc: Global,
        variable: TypeVar,
        functions: &'i [DerivedFunc],
        word: &'i [u8],
    ) -> Result<TypeVar, ItemError<'i>>
        requires { variable < length (vars_in self.old) }
        ensures means { (s : Said) (m : MeantType) → IsMentioned self.old s m variable
            → Tells (IsMentioned self.new s) result (derived_from word.now functions.now (Ok m)) }
        ensures extends { (s : Said) (m : MeantType) → IsMentioned self.old s m variable
            → OnOk result (Extends (registered self.old (mentioning s (Ok m)))
            (registered self.new (mentioning s (derived_from word.now functions.now (Ok m))))) }
    {
        let mut derived = variable;
        let mut place = functions.len();
        while place > 0 {
            place -= 1;
            let (_, after) = functions.split_at(place + 1);
            match self.derive(alloc, derived, functions[place], after, word) {
                Ok(next) => derived = next,
                Err(error) => return Err(error),
            }
        }
        Ok(derived)
    }

    /// The variable of a type. If it isn't in the registry, it is added, with those from which it is derived. The error is `Wrong` exactly
    /// if something is wrong with the type, and says what is wrong first. First its word isn't declared above or stands for a kind. Then,
    /// from the last function on, a function can't be applied, is one too many, or is applied although the name of the root is too long.
    #[tactic(auto, using(crate::proofs::Deriving::type_fails))]
    pub fn type_var<'i>(
        &mut self,
        alloc: Global,
        means: &'i TypeExpr,
    ) -> Result<TypeVar, ItemError<'i>>
        ghost said: { Said }
        requires { Holds self.old said }
        ensures means { Tells (IsTypeIn (registered self.new (after_type said means.now))) result (type_of said.words means.now) }
        ensures holds { OnOk result (Holds self.new (after_type said means.now)) }
        ensures extends { OnOk result (Extends (registered self.old said) (registered self.new (after_type said means.now))) }
    {
        let word = means.word.as_slice();
        let variable = self.type_named(word)?;
        self.derive_all(alloc, variable, means.functions.as_slice(), word)
    }
}
