ghost use Rattle.std.specs.Prelude.{◌≡◌, ◌<◌, ℕ, IfOk, Some, None, length, is_some};
ghost use Rattle.meta_operands.specs.Operand.{variable_of, is_varargs_operand, is_immediate_operand, is_immediate_or_entityref_operand};
ghost use Rattle.meta_operands.specs.Operand.{own_doc, doc_of};

use super::kind::{OperandKind, OperandKindFields, copy_doc};
use meta_types::Text;
use meta_typevar::{TypeVar, TypeVars};
use std::alloc::{AllocError, Global};

/// An operand of an instruction: its name and its kind, as in the crate's `cdsl/operands.rs`.
#[derive(Drop)]
pub struct Operand {
    /// The name of the operand in the instruction's text.
    pub name: Text,
    /// The kind of the operand.
    pub kind: OperandKind,
    doc: Option<Text>,
}

impl Operand {
    /// Makes an operand with this name and kind, and without a documentation of its own.
    pub fn new(name: Text, kind: OperandKind) -> Operand
        ensures name { result.name ≡ name }
        ensures kind { result.kind ≡ kind }
        ensures doc { own_doc result ≡ None }
    {
        Operand {
            name,
            kind,
            doc: None,
        }
    }

    /// The same operand with this documentation.
    pub fn with_doc(mut self, doc: Text) -> Operand
        ensures name { result.name ≡ self.name }
        ensures kind { result.kind ≡ self.kind }
        ensures doc { own_doc result ≡ Some doc }
    {
        self.doc = Some(doc);
        self
    }

    /// Makes a copy of the operand. In the crate this is `Clone`.
    pub fn copy(&self, alloc: Global) -> Result<Operand, AllocError>
        ensures { IfOk result (λ o. o ≡ self.now) }
    {
        Ok(Operand {
            name: self.name.copy(alloc)?,
            doc: copy_doc(alloc, &self.doc)?,
            kind: self.kind.copy(alloc)?,
        })
    }

    /// The documentation of the operand. It is the one that the operand was given; else, for a value, that of its type variable, which must
    /// be of the registry; else that of its kind, which may be empty.
    pub fn doc<'a>(&'a self, vars: &'a TypeVars) -> &'a str
        requires { (tv : ℕ) → variable_of self.now ≡ Some tv → tv < length vars.now }
        ensures { result.now ≡ doc_of vars.now self.now }
    {
        if let Some(doc) = &self.doc {
            return doc.as_str();
        }
        match self.type_var() {
            Some(tv) => vars.content(tv).doc.as_str(),
            None => self.kind.doc(),
        }
    }

    /// Whether the operand is a value.
    pub fn is_value(&self) -> bool
        ensures { result ≡ is_some (variable_of self.now) }
    {
        self.type_var().is_some()
    }

    /// The type variable of the operand. `None` exactly if the operand isn't a value.
    pub fn type_var(&self) -> Option<TypeVar>
        ensures { result ≡ variable_of self.now }
    {
        match self.kind.fields {
            OperandKindFields::TypeVar(tv) => Some(tv),
            _ => None,
        }
    }

    /// Whether the operand is any number of values (varargs).
    pub fn is_varargs(&self) -> bool
        ensures { result ≡ is_varargs_operand self.now }
    {
        matches!(self.kind.fields, OperandKindFields::VariableArgs)
    }

    /// Whether the operand is an immediate: a number or a value of an enum that the instruction itself stores.
    pub fn is_immediate(&self) -> bool
        ensures { result ≡ is_immediate_operand self.now }
    {
        matches!(
            self.kind.fields,
            OperandKindFields::ImmEnum(_) | OperandKindFields::ImmValue
        )
    }

    /// Whether the operand is an immediate or a reference to an entity, such as a block.
    pub fn is_immediate_or_entityref(&self) -> bool
        ensures { result ≡ is_immediate_or_entityref_operand self.now }
    {
        matches!(
            self.kind.fields,
            OperandKindFields::ImmEnum(_)
                | OperandKindFields::ImmValue
                | OperandKindFields::EntityRef
        )
    }
}
