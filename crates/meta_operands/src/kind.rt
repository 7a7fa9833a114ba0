ghost use Rattle.std.specs.Prelude.{◌≡◌, ◌↔◌, IsTrue, IfOk, Some, None, codes, unwrap_or, []};
ghost use Rattle.std.specs.Option.{option_copied};
ghost use Rattle.meta_operands.specs.Kind.{enum_values_in, is_block_kind, is_raw_block_kind, doc_of_kind};

use super::enum_values::EnumValues;
use meta_types::Text;
use meta_typevar::TypeVar;
use std::alloc::{AllocError, Global};

/// What the operands of a kind are.
#[derive(Drop)]
pub enum OperandKindFields {
    /// References to entities of the function, such as blocks and stack slots.
    EntityRef,
    /// Any number of values (varargs).
    VariableArgs,
    /// Immediates: numbers that the instruction itself stores.
    ImmValue,
    /// Immediates of an enum, with the values of that enum.
    ImmEnum(EnumValues),
    /// Values, whose type is that of this type variable.
    TypeVar(TypeVar),
}

impl OperandKindFields {
    /// The values of an enum immediate; `None` exactly for any other kind.
    pub fn enum_values(&self) -> Option<&EnumValues>
        ensures { option_copied result ≡ enum_values_in self.now }
    {
        match self {
            OperandKindFields::ImmEnum(values) => Some(values),
            _ => None,
        }
    }

    fn copy(&self, alloc: Global) -> Result<OperandKindFields, AllocError>
        ensures { IfOk result (λ f. f ≡ self.now) }
    {
        match self {
            OperandKindFields::EntityRef => Ok(OperandKindFields::EntityRef),
            OperandKindFields::VariableArgs => Ok(OperandKindFields::VariableArgs),
            OperandKindFields::ImmValue => Ok(OperandKindFields::ImmValue),
            OperandKindFields::ImmEnum(values) => {
                Ok(OperandKindFields::ImmEnum(values.copy(alloc)?))
            }
            OperandKindFields::TypeVar(tv) => Ok(OperandKindFields::TypeVar(*tv)),
        }
    }
}

pub(crate) fn copy_doc(alloc: Global, doc: &Option<Text>) -> Result<Option<Text>, AllocError>
    ensures { IfOk result (λ d. d ≡ doc.now) }
{
    match doc {
        Some(doc) => Ok(Some(doc.copy(alloc)?)),
        None => Ok(None),
    }
}

/// A kind of operands, as in the crate's `cdsl/operands.rs`.
#[derive(Drop)]
pub struct OperandKind {
    /// The name of the field in which a format holds such an operand.
    pub rust_field_name: Text,
    /// The Rust type of that field.
    pub rust_type: Text,
    /// What the operands are.
    pub fields: OperandKindFields,
    doc: Option<Text>,
}

impl OperandKind {
    /// Makes a kind with this field name, Rust type, meaning and documentation.
    pub fn new(
        rust_field_name: Text,
        rust_type: Text,
        fields: OperandKindFields,
        doc: Text,
    ) -> OperandKind
        ensures field_name { result.rust_field_name ≡ rust_field_name }
        ensures field_type { result.rust_type ≡ rust_type }
        ensures fields { result.fields ≡ fields }
        ensures doc { doc_of_kind result ≡ Some doc }
    {
        OperandKind {
            rust_field_name,
            rust_type,
            fields,
            doc: Some(doc),
        }
    }

    /// Makes the kind of values whose type is that of the type variable. The field is `value`, its Rust type `ir::Value`, and there is no
    /// documentation. In the crate this is `From<&TypeVar>`.
    pub fn of(alloc: Global, tv: TypeVar) -> Result<OperandKind, AllocError>
        ensures field_name { IfOk result (λ k. k.rust_field_name ≡ codes "value") }
        ensures field_type { IfOk result (λ k. k.rust_type ≡ codes "ir::Value") }
        ensures fields { IfOk result (λ k. k.fields ≡ OperandKindFields.TypeVar tv) }
        ensures doc { IfOk result (λ k. doc_of_kind k ≡ None) }
    {
        Ok(OperandKind {
            rust_field_name: Text::new(alloc, "value")?,
            rust_type: Text::new(alloc, "ir::Value")?,
            fields: OperandKindFields::TypeVar(tv),
            doc: None,
        })
    }

    /// Makes a copy of the kind. In the crate this is `Clone` and `From<&OperandKind>`.
    pub fn copy(&self, alloc: Global) -> Result<OperandKind, AllocError>
        ensures { IfOk result (λ k. k ≡ self.now) }
    {
        Ok(OperandKind {
            rust_field_name: self.rust_field_name.copy(alloc)?,
            rust_type: self.rust_type.copy(alloc)?,
            fields: self.fields.copy(alloc)?,
            doc: copy_doc(alloc, &self.doc)?,
        })
    }

    /// Whether the operands are blocks that take arguments: the Rust type is `ir::BlockCall`.
    pub fn is_block(&self) -> bool
        ensures test { result ≡ is_block_kind self.now }
        ensures meaning { IsTrue result ↔ (self.now.rust_type ≡ codes "ir::BlockCall") }
    {
        self.rust_type.as_str() == "ir::BlockCall"
    }

    /// Whether the operands are blocks without arguments: the Rust type is `ir::Block`.
    pub fn is_raw_block(&self) -> bool
        ensures test { result ≡ is_raw_block_kind self.now }
        ensures meaning { IsTrue result ↔ (self.now.rust_type ≡ codes "ir::Block") }
    {
        self.rust_type.as_str() == "ir::Block"
    }

    pub(crate) fn doc(&self) -> &str
        ensures { result.now ≡ unwrap_or (doc_of_kind self.now) [] }
    {
        match &self.doc {
            Some(doc) => doc.as_str(),
            None => "",
        }
    }
}
