//! Tables of kinds of operands.
ghost use Rattle.std.specs.Prelude.{◌≡◌, ◌∷◌, ◌<◌, ◌+◌, IfOk, OnOk, map};
ghost use Rattle.std.specs.Vec.Iter.{into_iter_items, into_iter_len};
ghost use Rattle.meta_operands.specs.EnumEntries.{with_value};
ghost use Rattle.meta_shared.specs.Kinds.{pairs_as_values};
ghost use Rattle.meta_shared.specs.KindRows.{fields_of, key_of_kind, key_of_row, IsKindOfRow};

use meta_operands::{EnumValues, OperandKind, OperandKindFields};
use meta_types::Text;
use std::alloc::{AllocError, Global};
use std::vec::IntoIter;

/// What the operands of a kind are.
#[derive(Clone, Copy)]
pub(crate) enum Class {
    /// References to entities of the function.
    Entity,
    /// Any number of values (varargs).
    Varargs,
    /// Immediates that are numbers.
    Number,
    /// Immediates of an enum. Each value has the variant that it stands for.
    Choice(&'static [(&'static str, &'static str)]),
}

#[derive(Clone, Copy)]
pub(crate) struct KindRow {
    pub(crate) class: Class,
    pub(crate) field_name: &'static str,
    pub(crate) rust_type: &'static str,
    pub(crate) doc: &'static str,
}

/// A table of kinds. For each field it has what the operands are, the field name, the Rust type, the documentation, and the values of an
/// enum.
macro_rules! kind_rows {
    ($($field:ident: $class:ident($field_name:literal, $rust_type:literal, $doc:literal $(, $values:expr)?);)+) => {
        [$(KindRow { class: Class::$class $(($values))?, field_name: $field_name, rust_type: $rust_type, doc: $doc }),+]
    };
}

pub(crate) use kind_rows;

fn insert(
    alloc: Global,
    values: &mut EnumValues,
    name: &str,
    variant: &str,
) -> Result<(), AllocError>
    ensures { OnOk result (values.new ≡ with_value values.old name.now variant.now) }
{
    let name = Text::new(alloc, name)?;
    let variant = Text::new(alloc, variant)?;
    values.insert(name, variant)?;
    Ok(())
}

fn values(alloc: Global, pairs: &[(&str, &str)]) -> Result<EnumValues, AllocError>
    ensures { IfOk result (λ v. v ≡ pairs_as_values pairs.now) }
{
    let mut values = EnumValues::new(alloc);
    for (name, variant) in pairs {
        insert(alloc, &mut values, name, variant)?;
    }
    Ok(values)
}

fn fields(alloc: Global, class: Class) -> Result<OperandKindFields, AllocError>
    ensures { IfOk result (λ fields. fields ≡ fields_of class) }
{
    match class {
        Class::Entity => Ok(OperandKindFields::EntityRef),
        Class::Varargs => Ok(OperandKindFields::VariableArgs),
        Class::Number => Ok(OperandKindFields::ImmValue),
        Class::Choice(pairs) => Ok(OperandKindFields::ImmEnum(values(alloc, pairs)?)),
    }
}

fn make(alloc: Global, row: &KindRow) -> Result<OperandKind, AllocError>
    ensures { IfOk result (IsKindOfRow row.now) }
{
    let field_name = Text::new(alloc, row.field_name)?;
    let rust_type = Text::new(alloc, row.rust_type)?;
    let doc = Text::new(alloc, row.doc)?;
    let fields = fields(alloc, row.class)?;
    Ok(OperandKind::new(field_name, rust_type, fields, doc))
}

pub(crate) fn make_kinds(alloc: Global, rows: &[KindRow]) -> Result<Vec<OperandKind>, AllocError>
    ensures { IfOk result (λ kinds. map key_of_kind kinds.items ≡ map key_of_row rows.now) }
{
    let mut kinds = Vec::new(alloc);
    for row in rows {
        kinds.push(make(alloc, row)?)?;
    }
    Ok(kinds)
}

pub(crate) fn next(kinds: &mut IntoIter<OperandKind>) -> OperandKind
    requires { 0 < into_iter_len kinds.old }
    ensures items { into_iter_items kinds.old ≡ result ∷ into_iter_items kinds.new }
    ensures count { into_iter_len kinds.old ≡ into_iter_len kinds.new + 1 }
{
    kinds.next().unwrap()
}
