use crate::variables::Variables;
use crate::words::{text_of, texts, write_prose};
use meta_operands::{EnumValues, Operand, OperandKind, OperandKindFields};
use meta_types::Text;
use rows_base::{Answer, Case, Trouble, named, pair_of};
use std::alloc::Global;

/// Lets a name stand for a variant, written `NAME=VARIANT`, and answers what it stood for before.
fn add_value(alloc: Global, values: &mut EnumValues, value: &str) -> Result<Option<Text>, Trouble> {
    let (name, variant) = pair_of(value, '=')?;
    let name = Text::new(alloc, name)?;
    Ok(values.insert(name, Text::new(alloc, variant)?)?)
}

/// The values of an enum, with commas between them, or `''` if there are none.
fn values_of(alloc: Global, list: &str) -> Result<EnumValues, Trouble> {
    let mut values = EnumValues::new(alloc);
    if list != "''" {
        for value in list.split(',') {
            add_value(alloc, &mut values, value)?;
        }
    }
    Ok(values)
}

/// Writes the values in order, each as `NAME=VARIANT`, or `-` if there are none.
fn write_values(values: &EnumValues, case: &mut Case<'_>) {
    let start = case.written();
    for (name, variant) in values.iter() {
        case.item(start, name.as_str());
        case.field("=", &variant.as_str());
    }
    case.end_list(start);
}

fn write_found(found: Option<&Text>, case: &mut Case<'_>) {
    match found {
        Some(text) => case.text(text.as_str()),
        None => case.letter('-'),
    }
}

/// `insert LIST VALUE`: how many values there are after one is added to a list, the values in order, and what the name stood for before.
pub(crate) fn insert_value(alloc: Global, case: &mut Case<'_>) -> Answer {
    let mut values = values_of(alloc, case.word())?;
    let before = add_value(alloc, &mut values, case.word())?;
    case.shown(&values.len());
    case.letter(' ');
    write_values(&values, case);
    case.text(" before ");
    write_found(before.as_ref(), case);
    Ok(())
}

/// `find LIST NAME`: what the name stands for among the values, or `-`.
pub(crate) fn find_value(alloc: Global, case: &mut Case<'_>) -> Answer {
    let values = values_of(alloc, case.word())?;
    let name = Text::new(alloc, case.word())?;
    write_found(values.get(&name), case);
    Ok(())
}

pub(crate) fn write_kind(kind: &OperandKind, variables: &Variables<'_>, case: &mut Case<'_>) {
    case.text(kind.rust_field_name.as_str());
    case.field(": ", &kind.rust_type.as_str());
    match &kind.fields {
        OperandKindFields::EntityRef => case.text(" entity"),
        OperandKindFields::VariableArgs => case.text(" varargs"),
        OperandKindFields::ImmValue => case.text(" imm"),
        OperandKindFields::ImmEnum(_) => case.text(" enum "),
        OperandKindFields::TypeVar(tv) => case.field(" value ", &variables.name(Some(*tv))),
    }
    if let Some(values) = kind.fields.enum_values() {
        write_values(values, case);
    }
}

/// Writes what an operand shows: its name, its kind, the tests that hold of it and its kind, or `-` if no test does, its variable, and its
/// documentation, which is missing if its variable is of another registry.
fn write_operand(operand: &Operand, variables: &Variables<'_>, case: &mut Case<'_>) {
    case.text(operand.name.as_str());
    case.text(" of ");
    write_kind(&operand.kind, variables, case);
    case.text(" is ");
    let start = case.written();
    let tests = [
        ("block", operand.kind.is_block()),
        ("raw_block", operand.kind.is_raw_block()),
        ("value", operand.is_value()),
        ("varargs", operand.is_varargs()),
        ("immediate", operand.is_immediate()),
        (
            "immediate_or_entityref",
            operand.is_immediate_or_entityref(),
        ),
    ];
    for (name, holds) in tests {
        if holds {
            case.item(start, name);
        }
    }
    case.end_list(start);
    case.field(" variable ", &variables.name(operand.type_var()));
    match operand.type_var() {
        Some(tv) if !variables.vars.is_of(tv) => {}
        _ => write_prose(case, operand.doc(&variables.vars)),
    }
}

#[derive(Drop)]
pub(crate) struct Kinds<'l> {
    alloc: Global,
    named: Vec<(&'l str, OperandKind)>,
}

impl<'l> Kinds<'l> {
    pub(crate) fn new(alloc: Global) -> Kinds<'l> {
        Kinds {
            alloc,
            named: Vec::new(alloc),
        }
    }

    /// What operands of a kind are, by the next words: for an enum or a value one more word.
    fn next_fields(
        &self,
        variables: &Variables<'_>,
        case: &mut Case<'_>,
    ) -> Result<OperandKindFields, Trouble> {
        Ok(match case.word() {
            "entity" => OperandKindFields::EntityRef,
            "varargs" => OperandKindFields::VariableArgs,
            "imm" => OperandKindFields::ImmValue,
            "enum" => OperandKindFields::ImmEnum(values_of(self.alloc, case.word())?),
            "value" => OperandKindFields::TypeVar(variables.next(case)?),
            _ => return Err(Trouble::NoCase),
        })
    }

    /// `kind WORD FIELD_NAME RUST_TYPE FIELDS | DOC`: a kind, and what it shows. The fields are what operands are.
    pub(crate) fn declare(&mut self, variables: &Variables<'_>, case: &mut Case<'l>) -> Answer {
        let word = case.word();
        let told = [text_of(case.word()), case.word(), case.doc()];
        let fields = self.next_fields(variables, case)?;
        let (field_name, rust_type, doc) = texts(self.alloc, told)?;
        let kind = OperandKind::new(field_name, rust_type, fields, doc);
        write_kind(&kind, variables, case);
        Ok(self.named.push((word, kind))?)
    }

    pub(crate) fn kind(
        &self,
        variables: &Variables<'_>,
        word: &str,
    ) -> Result<OperandKind, Trouble> {
        match variables.named(word) {
            Ok(tv) => Ok(OperandKind::of(self.alloc, tv)?),
            Err(_) => Ok(named(&self.named, word)?.copy(self.alloc)?),
        }
    }

    pub(crate) fn operand(
        &self,
        variables: &Variables<'_>,
        name: &str,
        kind: &str,
    ) -> Result<Operand, Trouble> {
        let name = Text::new(self.alloc, name)?;
        Ok(Operand::new(name, self.kind(variables, kind)?))
    }

    /// `operand NAME KIND | DOC`: what the copy of an operand shows.
    pub(crate) fn write_operand(&self, variables: &Variables<'_>, case: &mut Case<'_>) -> Answer {
        let (name, kind) = (case.word(), case.word());
        let mut operand = self.operand(variables, name, kind)?;
        if !case.doc().is_empty() {
            operand = operand.with_doc(Text::new(self.alloc, case.doc())?);
        }
        write_operand(&operand.copy(self.alloc)?, variables, case);
        Ok(())
    }
}
