ghost use Rattle.std.specs.Prelude.{◌≡◌, ℕ, false, List, ◌++◌, IfOk, map};
ghost use Rattle.std.specs.Char.{to_ascii_uppercase};
ghost use Rattle.meta_types.specs.TypeParts.{TypeParts, IsType, number_of, name_of};
ghost use Rattle.meta_inst.specs.Tables.{NumberConstraint, ConcreteNumber};
ghost use Rattle.meta_gen.specs.Constraint.{number_constraint_of};
ghost use Rattle.meta_inst.specs.Which.{Which as Control};
ghost use Rattle.meta_inst.specs.Controls.{which_of};
ghost use Rattle.meta_table_text.specs.ConstraintText.{control_mark, constraint_text, constraint_line};
ghost use Rattle.meta_types.specs.TypeNumber.{IsTypeNumber};
ghost use Rattle.meta_table_reader.specs.Shown.{IsShownConstraint};
ghost use Rattle.meta_table_reader.specs.Words.{small_letter, IsOfControl, ends_marked};

use super::cursor::Cursor;
use super::item::Item;
use meta_gen::{Constraint, Demand, Which};
use meta_types::{DerivedFunc, ValueType, names_differ};
use std::alloc::{AllocError, Global};

/// Where the form of a constraint begins on its line.
const FORM_AT: usize = 23;

/// A byte in the name of a type, from the byte in its name in Rust source: a capital becomes small, except the `N` of a dynamic vector.
fn small_letter(c: u8) -> u8
    ensures { result ≡ small_letter c }
{
    if c == b'N' { c } else { c.to_ascii_lowercase() }
}

fn small_name(alloc: Global, name: &[u8]) -> Result<Vec<u8>, AllocError>
    ensures { IfOk result (λ v. v.items ≡ map small_letter name.now) }
{
    name.iter().map(|c| small_letter(*c)).collect(alloc)
}

/// The number of the type whose name in Rust source is this after `ir::types::`. It is 0 if there is no such type.
fn type_number(alloc: Global, name: &[u8]) -> Result<u16, AllocError>
    ensures { IfOk result (λ n. (t : TypeParts) → IsType t → name.now ≡ map to_ascii_uppercase (name_of t) → n ≡ number_of t) }
{
    let small = small_name(alloc, name)?;
    names_differ();
    match ValueType::parse(small.as_slice()) {
        Some(found) => Ok(found.number()),
        None => Ok(0),
    }
}

/// Reads the line of a constraint that names a type.
fn concrete(alloc: Global, cursor: &mut Cursor) -> Result<Constraint, AllocError>
    ensures { IfOk result (λ c. (n : ℕ) (rest : List ℕ) → IsTypeNumber n
        → cursor.old ≡ constraint_line (ConcreteNumber n) ++ rest → (number_constraint_of c ≡ ConcreteNumber n) × (cursor.new ≡ rest)) }
{
    let name = cursor.until("    OperandConstraint::Concrete(ir::types::", b')');
    cursor.pass("),\n");
    let number = type_number(alloc, name)?;
    Ok(Constraint::Concrete(number))
}

/// The two parts of a word that names a constraint of a control: what stands before the mark, and the control that the mark stands for.
#[derive(Clone, Copy)]
struct Word<'t> {
    name: &'t [u8],
    which: Which,
}

fn split_mark(word: &[u8]) -> Word<'_>
    ensures { (a : Control) (name : List ℕ) → ends_marked name ≡ false → word.now ≡ name ++ control_mark a
        → (result.name.now ≡ name) × (which_of result.which ≡ a) }
{
    let Some((last, name)) = word.split_last() else {
        return Word {
            name: word,
            which: Which::First,
        };
    };
    let mark = *last;
    if mark == b'2' {
        return Word {
            name,
            which: Which::Second,
        };
    }
    Word {
        name: word,
        which: Which::First,
    }
}

/// The constraint of a control that this word names. A word that doesn't name a function gives the constraint that asks for the control
/// itself.
fn constraint_named(word: &[u8]) -> Constraint
    ensures { (n : NumberConstraint) → IsOfControl n → word.now ≡ constraint_text n → number_constraint_of result ≡ n }
{
    let split = split_mark(word);
    match DerivedFunc::of_camel_name(split.name) {
        Some(derived_func) => Constraint::from(Demand::By(split.which, derived_func)),
        None => Constraint::from(Demand::Controlling(split.which)),
    }
}

fn constraint(alloc: Global, cursor: &mut Cursor) -> Result<Constraint, AllocError>
    ensures { IfOk result (λ c. (n : NumberConstraint) (rest : List ℕ) → IsShownConstraint n
        → cursor.old ≡ constraint_line n ++ rest → (number_constraint_of c ≡ n) × (cursor.new ≡ rest)) }
{
    let form = cursor.byte_at(FORM_AT);
    if form == b'C' {
        return concrete(alloc, cursor);
    }
    if form == b'F' {
        let set = cursor.number_u16("    OperandConstraint::Free(", b')');
        cursor.pass("),\n");
        return Ok(Constraint::Free(set));
    }
    let word = cursor.until("    OperandConstraint::", b',');
    cursor.pass(",\n");
    Ok(constraint_named(word))
}

impl Item for Constraint {
    ghost use Rattle.meta_gen.specs.Constraint.{number_constraint_of};
    ghost use Rattle.meta_table_text.specs.ConstraintText.{constraint_line};
    ghost use Rattle.meta_table_reader.specs.Shown.{IsShownConstraint};
    ghost use Rattle.meta_table_reader.specs.Some.{constraint_some};

    ghost text = { λ c. constraint_line (number_constraint_of c) };

    ghost IsShown = { λ c. IsShownConstraint (number_constraint_of c) };

    fn read(alloc: Global, cursor: &mut Cursor) -> Result<Constraint, AllocError> {
        constraint(alloc, cursor)
    }

    ghost some = { λ c. constraint_some (number_constraint_of c) };
}
