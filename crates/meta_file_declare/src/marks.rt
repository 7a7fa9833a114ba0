ghost use Rattle.std.specs.Prelude.{◌≡◌, ◌<◌, ◌+◌, length, take, slice_get, Option, OnOk, None, Some, Ok};
ghost use Rattle.meta_file_syntax.specs.declared.insts.Mark.{Mark as spec_Mark};
ghost use Rattle.meta_file_types.specs.Said.{Said};
ghost use Rattle.meta_file_types.specs.Meant.{MeantType};
ghost use Rattle.meta_file_types.specs.Registered.{Extends};
ghost use Rattle.meta_file_types.specs.Held as held;
ghost use Rattle.meta_file_types.specs.Telling.{Tells};
ghost use Rattle.meta_file_declare.specs.Insts.{with_mark, marks_added, marks_in, second_of};
ghost use Rattle.meta_file_declare.specs.Mentioned.{after_mark, after_marks};
ghost use Rattle.meta_file_declare.specs.Registered.{IsSecondIn};

use meta_file_syntax::{InstItem, Mark, Property};
use meta_file_types::{ItemError, Reason, Types};
use meta_inst::InstructionBuilder;
use meta_typevar::TypeVar;
use std::alloc::Global;

/// The instruction with one more mark. A mark `second` changes nothing here.
fn with_mark(builder: InstructionBuilder, mark: &Mark) -> InstructionBuilder
    ensures { result ≡ record builder { marks = with_mark builder.marks mark.now } }
{
    match mark {
        Mark::Is(Property::TerminatesBlock) => builder.terminates_block(),
        Mark::Is(Property::Branches) => builder.branches(),
        Mark::Is(Property::Call) => builder.call(),
        Mark::Is(Property::Returns) => builder.returns(),
        Mark::Is(Property::CanLoad) => builder.can_load(),
        Mark::Is(Property::CanStore) => builder.can_store(),
        Mark::Is(Property::CanTrap) => builder.can_trap(),
        Mark::Is(Property::OtherSideEffects) => builder.other_side_effects(),
        Mark::Is(Property::SideEffectsIdempotent) => builder.side_effects_idempotent(),
        Mark::Is(Property::ImmMethod) => builder.inst_builder_imm_method(true),
        Mark::Second(_) => builder,
    }
}

pub(crate) fn with_marks(mut builder: InstructionBuilder, marks: &[Mark]) -> InstructionBuilder
    ensures { result ≡ record builder { marks = marks_added builder.marks marks.now } }
{
    for mark in marks {
        builder = with_mark(builder, mark);
    }
    builder
}

/// The marks in the brackets. The list is empty if there are no brackets.
pub(crate) fn marks_in(item: &InstItem) -> &[Mark]
    ensures { result.now ≡ marks_in item.now.marks }
{
    match &item.marks {
        Some(marks) => marks.as_slice(),
        None => &[],
    }
}

/// The variable of the second control after the mark at a place. `second` is the one that the marks before name, if they do.
fn second_at<'i>(
    alloc: Global,
    types: &mut Types,
    second: Option<TypeVar>,
    marks: &'i [Mark],
    place: usize,
) -> Result<Option<TypeVar>, ItemError<'i>>
    ghost said: { Said }
    requires holds { held.Holds types.old said }
    requires within { place < length marks.now }
    ensures means { (m : Option MeantType) (mark : spec_Mark) → second_of said.words (take place marks.now) ≡ Ok m
        → IsSecondIn (held.registered types.old said) m second → slice_get marks.now place ≡ Some mark
        → Tells (IsSecondIn (held.registered types.new (after_mark said mark))) result
        (second_of said.words (take (place + 1) marks.now)) }
    ensures holds { (mark : spec_Mark) → slice_get marks.now place ≡ Some mark → OnOk result (held.Holds types.new (after_mark said mark)) }
    ensures extends { (mark : spec_Mark) → slice_get marks.now place ≡ Some mark
        → OnOk result (Extends (held.registered types.old said) (held.registered types.new (after_mark said mark))) }
{
    match &marks[place] {
        Mark::Is(_) => Ok(second),
        Mark::Second(means) => {
            if second.is_some() {
                return Err(ItemError::Wrong(Reason::SecondTwice(place)));
            }
            Ok(Some(types.type_var(alloc, means)?))
        }
    }
}

pub(crate) fn second_in<'i>(
    alloc: Global,
    types: &mut Types,
    item: &'i InstItem,
) -> Result<Option<TypeVar>, ItemError<'i>>
    ghost said: { Said }
    requires { held.Holds types.old said }
    ensures means { let marks = marks_in item.now.marks in
        Tells (IsSecondIn (held.registered types.new (after_marks said marks))) result (second_of said.words marks) }
    ensures holds { OnOk result (held.Holds types.new (after_marks said (marks_in item.now.marks))) }
    ensures extends { OnOk result
        (Extends (held.registered types.old said) (held.registered types.new (after_marks said (marks_in item.now.marks)))) }
{
    let marks = marks_in(item);
    let mut second = None;
    for place in 0..marks.len() {
        second = second_at(alloc, types, second, marks, place)?;
    }
    Ok(second)
}

pub(crate) fn with_second(
    builder: InstructionBuilder,
    second: Option<TypeVar>,
) -> InstructionBuilder
    requires { builder.second ≡ None }
    ensures { result ≡ record builder { second = second } }
{
    match second {
        Some(variable) => builder.second_control(variable),
        None => builder,
    }
}
