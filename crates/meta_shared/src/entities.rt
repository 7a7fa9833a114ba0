ghost use Rattle.std.specs.Prelude.{◌≡◌, IfOk, length};
ghost use Rattle.meta_shared.specs.Kinds.{AreEntities, EntitiesHoldNoVariable};
ghost use Rattle.meta_shared.specs.KindRows.{BeginWith, kinds_of_entities};

use super::kind_rows::{Class, KindRow, kind_rows, make_kinds, next};
use meta_operands::OperandKind;
use std::alloc::{AllocError, Global};

/// The kinds of references to entities of the function, and the kind of varargs, as in the crate's `shared/entities.rs`.
#[derive(Drop)]
pub struct EntityRefs {
    /// A block with its arguments.
    pub block_call: OperandKind,
    /// A block with its arguments, which is taken if the condition holds.
    pub block_then: OperandKind,
    /// A block with its arguments, which is taken if the condition doesn't hold.
    pub block_else: OperandKind,
    /// A block without arguments.
    pub raw_block: OperandKind,
    /// A stack slot.
    pub stack_slot: OperandKind,
    /// A dynamic stack slot.
    pub dynamic_stack_slot: OperandKind,
    /// A global value.
    pub global_value: OperandKind,
    /// A signature.
    pub sig_ref: OperandKind,
    /// A function.
    pub func_ref: OperandKind,
    /// A jump table.
    pub jump_table: OperandKind,
    /// An exception table.
    pub exception_table: OperandKind,
    /// Any number of values (varargs).
    pub varargs: OperandKind,
    /// A constant of the pool.
    pub pool_constant: OperandKind,
    /// An immediate of 128 bits.
    pub uimm128: OperandKind,
}

/// The kinds, in the order of the fields.
static ENTITIES: [KindRow; 14] = kind_rows! {
    block_call: Entity("destination", "ir::BlockCall", "a basic block in the same function, with its arguments provided.");
    block_then: Entity("block_then", "ir::BlockCall", "a basic block in the same function, with its arguments provided.");
    block_else: Entity("block_else", "ir::BlockCall", "a basic block in the same function, with its arguments provided.");
    raw_block: Entity("raw_block", "ir::Block", "a basic block in the same function, with no arguments provided.");
    stack_slot: Entity("stack_slot", "ir::StackSlot", "A stack slot");
    dynamic_stack_slot: Entity("dynamic_stack_slot", "ir::DynamicStackSlot", "A dynamic stack slot");
    global_value: Entity("global_value", "ir::GlobalValue", "A global value.");
    sig_ref: Entity("sig_ref", "ir::SigRef", "A function signature.");
    func_ref: Entity("func_ref", "ir::FuncRef", "An external function.");
    jump_table: Entity("table", "ir::JumpTable", "A jump table.");
    exception_table: Entity("exception", "ir::ExceptionTable", "An exception table.");
    varargs: Varargs("", "&[Value]", "A variable size list of `value` operands.");
    pool_constant: Entity("constant_handle", "ir::Constant", "A constant stored in the constant pool.");
    uimm128: Entity("imm", "ir::Immediate", "A 128-bit immediate unsigned integer.");
};

/// The kinds as fields. They are in the order of the fields.
fn named(kinds: Vec<OperandKind>) -> EntityRefs
    requires { length kinds.items ≡ 14 }
    ensures { BeginWith (kinds_of_entities result) kinds.items }
{
    let mut kinds = kinds.into_iter();
    EntityRefs {
        block_call: next(&mut kinds),
        block_then: next(&mut kinds),
        block_else: next(&mut kinds),
        raw_block: next(&mut kinds),
        stack_slot: next(&mut kinds),
        dynamic_stack_slot: next(&mut kinds),
        global_value: next(&mut kinds),
        sig_ref: next(&mut kinds),
        func_ref: next(&mut kinds),
        jump_table: next(&mut kinds),
        exception_table: next(&mut kinds),
        varargs: next(&mut kinds),
        pool_constant: next(&mut kinds),
        uimm128: next(&mut kinds),
    }
}

impl EntityRefs {
    /// Makes the kinds of the shared instruction set. None of them is a kind of values.
    pub fn new(alloc: Global) -> Result<EntityRefs, AllocError>
        ensures kinds { IfOk result AreEntities }
        ensures no_variable { IfOk result EntitiesHoldNoVariable }
    {
        Ok(named(make_kinds(alloc, &ENTITIES)?))
    }
}
